//! Arguments and operations: Microsoft's codes, an argument byte and an op code decoded, what they warn of, and an argument's text written.
#![tactic(auto)]

pub mod arguments;
pub mod codes;
pub mod ops;
pub mod warnings;

// Where an argument's value comes from.
#[derive(Clone, Copy)]
pub enum Source {
    Diffuse,
    Current,
    Texture,
    Factor,
    Specular,
    Temp,
    Constant,
    White,
}

#[derive(Clone, Copy)]
pub struct Arg {
    pub source: Source,
    pub replicate: bool,
    pub complement: bool,
}

// An operation that has a text of its own, by Microsoft's name, or another, which keeps argument 1's.
#[derive(Clone, Copy)]
pub enum Op {
    SelectArg1,
    SelectArg2,
    Modulate,
    Modulate2X,
    Modulate4X,
    Add,
    AddSigned,
    AddSigned2X,
    Subtract,
    AddSmooth,
    BlendDiffuseAlpha,
    BlendTextureAlpha,
    BlendFactorAlpha,
    BlendTextureAlphaPM,
    BlendCurrentAlpha,
    ModulateAlphaAddColor,
    ModulateColorAddAlpha,
    ModulateInvAlphaAddColor,
    ModulateInvColorAddAlpha,
    DotProduct3,
    Other,
    MultiplyAdd,
    Lerp,
}

// An operation with its arguments. MultiplyAdd and Lerp alone have argument 0 in their texts.
#[derive(Clone, Copy)]
pub struct Expression {
    pub op: Op,
    pub arg1: Arg,
    pub arg2: Arg,
    pub arg0: Arg,
}
