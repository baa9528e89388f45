//! The operations as one table: which arguments an operation's text has, and the words around them.
ghost use Rattle.std.specs.Prelude.{◌≡◌};
ghost use Rattle.operations.specs.Forms.{form_of};

use combiners::Op;

// The words before argument 1. Those that name argument 0 have its text in them. As in Microsoft's names, the inverse of a value is one minus the value.
#[derive(Clone, Copy)]
pub enum Opening {
    Bracket,
    Saturate,
    SaturateTwice,
    SaturateFourTimes,
    SaturateTwiceSum,
    SaturateInverse,
    Dot,
    SaturateArg0Plus,
    BracketArg0Times,
}

// The words between argument 1 and argument 2. Those that name argument 0 or 1 repeat its text.
#[derive(Clone, Copy)]
pub enum Joining {
    Times,
    Plus,
    Minus,
    TimesDiffuseAlphaPlus,
    TimesTexelAlphaPlus,
    TimesFactorAlphaPlus,
    TimesCurrentAlphaPlus,
    PlusArg1AlphaTimes,
    PlusInverseArg1AlphaTimes,
    BracketTimes,
    Dot,
    PlusInverseArg0Times,
}

// The words behind argument 2. Those that name argument 1 repeat its text.
#[derive(Clone, Copy)]
pub enum Ending {
    Bracket,
    MinusHalf,
    MinusHalfSum,
    TimesInverseDiffuseAlpha,
    TimesInverseTexelAlpha,
    TimesInverseFactorAlpha,
    TimesInverseCurrentAlpha,
    TimesInverseArg1,
    PlusArg1Alpha,
    Dot,
}

// Argument 1 or 2 alone, or both with words around them.
#[derive(Clone, Copy)]
pub enum Form {
    Arg1,
    Arg2,
    Both(Opening, Joining, Ending),
}

// The table: a row for each operation.
pub fn form_of(op: Op, textured: bool) -> Form
    ensures { result ≡ form_of textured op }
{
    match op {
        Op::SelectArg1 => Form::Arg1,
        Op::SelectArg2 => Form::Arg2,
        Op::Modulate => Form::Both(Opening::Bracket, Joining::Times, Ending::Bracket),
        Op::Modulate2X => Form::Both(Opening::SaturateTwice, Joining::Times, Ending::Bracket),
        Op::Modulate4X => Form::Both(Opening::SaturateFourTimes, Joining::Times, Ending::Bracket),
        Op::Add => Form::Both(Opening::Saturate, Joining::Plus, Ending::Bracket),
        Op::AddSigned => Form::Both(Opening::Saturate, Joining::Plus, Ending::MinusHalf),
        Op::AddSigned2X => Form::Both(
            Opening::SaturateTwiceSum,
            Joining::Plus,
            Ending::MinusHalfSum,
        ),
        Op::Subtract => Form::Both(Opening::Saturate, Joining::Minus, Ending::Bracket),
        Op::AddSmooth => Form::Both(Opening::Saturate, Joining::Plus, Ending::TimesInverseArg1),
        Op::BlendDiffuseAlpha => Form::Both(
            Opening::Bracket,
            Joining::TimesDiffuseAlphaPlus,
            Ending::TimesInverseDiffuseAlpha,
        ),
        Op::BlendTextureAlpha if textured => Form::Both(
            Opening::Bracket,
            Joining::TimesTexelAlphaPlus,
            Ending::TimesInverseTexelAlpha,
        ),
        Op::BlendTextureAlpha => Form::Arg2,
        Op::BlendFactorAlpha => Form::Both(
            Opening::Bracket,
            Joining::TimesFactorAlphaPlus,
            Ending::TimesInverseFactorAlpha,
        ),
        Op::BlendTextureAlphaPM if textured => Form::Both(
            Opening::Saturate,
            Joining::Plus,
            Ending::TimesInverseTexelAlpha,
        ),
        Op::BlendTextureAlphaPM => Form::Both(Opening::Saturate, Joining::Plus, Ending::Bracket),
        Op::BlendCurrentAlpha => Form::Both(
            Opening::Bracket,
            Joining::TimesCurrentAlphaPlus,
            Ending::TimesInverseCurrentAlpha,
        ),
        Op::ModulateAlphaAddColor => Form::Both(
            Opening::Saturate,
            Joining::PlusArg1AlphaTimes,
            Ending::Bracket,
        ),
        Op::ModulateColorAddAlpha => Form::Both(
            Opening::Saturate,
            Joining::Times,
            Ending::PlusArg1Alpha,
        ),
        Op::ModulateInvAlphaAddColor => Form::Both(
            Opening::Saturate,
            Joining::PlusInverseArg1AlphaTimes,
            Ending::Bracket,
        ),
        Op::ModulateInvColorAddAlpha => Form::Both(
            Opening::SaturateInverse,
            Joining::BracketTimes,
            Ending::PlusArg1Alpha,
        ),
        Op::DotProduct3 => Form::Both(Opening::Dot, Joining::Dot, Ending::Dot),
        Op::Other => Form::Arg1,
        Op::MultiplyAdd => Form::Both(Opening::SaturateArg0Plus, Joining::Times, Ending::Bracket),
        Op::Lerp => Form::Both(
            Opening::BracketArg0Times,
            Joining::PlusInverseArg0Times,
            Ending::Bracket,
        ),
    }
}
