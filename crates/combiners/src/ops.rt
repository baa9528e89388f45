//! The operation that a code names, whether it has a text, and whether it has an argument 0.
ghost use Rattle.std.specs.Prelude.{◌≡◌};
ghost use Rattle.combiners.specs.Combiners.{has_text, op_of, three_operands};

use crate::Op;
use crate::codes::*;

// The operation of a code: the codes without a text fall to argument 1.
impl From<u8> for Op {
    ghost from_gives = { λ code op. op ≡ op_of code };

    fn from(code: u8) -> Op {
        match code {
            D3DTOP_SELECTARG1 => Op::SelectArg1,
            D3DTOP_SELECTARG2 => Op::SelectArg2,
            D3DTOP_MODULATE => Op::Modulate,
            D3DTOP_MODULATE2X => Op::Modulate2X,
            D3DTOP_MODULATE4X => Op::Modulate4X,
            D3DTOP_ADD => Op::Add,
            D3DTOP_ADDSIGNED => Op::AddSigned,
            D3DTOP_ADDSIGNED2X => Op::AddSigned2X,
            D3DTOP_SUBTRACT => Op::Subtract,
            D3DTOP_ADDSMOOTH => Op::AddSmooth,
            D3DTOP_BLENDDIFFUSEALPHA => Op::BlendDiffuseAlpha,
            D3DTOP_BLENDTEXTUREALPHA => Op::BlendTextureAlpha,
            D3DTOP_BLENDFACTORALPHA => Op::BlendFactorAlpha,
            D3DTOP_BLENDTEXTUREALPHAPM => Op::BlendTextureAlphaPM,
            D3DTOP_BLENDCURRENTALPHA => Op::BlendCurrentAlpha,
            D3DTOP_MODULATEALPHA_ADDCOLOR => Op::ModulateAlphaAddColor,
            D3DTOP_MODULATECOLOR_ADDALPHA => Op::ModulateColorAddAlpha,
            D3DTOP_MODULATEINVALPHA_ADDCOLOR => Op::ModulateInvAlphaAddColor,
            D3DTOP_MODULATEINVCOLOR_ADDALPHA => Op::ModulateInvColorAddAlpha,
            D3DTOP_DOTPRODUCT3 => Op::DotProduct3,
            D3DTOP_MULTIPLYADD => Op::MultiplyAdd,
            D3DTOP_LERP => Op::Lerp,
            0..=D3DTOP_DISABLE
            | D3DTOP_PREMODULATE
            | D3DTOP_BUMPENVMAP..=D3DTOP_BUMPENVMAPLUMINANCE
            | 27..=255 => Op::Other,
        }
    }
}

pub fn has_text(op: u8) -> bool
    ensures { result ≡ has_text op }
{
    // PREMODULATE and the two of bump maps stand between the runs.
    matches!(
        op,
        D3DTOP_SELECTARG1..=D3DTOP_BLENDCURRENTALPHA
            | D3DTOP_MODULATEALPHA_ADDCOLOR..=D3DTOP_MODULATEINVCOLOR_ADDALPHA
            | D3DTOP_DOTPRODUCT3..=D3DTOP_LERP
    )
}

pub fn three_operands(op: u8) -> bool
    ensures { result ≡ three_operands op }
{
    matches!(op, D3DTOP_MULTIPLYADD | D3DTOP_LERP)
}
