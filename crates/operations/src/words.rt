//! The words of the table, written: each literal in its own arm, so that its length is a constant to the compiler.
//!
//! A stage stands beside its arguments, as in `combiners::arguments`.
ghost use Rattle.text.specs.Text.{raw, ◌⊕◌};
ghost use Rattle.text.specs.Buffer.{Wrote};
ghost use Rattle.combiners.specs.Arguments.{arg_text};
ghost use Rattle.operations.specs.Forms.{opening_text, joining_text, ending_text};

use crate::forms::{Ending, Joining, Opening};
use combiners::Arg;
use combiners::arguments::put_arg;
use text::put;
use values::StageIndex;
use values::staged::put_staged;

// An argument between two pieces of text.
#[tactic(auto, using(text::proofs::Laws::joining))]
fn put_around(
    out: &mut [u8],
    at: usize,
    before: &[u8],
    x: Arg,
    behind: &[u8],
    stage: StageIndex,
) -> usize
    ensures { Wrote out.old at out.new result (raw before.now ⊕ arg_text stage x ⊕ raw behind.now) }
{
    let mut p = put(out, at, before);
    p = put_arg(out, p, x, stage);
    put(out, p, behind)
}

pub fn put_opening(out: &mut [u8], at: usize, w: Opening, z: Arg, stage: StageIndex) -> usize
    ensures { Wrote out.old at out.new result (opening_text (arg_text stage z) w) }
{
    match w {
        Opening::Bracket => put(out, at, b"("),
        Opening::Saturate => put(out, at, b"saturate("),
        Opening::SaturateTwice => put(out, at, b"saturate(2.0 * "),
        Opening::SaturateFourTimes => put(out, at, b"saturate(4.0 * "),
        Opening::SaturateTwiceSum => put(out, at, b"saturate(2.0 * ("),
        Opening::SaturateInverse => put(out, at, b"saturate((1.0 - "),
        Opening::Dot => put(out, at, b"float4(saturate(4.0 * dot(("),
        Opening::SaturateArg0Plus => put_around(out, at, b"saturate(", z, b" + ", stage),
        Opening::BracketArg0Times => put_around(out, at, b"(", z, b" * ", stage),
    }
}

pub fn put_joining(
    out: &mut [u8],
    at: usize,
    w: Joining,
    x: Arg,
    z: Arg,
    stage: StageIndex,
) -> usize
    ensures { Wrote out.old at out.new result (joining_text stage (arg_text stage x) (arg_text stage z) w) }
{
    match w {
        Joining::Times => put(out, at, b" * "),
        Joining::Plus => put(out, at, b" + "),
        Joining::Minus => put(out, at, b" - "),
        Joining::TimesDiffuseAlphaPlus => put(out, at, b" * in.color0.a + "),
        Joining::TimesTexelAlphaPlus => put_staged(out, at, b" * t#.a + ", stage),
        Joining::TimesFactorAlphaPlus => put(out, at, b" * ps_c[0].a + "),
        Joining::TimesCurrentAlphaPlus => put(out, at, b" * current.a + "),
        Joining::PlusArg1AlphaTimes => put_around(out, at, b" + (", x, b").a * ", stage),
        Joining::PlusInverseArg1AlphaTimes => put_around(
            out,
            at,
            b" + (1.0 - (",
            x,
            b").a) * ",
            stage,
        ),
        Joining::BracketTimes => put(out, at, b") * "),
        Joining::Dot => put(out, at, b").rgb - 0.5, ("),
        Joining::PlusInverseArg0Times => put_around(out, at, b" + (1.0 - ", z, b") * ", stage),
    }
}

pub fn put_ending(out: &mut [u8], at: usize, w: Ending, x: Arg, stage: StageIndex) -> usize
    ensures { Wrote out.old at out.new result (ending_text stage (arg_text stage x) w) }
{
    match w {
        Ending::Bracket => put(out, at, b")"),
        Ending::MinusHalf => put(out, at, b" - 0.5)"),
        Ending::MinusHalfSum => put(out, at, b" - 0.5))"),
        Ending::TimesInverseDiffuseAlpha => put(out, at, b" * (1.0 - in.color0.a))"),
        Ending::TimesInverseTexelAlpha => put_staged(out, at, b" * (1.0 - t#.a))", stage),
        Ending::TimesInverseFactorAlpha => put(out, at, b" * (1.0 - ps_c[0].a))"),
        Ending::TimesInverseCurrentAlpha => put(out, at, b" * (1.0 - current.a))"),
        Ending::TimesInverseArg1 => put_around(out, at, b" * (1.0 - ", x, b"))", stage),
        Ending::PlusArg1Alpha => put_around(out, at, b" + (", x, b").a)", stage),
        Ending::Dot => put(out, at, b").rgb - 0.5)))"),
    }
}
