//! Arguments: the source and the modifiers that a byte names, and their text.
//!
//! A stage stands beside an argument, and is no part of it: an argument is what its byte names, whatever the stage, and up to six of them would each hold
//! the same number.
ghost use Rattle.std.specs.Prelude.{◌≡◌};
ghost use Rattle.text.specs.Buffer.{Wrote};
ghost use Rattle.combiners.specs.Arguments.{source_of, arg_of, source_text, replicated, arg_text};

use crate::codes::*;
use crate::{Arg, Source};
use text::{put, put_numbered, put_when};
use values::StageIndex;
use values::staged::put_staged;

// A texture that is not bound is white, and so is a selector that Microsoft does not name.
fn source_of(selector: u8, textured: bool) -> Source
    ensures { result ≡ source_of textured selector }
{
    match selector {
        D3DTA_DIFFUSE => Source::Diffuse,
        D3DTA_CURRENT => Source::Current,
        D3DTA_TEXTURE if textured => Source::Texture,
        D3DTA_TFACTOR => Source::Factor,
        D3DTA_SPECULAR => Source::Specular,
        D3DTA_TEMP => Source::Temp,
        D3DTA_CONSTANT => Source::Constant,
        _ => Source::White,
    }
}

// Whether a texture is bound counts too, so this is no `From`.
pub fn arg_of(byte: u8, textured: bool) -> Arg
    ensures { result ≡ arg_of textured byte }
{
    Arg {
        source: source_of(byte % SELECTORS, textured),
        replicate: byte / D3DTA_ALPHAREPLICATE % 2 == 1,
        complement: byte / D3DTA_COMPLEMENT % 2 == 1,
    }
}

// The text of a source. The constant of a stage stands in the row behind that of the stage before it; row 0 is the texture factor.
#[tactic(auto, unfolding(crate::specs::Arguments::source_text, crate::specs::Arguments::texel_name, crate::specs::Arguments::constant_row))]
fn put_source(out: &mut [u8], at: usize, s: Source, stage: StageIndex) -> usize
    ensures { Wrote out.old at out.new result (source_text stage s) }
{
    match s {
        Source::Diffuse => put(out, at, b"in.color0"),
        Source::Current => put(out, at, b"current"),
        Source::Texture => put_staged(out, at, b"t#", stage),
        Source::Factor => put(out, at, b"ps_c[0]"),
        Source::Specular => put(out, at, b"in.color1"),
        Source::Temp => put(out, at, b"temp"),
        Source::Constant => put_numbered(out, at, b"ps_c[#]", stage.number() + 1),
        Source::White => put(out, at, b"float4(1.0)"),
    }
}

#[tactic(auto, using(text::proofs::Laws::joining), unfolding(crate::specs::Arguments::replicated))]
fn put_replicated(out: &mut [u8], at: usize, x: Arg, stage: StageIndex) -> usize
    ensures { Wrote out.old at out.new result (replicated stage x) }
{
    let a = put_source(out, at, x.source, stage);
    put_when(out, a, x.replicate, b".aaaa")
}

#[tactic(auto, using(text::proofs::Laws::joining), unfolding(crate::specs::Arguments::arg_text))]
pub fn put_arg(out: &mut [u8], at: usize, x: Arg, stage: StageIndex) -> usize
    ensures { Wrote out.old at out.new result (arg_text stage x) }
{
    if x.complement {
        let mut p = put(out, at, b"(1.0 - ");
        p = put_replicated(out, p, x, stage);
        put(out, p, b")")
    } else {
        put_replicated(out, at, x, stage)
    }
}
