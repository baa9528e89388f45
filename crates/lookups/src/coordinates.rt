//! The coordinates of a stage, and where a lookup reads.
//!
//! The stage of a coordinate is that of its lookup. In one value with the coordinate it would stand twice, here and in the sampling, and a clause would
//! have to say that both are the same.
ghost use Rattle.text.specs.Text.{lit, pick, ◌⊕◌};
ghost use Rattle.text.specs.Buffer.{Wrote};
ghost use Rattle.shader.specs.Lookups.{coordinate_text, quotient_text, uv_text};

use shader::Coordinate;
use text::{put, put_either};
use values::StageIndex;
use values::staged::put_staged;

#[tactic(auto, unfolding(shader::specs::Lookups::coordinate_text))]
pub fn put_coordinate(out: &mut [u8], at: usize, i: StageIndex, c: Coordinate) -> usize
    ensures { Wrote out.old at out.new result (coordinate_text i c) }
{
    match c {
        Coordinate::Interpolated => put_staged(out, at, b"in.texcoord#", i),
        Coordinate::Divided => put_staged(out, at, b"pc#", i),
        Coordinate::Displaced => put_staged(out, at, b"bc#", i),
        Coordinate::Projected => put_staged(out, at, b"proj#", i),
    }
}

// Two components of a coordinate, or three.
#[tactic(auto, using(text::proofs::Laws::joining))]
fn put_swizzled(out: &mut [u8], at: usize, three: bool, i: StageIndex, c: Coordinate) -> usize
    ensures { Wrote out.old at out.new result (coordinate_text i c ⊕ lit "." ⊕ pick three (lit "xyz") (lit "xy")) }
{
    let p = put_coordinate(out, at, i, c);
    put_either(out, p, three, b".xyz", b".xy")
}

// A coordinate divided by its w, behind a test of w.
pub(crate) fn put_tested_quotient(
    out: &mut [u8],
    at: usize,
    three: bool,
    i: StageIndex,
    c: Coordinate,
) -> usize
    ensures { Wrote out.old at out.new result
        (coordinate_text i c ⊕ lit ".w != 0.0 ? " ⊕ quotient_text three (coordinate_text i c)) }
{
    let mut p = put_coordinate(out, at, i, c);
    p = put(out, p, b".w != 0.0 ? ");
    p = put_swizzled(out, p, three, i, c);
    p = put(out, p, b" / ");
    p = put_coordinate(out, p, i, c);
    put(out, p, b".w")
}

// Where to read: two coordinates or three, divided if the stage is projected.
#[tactic(auto, unfolding(shader::specs::Lookups::uv_text))]
pub(crate) fn put_uv(
    out: &mut [u8],
    at: usize,
    projected: bool,
    three: bool,
    i: StageIndex,
    c: Coordinate,
) -> usize
    ensures { Wrote out.old at out.new result (uv_text projected three (coordinate_text i c)) }
{
    if projected {
        let mut p = put(out, at, b"(");
        p = put_tested_quotient(out, p, three, i, c);
        put_either(out, p, three, b" : float3(0.0))", b" : float2(0.0))")
    } else {
        put_swizzled(out, at, three, i, c)
    }
}
