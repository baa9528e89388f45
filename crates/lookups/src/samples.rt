//! The lines of lookups: a texture sampled or gathered at a coordinate, which stands beside the sampling as in `lookup`.
ghost use Rattle.text.specs.Text.{lit, when, ◌⊕◌};
ghost use Rattle.text.specs.Buffer.{Wrote};
ghost use Rattle.shader.specs.Lookups.{coordinate_text, lod_row, level_text, gather_text, compare_text, texel_line, projected_line, lookup_text};

use crate::coordinates::{put_coordinate, put_tested_quotient, put_uv};
use shader::{Coordinate, Lookup, Sampling};
use text::{put, put_either, put_when};
use values::StageIndex;
use values::staged::put_staged;

#[tactic(auto, unfolding(shader::specs::Lookups::level_text))]
fn put_level(out: &mut [u8], at: usize, lod: bool, i: StageIndex) -> usize
    ensures { Wrote out.old at out.new result (level_text lod i) }
{
    if lod {
        put_staged(out, at, b"level(max(lod_bias[#].w, 0.0))", i)
    } else {
        put(out, at, b"level(0)")
    }
}

fn put_bias(out: &mut [u8], at: usize, lod: bool, i: StageIndex) -> usize
    ensures { Wrote out.old at out.new result (when lod (lit ", bias(" ⊕ lod_row i ⊕ lit ".x)")) }
{
    if lod {
        return put_staged(out, at, b", bias(lod_bias[#].x)", i);
    }
    at
}

pub(crate) fn put_gather_line(
    out: &mut [u8],
    at: usize,
    alpha: bool,
    s: Sampling,
    c: Coordinate,
) -> usize
    ensures { Wrote out.old at out.new result
        (texel_line s.stage (gather_text alpha s.projected s.stage (coordinate_text s.stage c))) }
{
    let i = s.stage;
    let mut p = put_staged(out, at, b"    float4 t# = s#.gather(samp#, (", i);
    p = put_uv(out, p, s.projected, false, i, c);
    p = put_staged(
        out,
        p,
        b") + 0.5 / float2(s#.get_width(), s#.get_height())",
        i,
    );
    p = put_when(out, p, alpha, b", int2(0), component::w");
    put(out, p, b").zxyw;\n")
}

// The other components of the texel are filled where the depth is in red alone.
pub(crate) fn put_depth_line(
    out: &mut [u8],
    at: usize,
    red: bool,
    s: Sampling,
    c: Coordinate,
) -> usize
    ensures { Wrote out.old at out.new result (lookup_text (Lookup.DepthFetch red) s.lod s.projected s.stage c) }
{
    let i = s.stage;
    let mut p = put_staged(out, at, b"    float4 t# = float4(s#.sample(samp#, ", i);
    p = put_uv(out, p, s.projected, false, i, c);
    p = put(out, p, b", ");
    p = put_level(out, p, s.lod, i);
    put_either(out, p, red, b"), 0.0, 0.0, 1.0);\n", b"));\n")
}

pub(crate) fn put_compare_line(out: &mut [u8], at: usize, s: Sampling, c: Coordinate) -> usize
    ensures { Wrote out.old at out.new result (texel_line s.stage (compare_text s.lod s.stage (coordinate_text s.stage c))) }
{
    let i = s.stage;
    let mut p = put_staged(
        out,
        at,
        b"    float4 t# = float4(s#.sample_compare(samp#, ",
        i,
    );
    p = put_coordinate(out, p, i, c);
    p = put(out, p, b".xy, saturate(");
    p = put_coordinate(out, p, i, c);
    p = put(out, p, b".z), ");
    p = put_level(out, p, s.lod, i);
    put(out, p, b"));\n")
}

pub(crate) fn put_plain_line(
    out: &mut [u8],
    at: usize,
    three: bool,
    s: Sampling,
    c: Coordinate,
) -> usize
    ensures { Wrote out.old at out.new result (lookup_text (Lookup.Plain three) s.lod s.projected s.stage c) }
{
    let i = s.stage;
    let mut p = put_staged(out, at, b"    float4 t# = s#.sample(samp#, ", i);
    p = put_uv(out, p, s.projected, three, i, c);
    p = put_bias(out, p, s.lod, i);
    put(out, p, b");\n")
}

// The line that declares a projected coordinate.
pub(crate) fn put_projected_line(out: &mut [u8], at: usize, i: StageIndex, c: Coordinate) -> usize
    ensures { Wrote out.old at out.new result (projected_line i (coordinate_text i c)) }
{
    let mut p = put_staged(out, at, b"    float3 proj# = ", i);
    p = put_tested_quotient(out, p, true, i, c);
    put(out, p, b" : float3(0.0);\n")
}
