//! Bump stages: the coordinate that one displaces, the texel that one scales, and all that a lookup behind one writes.
//!
//! A stage stands beside its coordinate, as in `lookups::coordinates`, and beside the bump stage in front of it, which is another.
#![tactic(auto)]

ghost use Rattle.std.specs.Prelude.{◌+◌, ◌*◌, false};
ghost use Rattle.text.specs.Text.{lit, pick, when, ◌⊕◌};
ghost use Rattle.text.specs.Marks.{numbered};
ghost use Rattle.text.specs.Buffer.{Wrote};
ghost use Rattle.combiners.specs.Arguments.{texel_name};
ghost use Rattle.shader.specs.Lookups.{coordinate_text, bump_row, lookup_text, divided_line, moved_text, displaced_line, displacement_text, luminance_line, sample_text};

use lookups::coordinates::put_coordinate;
use lookups::lookup::put_lookup;
use shader::{BumpStage, Coordinate, Sampling};
use text::{put, put_decimal};
use values::StageIndex;
use values::staged::put_staged;

// The rows of `bump_env` that a stage has: its matrix, then its luminance.
const ROWS: u8 = 2;

fn put_bump_row(out: &mut [u8], at: usize, k: u8) -> usize
    ensures { Wrote out.old at out.new result (bump_row k) }
{
    let mut p = put(out, at, b"bump_env[");
    p = put_decimal(out, p, k as usize);
    put(out, p, b"]")
}

fn put_matrix_row(out: &mut [u8], at: usize, n: StageIndex) -> usize
    ensures { Wrote out.old at out.new result (bump_row (2 * n)) }
{
    put_bump_row(out, at, ROWS * n.number())
}

fn put_luminance_row(out: &mut [u8], at: usize, n: StageIndex) -> usize
    ensures { Wrote out.old at out.new result (bump_row (2 * n + 1)) }
{
    put_bump_row(out, at, ROWS * n.number() + 1)
}

// The line that declares a divided coordinate.
#[tactic(auto, unfolding(shader::specs::Lookups::divided_line, shader::specs::Lookups::coordinate_text, shader::specs::Lookups::quotient_text))]
fn put_divided_line(out: &mut [u8], at: usize, i: StageIndex) -> usize
    ensures { Wrote out.old at out.new result (divided_line i) }
{
    put_staged(
        out,
        at,
        b"    float4 pc# = in.texcoord#.w != 0.0 ? float4(in.texcoord#.xyz / in.texcoord#.w, 1.0) : float4(0.0, 0.0, 0.0, 1.0);\n",
        i,
    )
}

// The row of stage n's matrix, and what is done with an entry of it.
#[tactic(auto, using(text::proofs::Laws::joining))]
fn put_entry(out: &mut [u8], at: usize, n: StageIndex, entry: &[u8]) -> usize
    ensures { Wrote out.old at out.new result (bump_row (2 * n) ⊕ numbered n entry.now) }
{
    let p = put_matrix_row(out, at, n);
    put_staged(out, p, entry, n)
}

// A coordinate of stage i moved by stage n's texel.
fn put_moved(out: &mut [u8], at: usize, i: StageIndex, n: StageIndex, base: Coordinate) -> usize
    ensures { Wrote out.old at out.new result (moved_text n (coordinate_text i base)) }
{
    let mut p = put_coordinate(out, at, i, base);
    p = put(out, p, b".xy + float2(");
    p = put_entry(out, p, n, b".x * t#.x + ");
    p = put_entry(out, p, n, b".z * t#.y, ");
    p = put_entry(out, p, n, b".y * t#.x + ");
    put_entry(out, p, n, b".w * t#.y)")
}

// The line that declares the coordinate of stage i displaced by stage n.
fn put_displaced_line(
    out: &mut [u8],
    at: usize,
    i: StageIndex,
    n: StageIndex,
    base: Coordinate,
) -> usize
    ensures { Wrote out.old at out.new result (displaced_line i n base) }
{
    let mut p = put_staged(out, at, b"    float4 bc# = float4(", i);
    p = put_moved(out, p, i, n, base);
    p = put(out, p, b", ");
    p = put_coordinate(out, p, i, base);
    put(out, p, b".zw);\n")
}

#[tactic(auto, using(text::proofs::Laws::joining), unfolding(shader::specs::Lookups::displacement_text))]
fn put_displacement(
    out: &mut [u8],
    at: usize,
    projected: bool,
    i: StageIndex,
    n: StageIndex,
) -> usize
    ensures { Wrote out.old at out.new result (displacement_text projected i n) }
{
    if projected {
        let p = put_divided_line(out, at, i);
        put_displaced_line(out, p, i, n, Coordinate::Divided)
    } else {
        put_displaced_line(out, at, i, n, Coordinate::Interpolated)
    }
}

// The luminance of a bump stage's texel, scaled.
#[tactic(auto, using(text::proofs::Laws::joining), unfolding(combiners::specs::Arguments::texel_name))]
fn put_scaled(out: &mut [u8], at: usize, b: &BumpStage) -> usize
    ensures { Wrote out.old at out.new result
        (when b.now.textured (texel_name b.now.stage ⊕ lit ".z * " ⊕ bump_row (2 * b.now.stage + 1) ⊕ lit ".x + ")) }
{
    if b.textured {
        let mut p = put_staged(out, at, b"t#.z * ", b.stage);
        p = put_luminance_row(out, p, b.stage);
        return put(out, p, b".x + ");
    }
    at
}

// The line that scales the texel of stage i by a bump stage's luminance.
fn put_luminance_line(out: &mut [u8], at: usize, b: &BumpStage, i: StageIndex) -> usize
    ensures { Wrote out.old at out.new result (luminance_line b.now.textured i b.now.stage) }
{
    let mut p = put_staged(out, at, b"    t# *= saturate(", i);
    p = put_scaled(out, p, b);
    p = put_luminance_row(out, p, b.stage);
    put(out, p, b".y);\n")
}

fn put_luminance(out: &mut [u8], at: usize, b: &BumpStage, i: StageIndex) -> usize
    ensures { Wrote out.old at out.new result (when b.now.luminance (luminance_line b.now.textured i b.now.stage)) }
{
    if b.luminance {
        return put_luminance_line(out, at, b, i);
    }
    at
}

// The lookup behind a bump stage.
#[tactic(auto, using(text::proofs::Laws::joining))]
fn put_bumped(out: &mut [u8], at: usize, b: &BumpStage, s: Sampling) -> usize
    ensures { Wrote out.old at out.new result
        (pick b.now.textured (displacement_text s.projected s.stage b.now.stage ⊕ lookup_text s.lookup s.lod false s.stage Coordinate.Displaced)
        (lookup_text s.lookup s.lod s.projected s.stage Coordinate.Interpolated)) }
{
    if b.textured {
        let p = put_displacement(out, at, s.projected, s.stage, b.stage);
        let divided = Sampling {
            projected: false,
            ..s
        };
        put_lookup(out, p, divided, Coordinate::Displaced)
    } else {
        put_lookup(out, at, s, Coordinate::Interpolated)
    }
}

// Everything that the lookup of a stage writes, behind a bump stage or not. The bump stage is lent: a struct that holds a stage's number is not yet
// proved where it is passed by value twice.
#[tactic(auto, using(text::proofs::Laws::joining), unfolding(shader::specs::Lookups::sample_text))]
pub fn put_sample(out: &mut [u8], at: usize, before: Option<BumpStage>, s: Sampling) -> usize
    ensures { Wrote out.old at out.new result (sample_text before s.lookup s.lod s.projected s.stage) }
{
    match before {
        None => put_lookup(out, at, s, Coordinate::Interpolated),
        Some(b) => {
            let i = s.stage;
            let p = put_bumped(out, at, &b, s);
            put_luminance(out, p, &b, i)
        }
    }
}
