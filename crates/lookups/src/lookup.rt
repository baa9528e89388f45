//! The lookup of a stage.
//!
//! The coordinate stands beside the sampling, and is no part of it: one sampling is written at several.
ghost use Rattle.text.specs.Buffer.{Wrote};
ghost use Rattle.shader.specs.Lookups.{lookup_text};

use crate::samples::{
    put_compare_line, put_depth_line, put_gather_line, put_plain_line, put_projected_line,
};
use shader::{Coordinate, Lookup, Sampling};

#[tactic(auto, using(text::proofs::Laws::joining), unfolding(shader::specs::Lookups::lookup_text))]
fn put_comparison_lines(out: &mut [u8], at: usize, s: Sampling, c: Coordinate) -> usize
    ensures { Wrote out.old at out.new result (lookup_text Lookup.DepthCompare s.lod s.projected s.stage c) }
{
    if s.projected {
        let p = put_projected_line(out, at, s.stage, c);
        put_compare_line(out, p, s, Coordinate::Projected)
    } else {
        put_compare_line(out, at, s, c)
    }
}

// The lookup of a stage at a coordinate. What its kind says is handed on beside the sampling that holds it: the kinds are told apart here alone.
#[tactic(auto, unfolding(shader::specs::Lookups::lookup_text))]
pub fn put_lookup(out: &mut [u8], at: usize, s: Sampling, c: Coordinate) -> usize
    ensures { Wrote out.old at out.new result (lookup_text s.lookup s.lod s.projected s.stage c) }
{
    match s.lookup {
        Lookup::Fetch4 { alpha } => put_gather_line(out, at, alpha, s, c),
        Lookup::DepthFetch { red } => put_depth_line(out, at, red, s, c),
        Lookup::DepthCompare => put_comparison_lines(out, at, s, c),
        Lookup::Plain { three } => put_plain_line(out, at, three, s, c),
    }
}
