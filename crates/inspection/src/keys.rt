//! A key of kind 1 as its bytes lie.
//!
//! A body is a slice, for the reasons that the reader names.
ghost use Rattle.std.specs.Prelude.{◌+◌, ◌≤◌, ◌≡◌, drop, length, take};
ghost use Rattle.wire.specs.Bodies.{body_length};
ghost use Rattle.inspection.specs.Raw.{any_byte_of_three, raw_key, raw_stage, raw_stages};

use combiners::ops::three_operands;
use values::{Combiner, Key, Stage};
use wire::Kind;
use wire::reader::{SPECULAR_AT, STAGE_BYTES};

// The stage whose seven bytes begin at a place.
fn raw_stage(body: &[u8], at: usize) -> Stage
    requires { at + 7 ≤ length body.now }
    ensures { result ≡ raw_stage (drop at body.now) }
{
    let colour = Combiner {
        op: body[at],
        arg1: body[at + 1],
        arg2: body[at + 2],
        arg0: body[at + 3],
    };
    let alpha = Combiner {
        op: body[at + 3],
        arg1: body[at + 4],
        arg2: body[at + 5],
        arg0: body[at + 6],
    };
    Stage {
        colour,
        alpha,
        flags: body[at + 6],
    }
}

fn raw_stages(body: &[u8]) -> [Stage; 8]
    requires { body_length Kind.Key ≤ length body.now }
    ensures { result ≡ raw_stages 8 body.now }
{
    std::array::from_fn(|i| raw_stage(body, STAGE_BYTES * i))
}

// The key whose arguments 0 are bytes that lie beside them. Where no op has three operands they are not read. Tried: `key_from_body` alone. It moves bytes one
// by one, and an everyday emission took 9% longer.
#[tactic(auto, unfolding(crate::specs::Raw::raw_key))]
pub fn raw_key(body: &[u8]) -> Key
    requires { body_length Kind.Key ≤ length body.now }
    ensures { result ≡ raw_key body.now }
{
    Key {
        stages: raw_stages(body),
        specular_add: body[SPECULAR_AT] == 1,
        projected: body[SPECULAR_AT + 1],
        wide: false,
    }
}

// Some byte of the stages is one that an op of three operands has. Few keys of kind 1 have one. All bytes are asked, which takes fewer steps than to
// pick the ops, and with no branch between them.
pub fn any_byte_of_three(body: &[u8]) -> bool
    requires { body_length Kind.Key ≤ length body.now }
    ensures { result ≡ any_byte_of_three (take 56 body.now) }
{
    let mut found = false;
    for byte in &body[..SPECULAR_AT] {
        found |= three_operands(*byte);
    }
    found
}
