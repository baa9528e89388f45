//! The two kinds of key: in one of kind 1 MULTIPLYADD and LERP have no text, and are taken for PREMODULATE, which has none either.
ghost use Rattle.std.specs.Prelude.{◌≡◌};
ghost use Rattle.cascade.specs.Effective.{narrow_op, narrow_combiner, narrow_stage, effective_stages, effective};

use combiners::codes::*;
use combiners::ops::three_operands;
use values::{Combiner, Key, Stage};

fn narrow_op(op: u8) -> u8
    ensures { result ≡ narrow_op op }
{
    if three_operands(op) {
        return D3DTOP_PREMODULATE;
    }
    op
}

fn narrow_combiner(c: Combiner) -> Combiner
    ensures { result ≡ narrow_combiner c }
{
    Combiner {
        op: narrow_op(c.op),
        ..c
    }
}

fn narrow_stage(s: Stage) -> Stage
    ensures { result ≡ narrow_stage s }
{
    Stage {
        colour: narrow_combiner(s.colour),
        alpha: narrow_combiner(s.alpha),
        flags: s.flags,
    }
}

#[tactic(auto, unfolding(crate::specs::Effective::effective_stages))]
fn effective_stages(k: Key) -> [Stage; 8]
    ensures { result ≡ effective_stages k }
{
    if k.wide {
        k.stages
    } else {
        k.stages.map(narrow_stage)
    }
}

pub fn effective(k: Key) -> Key
    ensures { result ≡ effective k }
{
    Key {
        stages: effective_stages(k),
        ..k
    }
}
