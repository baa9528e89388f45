//! A stage decoded: the expressions that it writes.
//!
//! A combiner and whether its stage has a texture stay two parameters, as in `keys`.
ghost use Rattle.std.specs.Prelude.{◌≡◌};
ghost use Rattle.cascade.specs.Stages.{current_arg, fallback, arg0_of, combined, expression_of, alpha_of, decode};

use crate::keys::{alpha_from_colour, falls_back, is_bump, is_bump_op, textured};
use crate::{Alpha, Expressions};
use combiners::arguments::arg_of;
use combiners::codes::*;
use combiners::ops::three_operands;
use combiners::{Arg, Expression, Op, Source};
use values::{Combiner, Stage};

fn current_arg() -> Arg
    ensures { result ≡ current_arg }
{
    Arg {
        source: Source::Current,
        replicate: false,
        complement: false,
    }
}

// CURRENT by itself.
fn fallback() -> Expression
    ensures { result ≡ fallback }
{
    let current = current_arg();
    Expression {
        op: Op::SelectArg1,
        arg1: current,
        arg2: current,
        arg0: current,
    }
}

// Few ops have an argument 0, so the others do without resolving it.
fn arg0_of(textured: bool, c: Combiner) -> Arg
    ensures { result ≡ arg0_of textured c }
{
    if three_operands(c.op) {
        return arg_of(c.arg0, textured);
    }
    current_arg()
}

fn combined(textured: bool, c: Combiner) -> Expression
    ensures { result ≡ combined textured c }
{
    Expression {
        op: Op::from(c.op),
        arg1: arg_of(c.arg1, textured),
        arg2: arg_of(c.arg2, textured),
        arg0: arg0_of(textured, c),
    }
}

#[tactic(auto, unfolding(crate::specs::Stages::expression_of))]
fn expression_of(textured: bool, c: Combiner) -> Expression
    ensures { result ≡ expression_of textured c }
{
    if falls_back(textured, c) {
        return fallback();
    }
    combined(textured, c)
}

#[tactic(auto, unfolding(crate::specs::Stages::alpha_of, crate::specs::Stages::expression_of))]
fn alpha_of(s: Stage) -> Alpha
    ensures { result ≡ alpha_of s }
{
    let t = textured(s);
    let a = s.alpha;
    if alpha_from_colour(s) {
        return Alpha::FromColour;
    }
    if a.op == D3DTOP_DISABLE || (is_bump_op(a.op) && !falls_back(t, a)) {
        return Alpha::Kept;
    }
    Alpha::Written(expression_of(t, a))
}

// A bump stage writes none.
#[tactic(auto, unfolding(crate::specs::Stages::decode))]
pub fn decode(s: Stage) -> Option<Expressions>
    ensures { result ≡ decode s }
{
    if is_bump(s) {
        return None;
    }
    Some(Expressions {
        colour: expression_of(textured(s), s.colour),
        alpha: alpha_of(s),
    })
}
