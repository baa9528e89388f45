//! What a stage and its combiners say by themselves: textures, reads, fallback, bump, constants; and the count of active stages.
//!
//! A rule that rarely applies first asks for the rare argument. Ops and arguments stay bytes: each rule compares one with a code or two, where an enum
//! would first be made by a match of its own, and `Op::Other` is one case for ops that these rules tell apart. A combiner and whether its stage has a
//! texture stay two parameters: both combiners of a stage share the second, which a struct would hold twice. Rules of one line that differ in a constant are
//! functions of their own, each under the name of its definition.
ghost use Rattle.std.specs.Prelude.{◌≡◌, ℕ, Bool};
ghost use Rattle.cascade.specs.Keys.{textured, to_temp, active_count, reads_first, reads_second, selects, some, some_counted, reads, falls_back, is_bump_op, bump, alpha_from_colour, reads_constant, blends_by_factor, names_factor};
ghost use Rattle.cascade.specs.Walks.{Tests};

use combiners::codes::*;
use combiners::ops::three_operands;
use values::{Combiner, Key, STAGES, Stage};

// The flags of a stage.
const HAS_TEXTURE: u8 = 1;

const RESULT_TEMP: u8 = 2;

pub fn textured(s: Stage) -> bool
    ensures { result ≡ textured s }
{
    s.flags / HAS_TEXTURE % 2 == 1
}

pub fn to_temp(s: Stage) -> bool
    ensures { result ≡ to_temp s }
{
    s.flags / RESULT_TEMP % 2 == 1
}

// The active stages end before the first whose colour op is DISABLE.
pub(crate) fn active_count(k: Key) -> usize
    ensures { result ≡ active_count k.stages }
{
    // A rule of the project keeps this form: the count is what a loop yields by break (DECISIONS, "Forms by place").
    let mut i = 0;
    let n = loop {
        if i == STAGES {
            break STAGES;
        }
        let c = k.stages[i].colour;
        if c.op == D3DTOP_DISABLE {
            break i;
        }
        i += 1;
    };
    n
}

fn reads_first(op: u8) -> bool
    ensures { result ≡ reads_first op }
{
    !((op == D3DTOP_DISABLE) | (op == D3DTOP_SELECTARG2))
}

fn reads_second(op: u8) -> bool
    ensures { result ≡ reads_second op }
{
    !((op == D3DTOP_DISABLE) | (op == D3DTOP_SELECTARG1))
}

pub(crate) fn selects(selector: u8, arg: u8) -> bool
    ensures { result ≡ selects selector arg }
{
    arg % SELECTORS == selector
}

// Some argument that counts passes the test: the first and the second where the caller says so, and argument 0 of an op that has one.
pub(crate) fn some_counted<F: Fn(u8) -> bool>(
    c: Combiner,
    first: bool,
    second: bool,
    test: F,
) -> bool
    requires { F.IsAlwaysCallable test }
    ensures { (p : ℕ → Bool) → Tests (F.post test) p → result ≡ some_counted p first second c }
{
    (first & test(c.arg1)) | ((second & test(c.arg2)) | (three_operands(c.op) & test(c.arg0)))
}

pub(crate) fn some<F: Fn(u8) -> bool>(c: Combiner, test: F) -> bool
    requires { F.IsAlwaysCallable test }
    ensures { (p : ℕ → Bool) → Tests (F.post test) p → result ≡ some p c }
{
    some_counted(c, true, true, test)
}

// Some argument that counts selects the source. Few do, so all are asked first.
pub(crate) fn some_selects(selector: u8, c: Combiner, first: bool, second: bool) -> bool
    ensures { result ≡ some_counted (selects selector) first second c }
{
    let selected = |arg| selects(selector, arg);
    some(c, selected) && some_counted(c, first, second, selected)
}

#[tactic(auto, unfolding(crate::specs::Keys::reads))]
fn reads(selector: u8, c: Combiner) -> bool
    ensures { result ≡ reads selector c }
{
    some_selects(selector, c, reads_first(c.op), reads_second(c.op))
}

#[tactic(auto, unfolding(crate::specs::Keys::falls_back))]
pub(crate) fn falls_back(textured: bool, c: Combiner) -> bool
    ensures { result ≡ falls_back textured c }
{
    !textured && reads(D3DTA_TEXTURE, c)
}

pub(crate) fn is_bump_op(op: u8) -> bool
    ensures { result ≡ is_bump_op op }
{
    (op == D3DTOP_BUMPENVMAP) | (op == D3DTOP_BUMPENVMAPLUMINANCE)
}

#[tactic(auto, unfolding(crate::specs::Keys::bump))]
pub fn is_bump(s: Stage) -> bool
    ensures { result ≡ bump s }
{
    is_bump_op(s.colour.op) && !falls_back(textured(s), s.colour)
}

#[tactic(auto, unfolding(crate::specs::Keys::alpha_from_colour))]
pub(crate) fn alpha_from_colour(s: Stage) -> bool
    ensures { result ≡ alpha_from_colour s }
{
    s.colour.op == D3DTOP_DOTPRODUCT3 && !falls_back(textured(s), s.colour)
}

#[tactic(auto, unfolding(crate::specs::Keys::reads_constant))]
pub(crate) fn reads_constant(s: Stage) -> bool
    ensures { result ≡ reads_constant s }
{
    let t = textured(s);
    (reads(D3DTA_CONSTANT, s.colour) && !falls_back(t, s.colour))
        || (reads(D3DTA_CONSTANT, s.alpha) && !alpha_from_colour(s) && !falls_back(t, s.alpha))
}

pub(crate) fn blends_by_factor(s: Stage) -> bool
    ensures { result ≡ blends_by_factor s }
{
    (s.colour.op == D3DTOP_BLENDFACTORALPHA) | (s.alpha.op == D3DTOP_BLENDFACTORALPHA)
}

#[tactic(auto, unfolding(crate::specs::Keys::names_factor))]
pub(crate) fn names_factor(s: Stage) -> bool
    ensures { result ≡ names_factor s }
{
    let factor = |arg| selects(D3DTA_TFACTOR, arg);
    blends_by_factor(s)
        | (some(s.colour, factor) | ((s.alpha.op != D3DTOP_DISABLE) & some(s.alpha, factor)))
}
