//! What a stage warns of: an op without a text, a selector or a modifier without a meaning, where its combiners are applied.
//!
//! Few combiners give a cause, so each rule asks for the cause first. The rules stay three, since a plain stage is asked about its ops alone.
ghost use Rattle.std.specs.Prelude.{◌≡◌, Bool};
ghost use Rattle.combiners.specs.Warnings.{op_cause, selector_cause, modifier_cause};
ghost use Rattle.cascade.specs.Warnings.{applies_colour, applies_alpha};
ghost use Rattle.cascade.specs.Walks.{Tests, gives, applies, warns};
ghost use Rattle.values.specs.declared.Combiner.{Combiner};

use crate::keys::{falls_back, is_bump, some, textured};
use crate::reading::alpha_written;
use combiners::warnings::{unknown_modifier, unknown_selector, without_text};
use values::{Combiner, Stage};

#[tactic(auto, unfolding(crate::specs::Warnings::applies_colour))]
fn applies_colour(s: Stage) -> bool
    ensures { result ≡ applies_colour s }
{
    !is_bump(s) & !falls_back(textured(s), s.colour)
}

#[tactic(auto, unfolding(crate::specs::Warnings::applies_alpha))]
fn applies_alpha(s: Stage) -> bool
    ensures { result ≡ applies_alpha s }
{
    !is_bump(s) & (alpha_written(s) & !falls_back(textured(s), s.alpha))
}

// A cause that a combiner gives counts where the stage applies that combiner.
fn applies<F: Fn(Combiner) -> bool>(s: Stage, gives: F) -> bool
    requires { F.IsAlwaysCallable gives }
    ensures { (p : Combiner → Bool) → Tests (F.post gives) p → result ≡ applies p s }
{
    (gives(s.colour) && applies_colour(s)) || (gives(s.alpha) && applies_alpha(s))
}

fn selector_cause(c: Combiner) -> bool
    ensures { result ≡ gives selector_cause c }
{
    some(c, unknown_selector)
}

fn modifier_cause(c: Combiner) -> bool
    ensures { result ≡ gives modifier_cause c }
{
    some(c, unknown_modifier)
}

#[tactic(auto, unfolding(crate::specs::Walks::warns))]
pub(crate) fn warns_op(s: Stage) -> bool
    ensures { result ≡ warns op_cause s }
{
    applies(s, |c| without_text(c.op))
}

#[tactic(auto, unfolding(crate::specs::Walks::warns))]
pub(crate) fn warns_selector(s: Stage) -> bool
    ensures { result ≡ warns selector_cause s }
{
    applies(s, selector_cause)
}

#[tactic(auto, unfolding(crate::specs::Walks::warns))]
pub(crate) fn warns_modifier(s: Stage) -> bool
    ensures { result ≡ warns modifier_cause s }
{
    applies(s, modifier_cause)
}
