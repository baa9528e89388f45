//! The reading rule: what the expressions of a stage read, by its key alone.
//!
//! A combiner and whether its stage has a texture stay two parameters, as in `keys`.
ghost use Rattle.std.specs.Prelude.{◌≡◌, Bool};
ghost use Rattle.combiners.specs.Combiners.{keeps_first, keeps_second, reads_own_texel};
ghost use Rattle.values.specs.declared.Combiner.{Combiner};
ghost use Rattle.cascade.specs.Reading.{keeps, reads_temp_by, reads_texel_by, alpha_written, some_expression, reads_temp, reads_texel, lined, luminance};

use crate::keys::{alpha_from_colour, falls_back, is_bump_op, some_selects, textured, to_temp};
use combiners::codes::*;
use combiners::ops::has_text;
use values::{Combiner, Stage};

fn keeps_first(textured: bool, op: u8) -> bool
    ensures { result ≡ keeps_first textured op }
{
    !((op == D3DTOP_SELECTARG2) | ((op == D3DTOP_BLENDTEXTUREALPHA) & !textured))
}

fn keeps_second(textured: bool, op: u8) -> bool
    ensures { result ≡ keeps_second textured op }
{
    has_text(op) & (op != D3DTOP_SELECTARG1)
}

#[tactic(auto, unfolding(crate::specs::Reading::keeps))]
fn keeps(selector: u8, textured: bool, c: Combiner) -> bool
    ensures { result ≡ keeps selector textured c }
{
    some_selects(
        selector,
        c,
        keeps_first(textured, c.op),
        keeps_second(textured, c.op),
    )
}

fn reads_own_texel(textured: bool, op: u8) -> bool
    ensures { result ≡ reads_own_texel textured op }
{
    textured & ((op == D3DTOP_BLENDTEXTUREALPHA) | (op == D3DTOP_BLENDTEXTUREALPHAPM))
}

fn reads_temp_by(textured: bool, c: Combiner) -> bool
    ensures { result ≡ reads_temp_by textured c }
{
    keeps(D3DTA_TEMP, textured, c) && !falls_back(textured, c)
}

fn reads_texel_by(textured: bool, c: Combiner) -> bool
    ensures { result ≡ reads_texel_by textured c }
{
    (keeps(D3DTA_TEXTURE, textured, c) | reads_own_texel(textured, c.op))
        && !falls_back(textured, c)
}

#[tactic(auto, unfolding(crate::specs::Reading::alpha_written))]
pub(crate) fn alpha_written(s: Stage) -> bool
    ensures { result ≡ alpha_written s }
{
    let computed = falls_back(textured(s), s.alpha) | !is_bump_op(s.alpha.op);
    !alpha_from_colour(s) & ((s.alpha.op != D3DTOP_DISABLE) & computed)
}

// Colour's expression reads it, or alpha's where there is one.
fn some_expression<F: Fn(bool, Combiner) -> bool>(s: Stage, reads: F) -> bool
    requires { F.IsAlwaysCallable reads }
    ensures { (by : Bool → Combiner → Bool)
        → ((t : Bool) (c : Combiner) (r : Bool) → F.post reads t c r → r ≡ by t c)
        → result ≡ some_expression by s }
{
    let t = textured(s);
    reads(t, s.colour) || (reads(t, s.alpha) && alpha_written(s))
}

#[tactic(auto, unfolding(crate::specs::Reading::reads_temp))]
pub(crate) fn reads_temp(s: Stage) -> bool
    ensures { result ≡ reads_temp s }
{
    some_expression(s, reads_temp_by)
}

#[tactic(auto, unfolding(crate::specs::Reading::reads_texel))]
pub(crate) fn reads_texel(s: Stage) -> bool
    ensures { result ≡ reads_texel s }
{
    some_expression(s, reads_texel_by)
}

#[tactic(auto, unfolding(crate::specs::Reading::lined))]
pub fn is_lined(alive: bool, s: Stage) -> bool
    ensures { result ≡ lined alive s }
{
    !(to_temp(s) & !alive)
}

pub fn is_luminance(s: Stage) -> bool
    ensures { result ≡ luminance s }
{
    s.colour.op == D3DTOP_BUMPENVMAPLUMINANCE
}
