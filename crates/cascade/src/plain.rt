//! Plain stages: most name neither a constant, nor the factor, nor TEMP, no selector or modifier that warns, and have no argument 0.
ghost use Rattle.std.specs.Prelude.{◌≡◌, true};
ghost use Rattle.cascade.specs.Plain.{PlainArgument, PlainCombiner, PlainStage};

use combiners::codes::*;
use combiners::ops::three_operands;
use combiners::warnings::UNKNOWN_MODIFIERS;
use values::{Combiner, Stage};

// DIFFUSE, CURRENT, TEXTURE or SPECULAR, with or without the modifiers that are known.
fn plain_argument(arg: u8) -> bool
    ensures { result ≡ true → PlainArgument arg }
{
    let selector = arg % SELECTORS;
    (arg < UNKNOWN_MODIFIERS) & ((selector <= D3DTA_SPECULAR) & (selector != D3DTA_TFACTOR))
}

fn plain_combiner(c: Combiner) -> bool
    ensures { result ≡ true → PlainCombiner c }
{
    plain_argument(c.arg1) & (plain_argument(c.arg2) & !three_operands(c.op))
}

pub(crate) fn is_plain(s: Stage) -> bool
    ensures { result ≡ true → PlainStage s }
{
    plain_combiner(s.colour) & plain_combiner(s.alpha)
}
