//! What an operation and an argument warn of.
ghost use Rattle.std.specs.Prelude.{◌≡◌};
ghost use Rattle.combiners.specs.Warnings.{without_text, unknown_selector, unknown_modifier};

use crate::codes::*;
use crate::ops::has_text;

// An argument from here on has a modifier bit above D3DTA_ALPHAREPLICATE, which means nothing.
pub const UNKNOWN_MODIFIERS: u8 = 0x40;

pub fn without_text(op: u8) -> bool
    ensures { result ≡ without_text op }
{
    !has_text(op)
}

pub fn unknown_selector(arg: u8) -> bool
    ensures { result ≡ unknown_selector arg }
{
    D3DTA_CONSTANT < arg % SELECTORS
}

pub fn unknown_modifier(arg: u8) -> bool
    ensures { result ≡ unknown_modifier arg }
{
    UNKNOWN_MODIFIERS <= arg
}
