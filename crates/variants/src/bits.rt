//! The bits of masks and flags, and the tests of a variant's modes.
ghost use Rattle.std.specs.Prelude.{◌≡◌};
ghost use Rattle.combiners.specs.Codes.{bit};
ghost use Rattle.shader.specs.Output.{fogged, tested};
ghost use Rattle.variants.specs.Flags.{has};

use combiners::codes::{D3DCMP_ALWAYS, D3DFOG_NONE};
use values::Variant;

// Bit i of a mask. A mask has sixteen bits; those behind them are not set. Any byte may be asked for: a stage's number alone would ask more of callers.
pub fn bit(mask: u16, i: u8) -> bool
    ensures { result ≡ bit mask i }
{
    (i as u32) < u16::BITS && (mask >> i) % 2 == 1
}

// The flags of a variant, each with its bit.
#[derive(Clone, Copy)]
pub enum Flag {
    FlatShade = 0,
    SrgbWrite = 1,
    SampleMask = 2,
    PointSprite = 3,
    LodBias = 4,
    FogSourceW = 5,
}

pub fn has(v: Variant, f: Flag) -> bool
    ensures { result ≡ has v f }
{
    bit(v.flags as u16, f as u8)
}

pub fn fogged(v: Variant) -> bool
    ensures { result ≡ fogged v }
{
    v.fog_mode != D3DFOG_NONE || v.fog_table_mode != D3DFOG_NONE
}

// An alpha test is written. A variant without one has alpha function 0.
pub fn tested(v: Variant) -> bool
    ensures { result ≡ tested v }
{
    v.alpha_func != 0 && v.alpha_func != D3DCMP_ALWAYS
}
