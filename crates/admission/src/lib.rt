//! The causes for which values are refused: stage flags, variant flags, the entry.
#![tactic(auto)]

mod entry;
mod words;

ghost use Rattle.std.specs.Prelude.{◌≡◌};
ghost use Rattle.values.specs.Checks.{checked_entry, checked_key, checked_values, checked_variant};
ghost use Rattle.values.specs.Flags.{stage_flags_bad};
ghost use Rattle.values.specs.Entries.{continues_name, starts_name};

pub use entry::Pass;
use entry::entry_good;
use values::{Entry, Key, Refusal, Stage, Variant};
pub use words::entry_reserved;

// The lowest flag bit without a meaning: bit 2 of a stage, bit 6 of a variant.
pub const UNUSED_STAGE_FLAG: u8 = 4;

pub const UNUSED_VARIANT_FLAG: u8 = 64;

fn stage_flags_bad(stages: &[Stage; 8]) -> bool
    ensures { result ≡ stage_flags_bad stages.now }
{
    stages.iter().any(|stage| UNUSED_STAGE_FLAG <= stage.flags)
}

pub fn check_key(key: Key) -> Result<(), Refusal>
    ensures { result ≡ checked_key key }
{
    if stage_flags_bad(&key.stages) {
        return Err(Refusal::StageFlags);
    }
    Ok(())
}

pub fn check_variant(variant: Variant) -> Result<(), Refusal>
    ensures { result ≡ checked_variant variant }
{
    if UNUSED_VARIANT_FLAG <= variant.flags {
        return Err(Refusal::VariantFlags);
    }
    Ok(())
}

pub fn check_entry(entry: Entry) -> Result<(), Refusal>
    ensures { result ≡ checked_entry entry }
{
    if !entry_good(entry) {
        return Err(Refusal::EntryName);
    }
    if entry_reserved(entry) {
        return Err(Refusal::ReservedWord);
    }
    Ok(())
}

// The first cause of a key, a variant and an entry.
pub fn check_values(key: Key, variant: Variant, entry: Entry) -> Result<(), Refusal>
    ensures { result ≡ checked_values key variant entry }
{
    check_key(key)?;
    check_variant(variant)?;
    check_entry(entry)
}

fn starts_name(c: u8) -> bool
    ensures { result ≡ starts_name c }
{
    c.is_ascii_alphabetic() | (c == b'_')
}

fn continues_name(c: u8) -> bool
    ensures { result ≡ continues_name c }
{
    starts_name(c) | c.is_ascii_digit()
}
