//! The causes 3, 5, 6, 13 and 10 to 12 of a record's value, which the reader and the writer refuse alike.
ghost use Rattle.std.specs.Prelude.{◌≡◌};
ghost use Rattle.wire.specs.Causes.{checked_record};

use crate::Record;
use admission::{check_entry, check_key, check_variant};
use states::check;
use values::Refusal;

// The record is lent, and the function is not inlined: beside the reader the compiler takes an entry's name apart byte by byte, which took 95 steps more
// for the record of an entry.
#[inline(never)]
pub(crate) fn check_record(record: &Record) -> Result<(), Refusal>
    ensures { result ≡ checked_record «record».now }
{
    match record {
        Record::Key(key) | Record::WideKey(key) => check_key(*key),
        Record::Variant(variant) => check_variant(*variant),
        Record::Entry(entry) => check_entry(*entry),
        Record::Emit => Ok(()),
        Record::State(write) => check(*write),
    }
}
