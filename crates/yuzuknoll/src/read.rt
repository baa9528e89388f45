//! The record at the front of some bytes.
ghost use Rattle.std.specs.Prelude.{◌≡◌};
ghost use Rattle.values.specs.Refusals.{answer_number};
ghost use Rattle.wire.specs.Reading.{record_number};
ghost use Rattle.yuzuknoll.specs.Lent.{after, record_numbers};
ghost use Rattle.yuzuknoll.specs.Records.{kind_in};

use inspection::causes::record_kind;
use values::{Refusal, number};
use wire::{Kind, record_length};

// A record's kind and length, as they are reported.
pub(crate) fn record_numbers(kind: Kind) -> [u64; 2]
    ensures { result ≡ record_numbers kind }
{
    [u8::from(kind) as u64, record_length(kind) as u64]
}

fn read(bytes: &[u8], record: &mut [u64; 2]) -> Result<(), Refusal>
    ensures number { answer_number result ≡ record_number bytes.now }
    ensures reported { «record».new ≡ after (answer_number result) (record_numbers (kind_in bytes.now)) «record».old }
{
    *record = record_numbers(record_kind(bytes)?);
    Ok(())
}

// Reports the kind and the length of the record at the front of bytes.
#[unsafe(no_mangle)]
pub extern "C" fn yuzuknoll_read(bytes: &[u8], record: &mut [u64; 2]) -> u64
    ensures number { result ≡ record_number bytes.now }
    ensures reported { «record».new ≡ after result (record_numbers (kind_in bytes.now)) «record».old }
{
    number(read(bytes, record)) as u64
}
