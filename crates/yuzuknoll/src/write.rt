//! The record at the front of some bytes, written to the front of a buffer.
ghost use Rattle.std.specs.Prelude.{◌≡◌, length};
ghost use Rattle.values.specs.Refusals.{answer_number};
ghost use Rattle.yuzuknoll.specs.Lent.{after, at_front, record_numbers};
ghost use Rattle.yuzuknoll.specs.Records.{bytes_in, copy_number, kind_in};

use crate::read::record_numbers;
use inspection::causes::record_kind;
use text::put;
use values::{Refusal, number};
use wire::record_length;

fn write(bytes: &[u8], out: &mut [u8], record: &mut [u64; 2]) -> Result<(), Refusal>
    ensures number { answer_number result ≡ copy_number bytes.now (length out.old) }
    ensures buffer { out.new ≡ after (answer_number result) (at_front (bytes_in bytes.now) out.old) out.old }
    ensures reported { «record».new ≡ after (answer_number result) (record_numbers (kind_in bytes.now)) «record».old }
{
    let kind = record_kind(bytes)?;
    let n = record_length(kind);
    if out.len() < n {
        return Err(Refusal::NoRoom);
    }
    put(out, 0, &bytes[..n]);
    *record = record_numbers(kind);
    Ok(())
}

// Writes the record at the front of bytes to the front of out, and reports its kind and length.
#[unsafe(no_mangle)]
pub extern "C" fn yuzuknoll_write(bytes: &[u8], out: &mut [u8], record: &mut [u64; 2]) -> u64
    ensures number { result ≡ copy_number bytes.now (length out.old) }
    ensures buffer { out.new ≡ after result (at_front (bytes_in bytes.now) out.old) out.old }
    ensures reported { «record».new ≡ after result (record_numbers (kind_in bytes.now)) «record».old }
{
    number(write(bytes, out, record)) as u64
}
