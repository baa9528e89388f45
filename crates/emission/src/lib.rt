//! Emission from values: a key, a variant and an entry to Metal text in a lent buffer.
#![tactic(auto)]

pub mod emittable;

ghost use Rattle.std.specs.Prelude.{◌≡◌, length};
ghost use Rattle.shader.specs.Results.{answer_of, buffer_after, emission_number, front_of, text_of};
ghost use Rattle.shader.specs.Demand.{Demanded};
ghost use Rattle.values.specs.Refusals.{answer_number};

use crate::emittable::Emittable;
use admission::check_values;
use cascade::effective::effective;
pub use values::{Combiner, Emitted, Entry, Key, Refusal, Stage, Variant, number};

// Writes the text of a key, a variant and an entry to the front of out; bytes behind it stay. A refusal leaves out as it was.
pub fn emit(key: Key, variant: Variant, entry: Entry, out: &mut [u8]) -> Result<Emitted, Refusal>
    ensures answer { result ≡ answer_of key variant entry (length out.old) }
    ensures buffer { out.new ≡ buffer_after result (text_of key variant entry) out.old }
    ensures names { Demanded key result out.new }
    ensures number { answer_number result ≡ emission_number key variant entry (length out.old) }
{
    check_values(key, variant, entry)?;
    let k = effective(key);
    Emittable {
        key: &k,
        variant: &variant,
        entry: &entry,
    }
    .emit(out)
}

// The written front of a buffer, for the length that emission answered; empty for a length beyond the buffer. The length stands beside the buffer by a
// rule of the project (DECISIONS, "Forms by place").
pub fn front(buf: &mut [u8], len: usize) -> &mut [u8]
    ensures bytes { result.now ≡ front_of buf.old len }
    ensures place { result.ref_ptr ≡ buf.entry.ref_ptr }
{
    if len <= buf.len() {
        &mut buf[..len]
    } else {
        &mut buf[..0]
    }
}
