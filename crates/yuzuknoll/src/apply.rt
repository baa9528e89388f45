//! The record at the front of some bytes, applied to the held key, variant and entry, which the caller keeps as the bytes of their records.
ghost use Rattle.std.specs.Prelude.{◌+◌, ◌≤◌, ◌≡◌, ◌++◌, drop, length, take};
ghost use Rattle.std.proofs.lemmas.List.Edits.{sets};
ghost use Rattle.records.specs.Applying.{applied_number, emit_number};
ghost use Rattle.values.specs.Refusals.{answer_number};
ghost use Rattle.wire.specs.Bodies.{record_length};
ghost use Rattle.wire.specs.Reading.{record_number};
ghost use Rattle.yuzuknoll.specs.Lent.{after, record_numbers};
ghost use Rattle.yuzuknoll.specs.Records.{kind_in};
ghost use Rattle.yuzuknoll.specs.Applying.{HeldReported, applied_numbers, held_length, held_of, held_with, no_result, on_emit, place_of};
ghost use Rattle.yuzuknoll.specs.Applying.{result_with, text_with};

use crate::alter::alter_held;
use crate::emit::{RESULT_LENGTH, emit_values, read_key, rewrite_key};
use crate::parts::{HELD_LENGTH, entry_in, holds_all, is_wide, key_body, place_of, variant_in};
use crate::read::record_numbers;
use emission::emittable::Emittable;
use inspection::causes::record_kind;
use inspection::keys::any_byte_of_three;
use text::put;
use values::{Refusal, number};
use wire::reader::state_from_body;
use wire::{Kind, record_length};

// A record's kind and length, and a result.
const APPLIED_LENGTH: usize = 10;

// Emission from the held values. A key of kind 1 is read first, as in yuzuknoll_emit, which is one function for each kind: here a byte tells the kind, so the
// two are not one.
fn emit_held(
    held: &[u8; HELD_LENGTH],
    text: &mut [u8],
    res: &mut [u64; RESULT_LENGTH],
) -> Result<(), Refusal>
    ensures number { answer_number result ≡ emit_number (held_of held.now) (length text.old) }
    ensures text { text.new ≡ after (answer_number result) (text_with Kind.Emit (held_of held.now) text.old) text.old }
    ensures res { res.new ≡ after (answer_number result) (result_with Kind.Emit (held_of held.now)) res.old }
    ensures names { answer_number result ≡ 0 → HeldReported (held_of held.now) text.new res.new }
{
    let body = key_body(held);
    let mut key = read_key::<false>(body);
    if !holds_all(held) {
        return Err(Refusal::EmitTooEarly);
    }
    let variant = variant_in(held);
    let entry = entry_in(held);
    if is_wide(held) {
        key = read_key::<true>(body);
    } else if any_byte_of_three(body) {
        rewrite_key(&mut key, body);
    }
    let values = Emittable {
        key: &key,
        variant: &variant,
        entry: &entry,
    };
    emit_values(&values, text, res)
}

// A value's record, over its part of the held bytes.
fn keep_record(kind: Kind, bytes: &[u8], held: &mut [u8; HELD_LENGTH])
    requires { (place_of kind + record_length kind ≤ held_length) × (record_length kind ≤ length bytes.now) }
    ensures { held.new ≡ sets held.old (place_of kind) (take (record_length kind) bytes.now) }
{
    let n = record_length(kind);
    put(held, place_of(kind), &bytes[..n]);
}

// Does what an accepted record of a kind says. A text's result goes to res.
fn do_record(
    kind: Kind,
    held: &mut [u8; HELD_LENGTH],
    bytes: &[u8],
    text: &mut [u8],
    res: &mut [u64; RESULT_LENGTH],
) -> Result<(), Refusal>
    requires number { record_number bytes.now ≡ 0 }
    requires kind { kind ≡ kind_in bytes.now }
    requires res { res.old ≡ no_result }
    ensures number { answer_number result ≡ on_emit kind (emit_number (held_of held.old) (length text.old)) 0 }
    ensures held { held.new ≡ after (answer_number result) (held_with kind bytes.now held.old) held.old }
    ensures text { text.new ≡ after (answer_number result) (text_with kind (held_of held.old) text.old) text.old }
    ensures res { res.new ≡ after (answer_number result) (result_with kind (held_of held.old)) no_result }
    ensures names { answer_number result ≡ 0 → kind ≡ Kind.Emit → HeldReported (held_of held.old) text.new res.new }
{
    match kind {
        Kind::Emit => return emit_held(held, text, res),
        Kind::State => alter_held(held, state_from_body(&bytes[1..])),
        _ => keep_record(kind, bytes, held),
    }
    Ok(())
}

fn report_applied(kind: Kind, res: &[u64; RESULT_LENGTH], applied: &mut [u64; APPLIED_LENGTH])
    ensures { applied.new ≡ record_numbers kind ++ res.now }
{
    applied[..2].copy_from_slice(&record_numbers(kind));
    applied[2..].copy_from_slice(res);
}

fn apply(
    held: &mut [u8; HELD_LENGTH],
    bytes: &[u8],
    text: &mut [u8],
    applied: &mut [u64; APPLIED_LENGTH],
) -> Result<(), Refusal>
    ensures number { answer_number result ≡ applied_number (held_of held.old) bytes.now (length text.old) }
    ensures held { held.new ≡ after (answer_number result) (held_with (kind_in bytes.now) bytes.now held.old) held.old }
    ensures text { text.new ≡ after (answer_number result) (text_with (kind_in bytes.now) (held_of held.old) text.old) text.old }
    ensures applied { applied.new ≡ after (answer_number result) (applied_numbers (kind_in bytes.now) (held_of held.old)) applied.old }
    ensures names { answer_number result ≡ 0 → kind_in bytes.now ≡ Kind.Emit →
        HeldReported (held_of held.old) text.new (drop 2 applied.new) }
{
    let kind = record_kind(bytes)?;
    let mut res = [0u64; RESULT_LENGTH];
    do_record(kind, held, bytes, text, &mut res)?;
    report_applied(kind, &res, applied);
    Ok(())
}

// Applies the record at the front of bytes: it is held, or writes the text of what is held to the front of text. Reports its kind and length, and
// the text's length, mask, rows, lookups and warnings, which are 0 for a record that is held. After a state write the held key is the altered one.
#[unsafe(no_mangle)]
pub extern "C" fn yuzuknoll_apply(
    held: &mut [u8; HELD_LENGTH],
    bytes: &[u8],
    text: &mut [u8],
    applied: &mut [u64; APPLIED_LENGTH],
) -> u64
    ensures number { result ≡ applied_number (held_of held.old) bytes.now (length text.old) }
    ensures held { held.new ≡ after result (held_with (kind_in bytes.now) bytes.now held.old) held.old }
    ensures text { text.new ≡ after result (text_with (kind_in bytes.now) (held_of held.old) text.old) text.old }
    ensures applied { applied.new ≡ after result (applied_numbers (kind_in bytes.now) (held_of held.old)) applied.old }
    ensures names { result ≡ 0 → kind_in bytes.now ≡ Kind.Emit →
        HeldReported (held_of held.old) text.new (drop 2 applied.new) }
{
    number(apply(held, bytes, text, applied)) as u64
}
