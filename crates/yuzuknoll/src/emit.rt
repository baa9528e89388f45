//! Emission from the bodies of a key, a variant and an entry. The C interface lends the text and its result apart.
ghost use Rattle.std.specs.Prelude.{◌≤◌, ◌≡◌, false, true, length};
ghost use Rattle.values.specs.Refusals.{answer_number};
ghost use Rattle.cascade.specs.Effective.{effective};
ghost use Rattle.shader.specs.Results.{emission_number, emitted_of, text_of};
ghost use Rattle.wire.specs.Bodies.{body_length, key_from_body, key_kind};
ghost use Rattle.wire.specs.Reading.{body_number};
ghost use Rattle.yuzuknoll.specs.Lent.{ReportedDemands, after, at_front, first_of, result_numbers};
ghost use Rattle.yuzuknoll.specs.Emitting.{bodies_number, bodies_result, bodies_text, key_read};

use cascade::effective::effective;
use emission::emittable::Emittable;
use inspection::causes::{entry_cause, key_cause, variant_cause};
use inspection::keys::{any_byte_of_three, raw_key};
use values::{Emitted, Entry, Key, Refusal, Variant, number};
use wire::reader::{entry_from_body, key_from_body, variant_from_body};
use wire::{ENTRY_BODY, KEY_BODY, Kind, VARIANT_BODY, WIDE_KEY_BODY};

// Length, mask, rows, lookups, and the four warnings.
pub(crate) const RESULT_LENGTH: usize = 8;

fn report(emitted: Emitted, res: &mut [u64; RESULT_LENGTH])
    ensures { res.new ≡ result_numbers emitted }
{
    *res = [
        emitted.length as u64,
        emitted.mask as u64,
        emitted.rows as u64,
        emitted.lookups as u64,
        emitted.warnings.op as u64,
        emitted.warnings.selector as u64,
        emitted.warnings.modifier as u64,
        emitted.alpha_warning as u64,
    ];
}

// Writes the text of values to the front of text, and what emission reports of it to res.
pub(crate) fn emit_values(
    values: &Emittable,
    text: &mut [u8],
    res: &mut [u64; RESULT_LENGTH],
) -> Result<(), Refusal>
    ensures number { answer_number result ≡ emission_number values.now.key.now values.now.variant.now values.now.entry.now (length text.old) }
    ensures text { text.new
        ≡ after (answer_number result) (at_front (text_of values.now.key.now values.now.variant.now values.now.entry.now) text.old) text.old }
    ensures res { res.new
        ≡ after (answer_number result) (result_numbers (emitted_of values.now.key.now values.now.variant.now values.now.entry.now)) res.old }
    ensures names { answer_number result ≡ 0 → ReportedDemands values.now.key.now text.new res.new }
{
    let emitted = values.emit(text)?;
    report(emitted, res);
    Ok(())
}

// The key of a body as it is emitted where no op has three operands.
pub(crate) fn read_key<const WIDE: bool>(body: &[u8]) -> Key
    requires { body_length (key_kind WIDE) ≤ length body.now }
    ensures { result ≡ key_read WIDE body.now }
{
    if WIDE {
        key_from_body::<true>(body)
    } else {
        raw_key(body)
    }
}

// The key of a body of kind 1 as it is emitted where ops may have three operands. It is a function of its own because few keys have, and what the others
// need is quicker without it.
pub(crate) fn rewrite_key(key: &mut Key, body: &[u8])
    requires { body_length Kind.Key ≤ length body.now }
    ensures { key.new ≡ effective (key_from_body false body.now) }
{
    *key = effective(key_from_body::<false>(body));
}

// The first cause of three bodies: the key's, then the variant's and the entry's.
fn bodies_cause<const WIDE: bool>(
    key: &[u8],
    variant: &[u8; VARIANT_BODY],
    entry: &[u8; ENTRY_BODY],
) -> Result<(), Refusal>
    requires { body_length (key_kind WIDE) ≤ length key.now }
    ensures { answer_number result
        ≡ first_of (body_number (key_kind WIDE) key.now) (first_of (body_number Kind.Variant variant.now) (body_number Kind.Entry entry.now)) }
{
    key_cause::<WIDE>(key)?;
    variant_cause(variant)?;
    entry_cause(entry)
}

// From three bodies. The key's is a slice, here and above: no const argument is computed, so an array of its length has no name. The key is read first: its
// bytes are stored a few at a time, and whoever copies it whole right behind that waits for them.
fn emit_bodies<const WIDE: bool>(
    key: &[u8],
    variant: &[u8; VARIANT_BODY],
    entry: &[u8; ENTRY_BODY],
    text: &mut [u8],
    res: &mut [u64; RESULT_LENGTH],
) -> Result<(), Refusal>
    requires { body_length (key_kind WIDE) ≤ length key.now }
    ensures number { answer_number result ≡ bodies_number WIDE key.now variant.now entry.now (length text.old) }
    ensures text { text.new
        ≡ after (answer_number result) (at_front (bodies_text WIDE key.now variant.now entry.now) text.old) text.old }
    ensures res { res.new ≡ after (answer_number result) (bodies_result WIDE key.now variant.now entry.now) res.old }
    ensures names { answer_number result ≡ 0 → ReportedDemands (key_from_body WIDE key.now) text.new res.new }
{
    let mut k = read_key::<WIDE>(key);
    bodies_cause::<WIDE>(key, variant, entry)?;
    let v = variant_from_body(variant);
    let e = entry_from_body(entry);
    if !WIDE && any_byte_of_three(key) {
        rewrite_key(&mut k, key);
    }
    let values = Emittable {
        key: &k,
        variant: &v,
        entry: &e,
    };
    emit_values(&values, text, res)
}

// Writes the text of a key, a variant and an entry to the front of text, and its length, mask, rows, lookups and warnings to result.
#[unsafe(no_mangle)]
pub extern "C" fn yuzuknoll_emit(
    key: &[u8; KEY_BODY],
    variant: &[u8; VARIANT_BODY],
    entry: &[u8; ENTRY_BODY],
    text: &mut [u8],
    res: &mut [u64; RESULT_LENGTH],
) -> u64
    ensures number { result ≡ bodies_number false key.now variant.now entry.now (length text.old) }
    ensures text { text.new
        ≡ after result (at_front (bodies_text false key.now variant.now entry.now) text.old) text.old }
    ensures res { res.new ≡ after result (bodies_result false key.now variant.now entry.now) res.old }
    ensures names { result ≡ 0 → ReportedDemands (key_from_body false key.now) text.new res.new }
{
    number(emit_bodies::<false>(key, variant, entry, text, res)) as u64
}

// The same of a wide key.
#[unsafe(no_mangle)]
pub extern "C" fn yuzuknoll_emit_wide(
    key: &[u8; WIDE_KEY_BODY],
    variant: &[u8; VARIANT_BODY],
    entry: &[u8; ENTRY_BODY],
    text: &mut [u8],
    res: &mut [u64; RESULT_LENGTH],
) -> u64
    ensures number { result ≡ bodies_number true key.now variant.now entry.now (length text.old) }
    ensures text { text.new
        ≡ after result (at_front (bodies_text true key.now variant.now entry.now) text.old) text.old }
    ensures res { res.new ≡ after result (bodies_result true key.now variant.now entry.now) res.old }
    ensures names { result ≡ 0 → ReportedDemands (key_from_body true key.now) text.new res.new }
{
    number(emit_bodies::<true>(key, variant, entry, text, res)) as u64
}
