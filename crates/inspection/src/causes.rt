//! The causes 1 to 6 and 10 to 13 of a record, found on its bytes: of a key and a variant no value is made.
//!
//! A body is a slice, for the reasons that the reader names.
ghost use Rattle.std.specs.Prelude.{◌≤◌, ◌≡◌, Err, Ok, cond, ltb, length};
ghost use Rattle.values.specs.Flags.{stage_flags_bad};
ghost use Rattle.values.specs.Refusals.{answer_number};
ghost use Rattle.wire.specs.Bodies.{body_length, key_from_body, key_kind};
ghost use Rattle.wire.specs.Reading.{number_as, read_record, record_number};
ghost use Rattle.inspection.specs.Kinds.{kind_read};

use admission::{UNUSED_STAGE_FLAG, UNUSED_VARIANT_FLAG, check_entry};
use states::check;
use values::{Refusal, STAGES};
use wire::reader::{entry_from_body, specular_at, stage_size, state_from_body};
use wire::{Kind, VARIANT_BODY, body_length, key_kind};

// Where a variant's body has its flags.
const VARIANT_FLAGS_AT: usize = VARIANT_BODY - 1;

// Whether the body of a kind is whole. Each kind asks by itself, so that one jump tells the kinds apart. The reader asks the same in a line of its own,
// behind which it goes on with the same body.
fn check_whole(kind: Kind, body: &[u8]) -> Result<(), Refusal>
    ensures { result ≡ cond (ltb (length body.now) (body_length kind)) (Err Refusal.CutShort) (Ok tt) }
{
    if body.len() < body_length(kind) {
        return Err(Refusal::CutShort);
    }
    Ok(())
}

// The flags of a stage are the last of its bytes. All eight are asked, with no branch between them; each place is told from the stage's number.
fn key_flags_bad(body: &[u8], wide: bool) -> bool
    requires { body_length (key_kind wide) ≤ length body.now }
    ensures { result ≡ stage_flags_bad (key_from_body wide body.now).stages }
{
    let size = stage_size(wide);
    let mut bad = false;
    for i in 0..STAGES {
        bad |= UNUSED_STAGE_FLAG <= body[size * i + size - 1];
    }
    bad
}

// Of a key of kind 6, if it is wide, or of kind 1.
#[tactic(auto, using(crate::proofs::Numbers::flags_refused, crate::proofs::Numbers::specular_refused, crate::proofs::Numbers::key_passed))]
pub fn key_cause<const WIDE: bool>(body: &[u8]) -> Result<(), Refusal>
    ensures { answer_number result ≡ number_as (key_kind WIDE) body.now }
{
    check_whole(key_kind(WIDE), body)?;
    if key_flags_bad(body, WIDE) {
        return Err(Refusal::StageFlags);
    }
    if 1 < body[specular_at(WIDE)] {
        return Err(Refusal::SpecularAdd);
    }
    Ok(())
}

#[tactic(auto, unfolding(wire::specs::Reading::body_number, wire::specs::Bodies::variant_from_body))]
pub fn variant_cause(body: &[u8]) -> Result<(), Refusal>
    ensures { answer_number result ≡ number_as Kind.Variant body.now }
{
    check_whole(Kind::Variant, body)?;
    if UNUSED_VARIANT_FLAG <= body[VARIANT_FLAGS_AT] {
        return Err(Refusal::VariantFlags);
    }
    Ok(())
}

#[tactic(auto, unfolding(wire::specs::Reading::body_number), using(crate::proofs::Numbers::entry_number))]
pub fn entry_cause(body: &[u8]) -> Result<(), Refusal>
    ensures { answer_number result ≡ number_as Kind.Entry body.now }
{
    check_whole(Kind::Entry, body)?;
    check_entry(entry_from_body(body))
}

#[tactic(auto, unfolding(wire::specs::Reading::body_number))]
fn state_cause(body: &[u8]) -> Result<(), Refusal>
    ensures { answer_number result ≡ number_as Kind.State body.now }
{
    check_whole(Kind::State, body)?;
    check(state_from_body(body))
}

// Of the body of a kind at the front of some bytes. Each kind has causes of its own: a table of functions would be the same match.
#[tactic(auto, unfolding(wire::specs::Reading::body_number))]
pub fn kind_cause(kind: Kind, body: &[u8]) -> Result<(), Refusal>
    ensures { answer_number result ≡ number_as kind body.now }
{
    match kind {
        Kind::Key => key_cause::<false>(body),
        Kind::Variant => variant_cause(body),
        Kind::Entry => entry_cause(body),
        Kind::Emit => Ok(()),
        Kind::State => state_cause(body),
        Kind::WideKey => key_cause::<true>(body),
    }
}

// The kind of the record at the front of some bytes, or why there is none.
#[tactic(auto, unfolding(wire::specs::Reading::record_number))]
pub fn record_kind(bytes: &[u8]) -> Result<Kind, Refusal>
    ensures kind { result ≡ kind_read (read_record bytes.now) }
    ensures number { answer_number result ≡ record_number bytes.now }
{
    let (byte, body) = bytes.split_first().ok_or(Refusal::CutShort)?;
    let kind = Kind::try_from(*byte)?;
    kind_cause(kind, body)?;
    Ok(kind)
}
