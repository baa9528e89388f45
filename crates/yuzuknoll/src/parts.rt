//! The held bytes as the records of a key, a variant and an entry, each in a part of its own, and what the parts hold.
//!
//! The parts are functions of the lent array. Tried: methods of a struct that borrows it. It is no plainer, since each clause has to say `self.entry.held.now`
//! where it now says `held.now`.
ghost use Rattle.std.specs.Prelude.{◌≤◌, ◌≡◌, is_some, length};
ghost use Rattle.records.specs.Applying.{all_held};
ghost use Rattle.wire.specs.Bodies.{body_length, entry_from_body, variant_from_body};
ghost use Rattle.yuzuknoll.specs.Applying.{held_body, held_of, held_wide, is_record, place_of, room_of};

use inspection::causes::kind_cause;
use values::{Entry, Key, Variant};
use wire::reader::{entry_from_body, key_from_body, variant_from_body};
use wire::{ENTRY_BODY, KIND_WIDE_KEY, Kind, VARIANT_BODY, WIDE_KEY_BODY, key_kind};

// How many bytes the record of a key, of either kind, of a variant and of an entry has.
const KEY_ROOM: usize = 1 + WIDE_KEY_BODY;

const VARIANT_ROOM: usize = 1 + VARIANT_BODY;

const ENTRY_ROOM: usize = 1 + ENTRY_BODY;

// Where each begins.
pub(crate) const KEY_PLACE: usize = 0;

pub(crate) const VARIANT_PLACE: usize = KEY_PLACE + KEY_ROOM;

pub(crate) const ENTRY_PLACE: usize = VARIANT_PLACE + VARIANT_ROOM;

pub(crate) const HELD_LENGTH: usize = ENTRY_PLACE + ENTRY_ROOM;

// Where the part of a kind begins. A state write alters the key there. An emit record's part is empty, behind
// the others, as its definition says: an `Option` would have a case that is never looked at.
pub(crate) fn place_of(kind: Kind) -> usize
    ensures { result ≡ place_of kind }
{
    match kind {
        Kind::Key | Kind::State | Kind::WideKey => KEY_PLACE,
        Kind::Variant => VARIANT_PLACE,
        Kind::Entry => ENTRY_PLACE,
        Kind::Emit => HELD_LENGTH,
    }
}

// Whether a part, a kind byte and a body, is a good record of its kind. The body is a slice that may be longer, as in wire's reader.
fn part_held(kind: Kind, byte: u8, body: &[u8]) -> bool
    requires { body_length kind ≤ length body.now }
    ensures { result ≡ is_record kind byte body.now }
{
    (byte == u8::from(kind)) & kind_cause(kind, body).is_ok()
}

// The kind byte of the key's part tells which kind of key it may be.
pub(crate) fn is_wide(held: &[u8; HELD_LENGTH]) -> bool
    ensures { result ≡ held_wide held.now }
{
    held[KEY_PLACE] == KIND_WIDE_KEY
}

pub(crate) fn key_body(held: &[u8; HELD_LENGTH]) -> &[u8]
    ensures body { result.now ≡ held_body Kind.Key held.now }
    ensures size { length result.now ≡ room_of Kind.Key }
{
    &held[KEY_PLACE + 1..VARIANT_PLACE]
}

fn variant_body(held: &[u8; HELD_LENGTH]) -> &[u8]
    ensures body { result.now ≡ held_body Kind.Variant held.now }
    ensures size { length result.now ≡ room_of Kind.Variant }
{
    &held[VARIANT_PLACE + 1..ENTRY_PLACE]
}

fn entry_body(held: &[u8; HELD_LENGTH]) -> &[u8]
    ensures body { result.now ≡ held_body Kind.Entry held.now }
    ensures size { length result.now ≡ room_of Kind.Entry }
{
    &held[ENTRY_PLACE + 1..]
}

// What the variant's part stands for, whether it is held or not; and the entry's.
pub(crate) fn variant_in(held: &[u8; HELD_LENGTH]) -> Variant
    ensures { result ≡ variant_from_body (held_body Kind.Variant held.now) }
{
    variant_from_body(variant_body(held))
}

pub(crate) fn entry_in(held: &[u8; HELD_LENGTH]) -> Entry
    ensures { result ≡ entry_from_body (held_body Kind.Entry held.now) }
{
    entry_from_body(entry_body(held))
}

#[tactic(auto, using(crate::proofs::Applying::key_part))]
pub(crate) fn holds_key(held: &[u8; HELD_LENGTH]) -> bool
    ensures { result ≡ is_some (held_of held.now).key }
{
    part_held(key_kind(is_wide(held)), held[KEY_PLACE], key_body(held))
}

#[tactic(auto, using(crate::proofs::Applying::held_some))]
pub(crate) fn held_key(held: &[u8; HELD_LENGTH]) -> Option<Key>
    ensures { result ≡ (held_of held.now).key }
{
    if !holds_key(held) {
        return None;
    }
    let body = key_body(held);
    if is_wide(held) {
        return Some(key_from_body::<true>(body));
    }
    Some(key_from_body::<false>(body))
}

#[tactic(auto, using(crate::proofs::Applying::key_part, crate::proofs::Applying::all_good), unfolding(crate::specs::Applying::held_of))]
pub(crate) fn holds_all(held: &[u8; HELD_LENGTH]) -> bool
    ensures { result ≡ is_some (all_held (held_of held.now)) }
{
    let variant = part_held(Kind::Variant, held[VARIANT_PLACE], variant_body(held));
    let entry = part_held(Kind::Entry, held[ENTRY_PLACE], entry_body(held));
    holds_key(held) & (variant & entry)
}
