//! A state write done to the held key, which is the front of the held bytes.
ghost use Rattle.std.specs.Prelude.{◌≡◌, true, not, ◌&&◌, ◌||◌, is_some};
ghost use Rattle.std.proofs.lemmas.List.Edits.{sets};
ghost use Rattle.records.specs.Applying.{key_or_defaults};
ghost use Rattle.states.specs.Types.{sets_arg0};
ghost use Rattle.states.specs.Writes.{accepted};
ghost use Rattle.yuzuknoll.specs.Applying.{altered_record, held_of, held_wide};

use crate::parts::{HELD_LENGTH, KEY_PLACE, VARIANT_PLACE, held_key, holds_key, is_wide};
use states::{defaults, set, sets_arg0};
use values::{Key, StateWrite};
use wire::alter::alter;
use wire::key_record;
use wire::writer::write;

// A key is held, and a write of this type leaves its kind. Such a write changes one stage of the held key and no other byte.
fn alters_there(held: &[u8; HELD_LENGTH], state: u8) -> bool
    ensures { result ≡ (is_some (held_of held.now).key && (held_wide held.now || not (sets_arg0 state))) }
{
    holds_key(held) & (is_wide(held) | !sets_arg0(state))
}

// The key that a state write alters.
fn key_or_defaults(held: &[u8; HELD_LENGTH]) -> Key
    ensures { result ≡ key_or_defaults (held_of held.now) }
{
    held_key(held).unwrap_or_else(defaults)
}

// A write that leaves the kind of a held key is done where the key lies. Any other leaves the record of the altered key, for which the held bytes have room.
#[tactic(auto, using(crate::proofs::Altering::alterable, crate::proofs::Altering::altered_there, crate::proofs::Altering::key_rewritten))]
pub(crate) fn alter_held(held: &mut [u8; HELD_LENGTH], made: StateWrite)
    requires { accepted made ≡ true }
    ensures { held.new ≡ sets held.old 0 (altered_record made held.old) }
{
    if alters_there(held, made.state) {
        let wide = is_wide(held);
        alter(&mut held[KEY_PLACE + 1..VARIANT_PLACE], wide, made);
        return;
    }
    let after = set(key_or_defaults(held), made);
    let _ = write(key_record(after), held);
}
