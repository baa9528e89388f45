//! An entry looked over in one pass, a byte of its body at a time.
ghost use Rattle.std.specs.Prelude.{◌≡◌};
ghost use Rattle.values.specs.Entries.{entry_good};
ghost use Rattle.admission.specs.Pass.{possible_in, right, started, pass_stepped};

use crate::{continues_name, starts_name};
use std::hint::select_unpredictable;
use values::{Entry, NAME_LENGTH};

const NAME_BYTES: u8 = NAME_LENGTH as u8;

// Where a pass over an entry's body stands: how many bytes were taken, the length byte, and 1 once a byte was wrong. Callers keep the three numbers
// between steps, and may hand in any: so `wrong` is a number too, and what it was is what a right byte leaves.
#[derive(Clone, Copy, Default)]
pub struct Pass {
    pub taken: u8,
    pub length: u8,
    pub wrong: u8,
}

impl Pass {
    // Before the first byte.
    pub fn new() -> Pass
        ensures { result ≡ started }
    {
        Pass::default()
    }

    // Behind one byte more.
    pub fn step(self, byte: u8) -> Pass
        ensures { result ≡ pass_stepped self byte }
    {
        let right = right_at(self.taken, self.length, byte);
        Pass {
            taken: self.taken.wrapping_add(1),
            length: select_unpredictable(self.taken == 0, byte, self.length),
            wrong: select_unpredictable(right, self.wrong, 1),
        }
    }

    // Whether some body that begins with the bytes taken is an entry's.
    pub fn is_possible(self) -> bool
        ensures { result ≡ possible_in self }
    {
        self.wrong == 0
    }
}

// Whether a byte may stand at a place of a body, told without a branch.
fn right_at(at: u8, length: u8, c: u8) -> bool
    ensures { result ≡ right at length c }
{
    let name = (at == 1) & starts_name(c)
        | (at != 1)
            & ((at <= length) & continues_name(c)
                | !(at <= length) & ((at <= NAME_BYTES) & (c == 0)));
    (at == 0) & ((1 <= c) & (c <= NAME_BYTES)) | (at != 0) & name
}

// Whether a byte was wrong is kept beside the state, so that no step waits for the one before it and the 32 bytes of a name are tested together.
pub(crate) fn entry_good(entry: Entry) -> bool
    ensures { result ≡ entry_good entry }
{
    let mut pass = Pass::new().step(entry.len);
    let mut good = pass.is_possible();
    for byte in entry.name {
        pass = Pass { wrong: 0, ..pass }.step(byte);
        good &= pass.is_possible();
    }
    good
}
