//! A state write done to the body of a key as it lies: the stage that it names changes, and no other byte. The body is a slice, as in the reader.
ghost use Rattle.std.specs.Prelude.{◌+◌, ◌*◌, ◌≤◌, ◌≡◌, drop, length};
ghost use Rattle.wire.specs.Bodies.{stage_from_bytes, stage_size};
ghost use Rattle.wire.specs.Altering.{Alterable, body_with};

use crate::reader::{stage_at, stage_size};
use crate::writer::put_stage;
use states::set_stage;
use values::{Stage, StateWrite};

// Does a write to the body of a key, of kind 6 if it is wide. A body of kind 1 has no arguments 0, so a write of one leaves it.
pub fn alter(body: &mut [u8], wide: bool, write: StateWrite)
    requires { Alterable wide body.old write }
    ensures { body.new ≡ body_with wide body.old write }
{
    let at = stage_size(wide) * write.stage as usize;
    let before = stage_at(body, at, wide);
    let after = set_stage(before, write.state, write.value as u8);
    put_stage(body, at, after, wide);
}
