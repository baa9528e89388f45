//! Text that names a stage.
ghost use Rattle.text.specs.Marks.{numbered};
ghost use Rattle.text.specs.Buffer.{Placed};

use crate::StageIndex;
use text::put_numbered;

// The bytes of s, with the number of stage i for each mark.
pub fn put_staged(out: &mut [u8], at: usize, s: &[u8], i: StageIndex) -> usize
    ensures { Placed out.old at out.new result (numbered i s.now) }
{
    put_numbered(out, at, s, i.number())
}
