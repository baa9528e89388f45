//! Text written into a lent buffer.
//!
//! Each function writes at a place of the buffer and returns the place behind the last byte. A piece that does not fit is not written, and
//! the place returned is then outside the buffer, from where nothing fits any more.
//!
//! A struct of buffer and place, lent to each writer, was tried: emission of everyday keys took 14% longer, and missed its bar of an eighth.
#![tactic(auto)]

ghost use Rattle.std.specs.Prelude.{◌<◌, ◌≤◌, ◌+◌, ◌%◌, ◌≡◌, length};
ghost use Rattle.std.proofs.lemmas.List.Edits.{sets};
ghost use Rattle.text.specs.Text.{raw, pick, when, digit, decimal};
ghost use Rattle.text.specs.Marks.{filled_byte, filled, numbered};
ghost use Rattle.text.specs.Buffer.{Placed, Wrote};

// In a literal, the place of a digit.
const MARK: u8 = b'#';

// The place that is answered for a piece that does not fit, since no buffer is as long. It is no `Option`: each writer would test it behind each piece,
// where now the next piece does not fit either.
const OUTSIDE: usize = usize::MAX;

// A byte of a literal, or the digit where it is a mark.
fn filled_byte(digit: u8, b: u8) -> u8
    ensures { result ≡ filled_byte digit b }
{
    if b == MARK {
        return digit;
    }
    b
}

// The bytes of s, filled, into out from at on.
#[tactic(auto, using(crate::proofs::Copying::copying))]
fn copy(out: &mut [u8], at: usize, s: &[u8], digit: u8)
    requires { at + length s.now ≤ length out.old }
    ensures { out.new ≡ sets out.old at (filled digit s.now) }
{
    // Tried: a zip with `iter_mut` of the range. A proof knows nothing of elements that are written through an adapter of `iter_mut`.
    for (i, b) in s.iter().enumerate() {
        out[at + i] = filled_byte(digit, *b);
    }
}

// One test before the copy and none in it: where s is a literal, its length is known and the copy is a few stores of constants.
#[tactic(auto, using(crate::proofs::Copying::copying))]
fn put_filled(out: &mut [u8], at: usize, s: &[u8], digit: u8) -> usize
    ensures { Placed out.old at out.new result (raw (filled digit s.now)) }
{
    if out.len() < s.len() || out.len() - s.len() < at {
        return OUTSIDE;
    }
    copy(out, at, s, digit);
    at + s.len()
}

// The bytes of s. A mark in them stays: it is filled with itself. Bytes are copied by it too: `copy_from_slice` asks first whether the slices overlap, and took
// 26 steps more where it was tried, at the name of an entry.
#[tactic(auto, using(crate::proofs::Laws::kept_marks))]
pub fn put(out: &mut [u8], at: usize, s: &[u8]) -> usize
    ensures { Placed out.old at out.new result (raw s.now) }
{
    put_filled(out, at, s, MARK)
}

// The bytes of s, with the digit n for each mark.
pub fn put_numbered(out: &mut [u8], at: usize, s: &[u8], n: u8) -> usize
    requires { n < 10 }
    ensures { Placed out.old at out.new result (numbered n s.now) }
{
    put_filled(out, at, s, b'0' + n)
}

// The first of two literals, or the second.
pub fn put_either(out: &mut [u8], at: usize, first: bool, s: &[u8], t: &[u8]) -> usize
    ensures { Placed out.old at out.new result (pick first (raw s.now) (raw t.now)) }
{
    if first {
        put(out, at, s)
    } else {
        put(out, at, t)
    }
}

// A literal, or nothing where the test fails.
pub fn put_when(out: &mut [u8], at: usize, there: bool, s: &[u8]) -> usize
    ensures { Placed out.old at out.new result (when there (raw s.now)) }
{
    if there {
        return put(out, at, s);
    }
    at
}

// The last decimal digit of n.
pub fn put_digit(out: &mut [u8], at: usize, n: u8) -> usize
    ensures { Placed out.old at out.new result (digit (n % 10)) }
{
    put(out, at, &[b'0' + n % 10])
}

// A number in decimal.
pub fn put_decimal(out: &mut [u8], at: usize, n: usize) -> usize
    ensures { Wrote out.old at out.new result (decimal n) }
{
    if n < 10 {
        return put_digit(out, at, n as u8);
    }
    let a = put_decimal(out, at, n / 10);
    put_digit(out, a, (n % 10) as u8)
}
