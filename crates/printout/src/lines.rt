//! The lines that the program prints.
ghost use Rattle.std.specs.Prelude.{◌≡◌, length};
ghost use Rattle.text.specs.Text.{decimal};
ghost use Rattle.text.specs.Buffer.{Wrote};
ghost use Rattle.printout.specs.Program.{emit_line, end_line, line_after, refused_line};

use text::{put, put_decimal, put_either};
use values::{Emitted, Refusal};

// No line is longer.
pub const LINE_LENGTH: usize = 160;

// The numbers of a text, a space behind each, and whether its alpha warns.
pub(crate) fn put_emit_line(line: &mut [u8; LINE_LENGTH], emitted: Emitted) -> usize
    ensures length { result ≡ length (emit_line emitted) }
    ensures line { line.new ≡ line_after (emit_line emitted) line.old }
{
    let warnings = emitted.warnings;
    let numbers = [
        emitted.mask,
        emitted.rows,
        emitted.lookups,
        warnings.op,
        warnings.selector,
        warnings.modifier,
    ];
    let mut p = put(line, 0, b"emit ");
    for n in numbers {
        p = put_decimal(line, p, n as usize);
        p = put(line, p, b" ");
    }
    p = put_either(line, p, emitted.alpha_warning, b"1", b"0");
    put(line, p, b"\n")
}

pub(crate) fn put_end_line(line: &mut [u8; LINE_LENGTH], texts: usize) -> usize
    ensures length { result ≡ length (end_line texts) }
    ensures line { line.new ≡ line_after (end_line texts) line.old }
{
    let mut p = put(line, 0, b"end ");
    p = put_decimal(line, p, texts);
    put(line, p, b"\n")
}

pub fn put_refused_line(line: &mut [u8; LINE_LENGTH], refusal: Refusal, place: usize) -> usize
    ensures length { result ≡ length (refused_line refusal place) }
    ensures line { line.new ≡ line_after (refused_line refusal place) line.old }
{
    let mut p = put(line, 0, b"refused ");
    p = put_decimal(line, p, u8::from(refusal) as usize);
    p = put(line, p, b" at ");
    p = put_decimal(line, p, place);
    put(line, p, b"\n")
}
