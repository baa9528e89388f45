//! The program: the length of the longest text of a key of kind 1 with an entry of one byte, and the records of a key and a variant that reach it.
#![tactic(auto)]

ghost use Rattle.std.specs.Prelude.{◌≡◌};
ghost use Rattle.longest.specs.Lines.{longest_lines, Longest};

use text::put;

// The lines have 4, 118 and 40 digits, and a newline each.
const LINES_LENGTH: usize = 165;

fn put_lines(out: &mut [u8; LINES_LENGTH])
    ensures lines { out.new ≡ longest_lines }
    ensures longest { Longest out.new }
{
    let a = put(out, 0, b"6485\n");
    let b = put(
        out,
        a,
        b"01170000010000011700000100000117000001000001170000010000011700000100000117000001000001170000010000011437371832350101ff\n",
    );
    put(out, b, b"0203000301000000fe00fe0000000000fe00ff1f\n");
}

fn main(rt: HostRuntime) {
    let mut lines = [0u8; LINES_LENGTH];
    put_lines(&mut lines);
    if rt.stdout().write_all(&lines).is_err() {
        let _ = eprintln!(rt; "standard output cannot be written");
    }
}
