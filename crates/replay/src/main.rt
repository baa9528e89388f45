//! Replays the list of the Rust's answers, and prints which cases differ, and how many. oracle/list/README.md says how the list is laid out.
#![tactic(auto)]

ghost use Rattle.std.specs.Prelude.{◌≤◌, IfOk, length};

use printout::lines::LINE_LENGTH;
use printout::{TEXT_LENGTH, print_through};
use std::fs::File;
use std::io::Read;

// No input and no output of the list is longer.
const BLOCK_LENGTH: usize = 16384;

// More cases than the list has. A proved loop has to end, and nothing says that a file does.
const MOST_CASES: usize = 100000;

// Whether what is printed for the input is what is expected.
fn same_output(
    input: &[u8],
    expected: &[u8],
    line: &mut [u8; LINE_LENGTH],
    text: &mut [u8; TEXT_LENGTH],
) -> bool {
    let mut rest = expected;
    let compared: Result<(), ()> = print_through(
        input,
        line,
        text,
        &mut |part| {
            rest = rest.strip_prefix(part).ok_or(())?;
            Ok(())
        },
    );
    compared.is_ok() && rest.is_empty()
}

// Why a block of the list cannot be read.
#[derive(Clone, Copy)]
enum Missing {
    // The list ends in front of it.
    Ended,
    // The list ends within it, or it is longer than any.
    CutShort,
}

// Reads until the buffer is full, the input ends or a read fails: how many bytes came. `read_exact` does not tell, and tries an interrupted read again.
fn read_full<R: Read>(from: &mut R, buf: &mut [u8]) -> usize
    ensures { result ≤ length buf.new }
{
    let mut n = 0;
    while n < buf.len() {
        match from.read(&mut buf[n..]) {
            Ok(0) => return n,
            Ok(more) => n += more,
            Err(_) => return n,
        }
    }
    n
}

// A block of the list, an input or an output, which stands behind its length in four bytes.
fn read_block<'a, R: Read>(from: &mut R, buffer: &'a mut [u8]) -> Result<&'a [u8], Missing>
    ensures { IfOk result (λ block. length block.now ≤ length buffer.old) }
{
    let mut head = [0u8; 4];
    let got = read_full(from, &mut head);
    if got == 0 {
        return Err(Missing::Ended);
    }
    let length = u32::from_le_bytes(head) as usize;
    let block = buffer.get_mut(..length).ok_or(Missing::CutShort)?;
    if got < 4 || read_full(from, block) < length {
        return Err(Missing::CutShort);
    }
    Ok(block)
}

// Whether what is printed for the next case is what its list expects. A list that ends between an input and its output is cut short.
fn replay_case<R: Read>(
    from: &mut R,
    input: &mut [u8],
    output: &mut [u8],
    line: &mut [u8; LINE_LENGTH],
    text: &mut [u8; TEXT_LENGTH],
) -> Result<bool, Missing> {
    let given = read_block(from, input)?;
    let expected = read_block(from, output).map_err(|_| Missing::CutShort)?;
    Ok(same_output(given, expected, line, text))
}

// What standard output does not take is not printed.
fn tell(rt: &impl Print, case: usize) {
    let _ = println!(rt; "differs: case {case}");
}

fn report(rt: &impl Print, cases: usize, differences: usize) {
    let _ = println!(rt; "{cases} cases, {differences} differences");
}

// A list that is cut short differs there.
fn replay<R: Read>(rt: &impl Print, from: &mut R) {
    let mut input = [0u8; BLOCK_LENGTH];
    let mut output = [0u8; BLOCK_LENGTH];
    let mut line = [0u8; LINE_LENGTH];
    let mut text = [0u8; TEXT_LENGTH];
    let mut differences = 0;
    for case in 0..MOST_CASES {
        match replay_case(from, &mut input, &mut output, &mut line, &mut text) {
            Ok(true) => {}
            Ok(false) => {
                tell(rt, case);
                differences += 1;
            }
            Err(Missing::Ended) => {
                report(rt, case, differences);
                return;
            }
            Err(Missing::CutShort) => {
                tell(rt, case);
                report(rt, case, differences + 1);
                return;
            }
        }
    }
    report(rt, MOST_CASES, differences);
}

fn main(rt: HostRuntime) {
    match File::open(&rt, "answers.bin") {
        Ok(mut from) => replay(&rt, &mut from),
        Err(e) => {
            let _ = eprintln!(rt; "answers.bin: {e}");
        }
    }
}
