//! The program: records from standard input, and the texts that they ask for.
#![tactic(auto)]

ghost use Rattle.std.specs.Prelude.{◌≤◌, IfOk, length};
ghost use Rattle.std.specs.Io.{ReadsAtMost};

use printout::lines::{LINE_LENGTH, put_refused_line};
use printout::{INPUT_LENGTH, TEXT_LENGTH, print_through};
use std::io;
use std::io::{ErrorKind, Read, Write};
use values::Refusal;

// Why an input cannot be taken.
#[derive(Clone, Copy)]
enum Untaken {
    // There is more of it than the buffer takes.
    TooLong,
    // A read failed.
    Failed,
}

impl From<io::Error> for Untaken {
    fn from(_e: io::Error) -> Untaken {
        Untaken::Failed
    }
}

// How often an interrupted read is tried again. Nothing guarantees that interrupts stop, and a proved loop has to end.
const MOST_TRIES: usize = 1000000;

// What a read into the front of a buffer answers. A read that a signal interrupted is tried again.
fn read_some<R: Read>(from: &mut R, buf: &mut [u8]) -> io::Result<usize>
    ensures { ReadsAtMost result buf.new }
{
    for _ in 0..MOST_TRIES {
        match from.read(buf) {
            Err(e) if e.kind() == ErrorKind::Interrupted => {}
            answer => return answer,
        }
    }
    Err(io::Error::from(ErrorKind::Interrupted))
}

// The input to its end. One read may bring fewer bytes than there are, and only a read behind a full buffer tells whether the input ends there. The
// loop counts, since `read_exact` does not tell how many bytes came before the end, and `read_to_end` takes a Vec.
fn read_input<'a, R: Read>(from: &mut R, buffer: &'a mut [u8]) -> Result<&'a [u8], Untaken>
    ensures { IfOk result (λ input. length input.now ≤ length buffer.old) }
{
    let mut n = 0;
    while n < buffer.len() {
        let more = read_some(from, &mut buffer[n..])?;
        if more == 0 {
            return Ok(&buffer[..n]);
        }
        n += more;
    }
    if read_some(from, &mut [0u8; 1])? == 0 {
        Ok(buffer)
    } else {
        Err(Untaken::TooLong)
    }
}

fn print_too_long<W: Write>(to: &mut W, line: &mut [u8; LINE_LENGTH]) -> io::Result<()> {
    let n = put_refused_line(line, Refusal::InputTooLong, INPUT_LENGTH);
    to.write_all(&line[..n])
}

fn main(rt: HostRuntime) {
    let mut buffer = [0u8; INPUT_LENGTH];
    let mut line = [0u8; LINE_LENGTH];
    let mut text = [0u8; TEXT_LENGTH];
    let mut to = rt.stdout();
    // The first write that fails is the last.
    let written = match read_input(&mut rt.stdin(), &mut buffer) {
        Ok(input) => print_through(input, &mut line, &mut text, &mut |part| to.write_all(part)),
        Err(Untaken::TooLong) => print_too_long(&mut to, &mut line),
        Err(Untaken::Failed) => {
            let _ = eprintln!(rt; "standard input cannot be read");
            return;
        }
    };
    if written.is_err() {
        let _ = eprintln!(rt; "standard output cannot be written");
    }
}
