//! What the program prints for an input, handed out a record at a time.
#![tactic(auto)]

pub mod lines;

ghost use Rattle.std.specs.Prelude.{◌+◌, ◌<◌, ◌≤◌, ◌^◌, ◌≡◌, IfErr, None, OnOk, [], length};
ghost use Rattle.printout.specs.Giving.{Gave, GaveAll, GaveUntil, Refused};
ghost use Rattle.printout.specs.Part.{Accepts, Refuses};
ghost use Rattle.printout.specs.Program.{line_after, records_output};
ghost use Rattle.printout.specs.Steps.{begun, onwards, ready, record_step, step_of, stepped};

use lines::{LINE_LENGTH, put_emit_line, put_end_line, put_refused_line};
use records::Held;

// The most bytes of input that the program takes.
pub const INPUT_LENGTH: usize = 32768;

// The length of the buffer for text. No text is longer.
pub const TEXT_LENGTH: usize = 16384;

// The offset of the next record, the texts so far, and what is held. Neither number tells the other, since not every record asks for a text.
#[derive(Clone, Copy, Default)]
pub struct Session {
    pub at: usize,
    pub texts: usize,
    pub held: Held,
}

// What a step prints: the front of the line, then the front of the text, each of this length; and the session that prints what is behind it, if
// anything is. Tried: slices of the two buffers. Then no clause can say what the buffers hold afterwards, since a part of each is still lent out.
#[derive(Clone, Copy)]
pub struct Printing {
    pub line: usize,
    pub text: usize,
    pub next: Option<Session>,
}

// Functions and no methods of a session: each goes by the input or by lent buffers as much.
pub fn begin() -> Session
    ensures { result ≡ begun }
{
    Session::default()
}

fn last(line: usize) -> Printing
    ensures { result ≡ stepped line 0 None }
{
    Printing {
        line,
        text: 0,
        next: None,
    }
}

// The session behind a record that took so many bytes, with so many texts more.
fn on(session: Session, took: usize, texts: usize, after: Held) -> Session
    requires took_bound { session.at + took < 2 ^ 64 }
    requires texts_bound { session.texts + texts < 2 ^ 64 }
    ensures { result ≡ onwards session took texts after }
{
    Session {
        at: session.at + took,
        texts: session.texts + texts,
        held: after,
    }
}

// The record where the session stands, applied, and what is printed for it.
#[tactic(auto, using(crate::proofs::Taking::applied_fits), unfolding(crate::specs::Steps::answered_step))]
fn step_record(
    session: Session,
    input: &[u8],
    line: &mut [u8; LINE_LENGTH],
    text: &mut [u8; TEXT_LENGTH],
) -> Printing
    requires { (session.at < length input.now) × (session.texts ≤ session.at) }
    ensures answer { result ≡ (record_step session input.now text.old).answer }
    ensures line { line.new ≡ line_after (record_step session input.now text.old).line line.old }
    ensures text { text.new ≡ (record_step session input.now text.old).text }
{
    let mut held = session.held;
    match held.apply(&input[session.at..], text) {
        Err(refusal) => last(put_refused_line(line, refusal, session.at)),
        Ok(applied) => match applied.text {
            None => Printing {
                line: 0,
                text: 0,
                next: Some(on(session, applied.length, 0, held)),
            },
            Some(emitted) => Printing {
                line: put_emit_line(line, emitted),
                text: emitted.length,
                next: Some(on(session, applied.length, 1, held)),
            },
        },
    }
}

// Whether the session can belong to this input.
fn ready(session: Session, input: &[u8]) -> bool
    ensures { result ≡ ready session input.now }
{
    session.at <= input.len() && session.texts <= session.at
}

// What the session prints next for this input: for a record, or the line behind the last. A session whose offset lies beyond the input, or that
// counts more texts than bytes read, cannot belong to this input, and prints nothing.
#[tactic(auto, unfolding(crate::specs::Steps::step_of))]
pub fn step(
    session: Session,
    input: &[u8],
    line: &mut [u8; LINE_LENGTH],
    text: &mut [u8; TEXT_LENGTH],
) -> Printing
    ensures answer { result ≡ (step_of session input.now text.old).answer }
    ensures line { line.new ≡ line_after (step_of session input.now text.old).line line.old }
    ensures text { text.new ≡ (step_of session input.now text.old).text }
{
    if !ready(session, input) {
        return last(0);
    }
    if session.at == input.len() {
        return last(put_end_line(line, session.texts));
    }
    step_record(session, input, line, text)
}

// Gives a part to a closure, if there is anything in it: most steps print nothing.
fn give<E: Drop, F: FnMut(&[u8]) -> Result<(), E>>(print: &mut F, part: &[u8]) -> Result<(), E>
    requires { F.IsAlwaysCallable print.old }
    ensures callable { F.IsAlwaysCallable print.new }
    ensures accepted { OnOk result (Accepts F.FnMut print.old part.now print.new) }
    ensures refused { IfErr result (λ e. Refuses F.FnMut print.old part.now e print.new) }
{
    if part.is_empty() {
        return Ok(());
    }
    print(part)
}

// Hands what is printed for the input to a closure, the line and then the text of each step, up to the first part that it refuses. The buffers are lent: a
// caller with many inputs clears none for each of them. So is the closure, so that it is known how the last call leaves it, and that no call is behind that.
#[tactic(auto, using(crate::proofs::Loops::turn))]
pub fn print_through<E: Drop, F: FnMut(&[u8]) -> Result<(), E>>(
    input: &[u8],
    line: &mut [u8; LINE_LENGTH],
    text: &mut [u8; TEXT_LENGTH],
    print: &mut F,
) -> Result<(), E>
    requires { F.IsAlwaysCallable print.old }
    ensures accepted { OnOk result (Gave F.FnMut print.old (records_output input.now) print.new []) }
    ensures refused { IfErr result (λ e. Refused F.FnMut print.old (records_output input.now) e print.new) }
{
    let mut next = Some(begin());
    while let Some(session) = next {
        let printed = step(session, input, line, text);
        give(print, &line[..printed.line])?;
        give(print, &text[..printed.text])?;
        next = printed.next;
    }
    Ok(())
}

// The same, with buffers of its own.
pub fn print_with<E: Drop, F: FnMut(&[u8]) -> Result<(), E>>(
    input: &[u8],
    mut print: F,
) -> Result<(), E>
    requires { F.IsAlwaysCallable print }
    ensures accepted { OnOk result (GaveAll F.FnMut print (records_output input.now)) }
    ensures refused { IfErr result (λ e. GaveUntil F.FnMut print (records_output input.now) e) }
{
    let mut line = [0u8; LINE_LENGTH];
    let mut text = [0u8; TEXT_LENGTH];
    print_through(input, &mut line, &mut text, &mut print)
}
