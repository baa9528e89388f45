//! Records: the bytes of keys, variants, entries, emit requests and state writes, read and written.
#![tactic(auto)]

pub use values::{Combiner, Entry, Key, Stage, StateWrite, Variant};

pub mod alter;
mod checks;
pub mod reader;
pub mod writer;

ghost use Rattle.std.specs.Prelude.{◌≡◌};
ghost use Rattle.wire.specs.Bodies.{body_length, key_kind, kind_byte, kind_of, record_length};
ghost use Rattle.wire.specs.Reading.{kind_from};
ghost use Rattle.wire.specs.Values.{key_record};

use values::Refusal;

// The kind of a record, with the byte that a record of each kind begins with.
#[derive(Clone, Copy)]
pub enum Kind {
    Key = 1,
    Variant = 2,
    Entry = 3,
    Emit = 4,
    State = 5,
    WideKey = 6,
}

// A record by value: that of its kind. A key is written in a record of either kind, whichever its own is, so both kinds have a case.
#[derive(Clone, Copy)]
pub enum Record {
    Key(Key),
    Variant(Variant),
    Entry(Entry),
    Emit,
    State(StateWrite),
    WideKey(Key),
}

// A record that was read, and how many bytes it took.
#[derive(Clone, Copy)]
pub struct Reading {
    pub record: Record,
    pub length: usize,
}

// The byte of each kind.
pub const KIND_KEY: u8 = Kind::Key as u8;

pub const KIND_VARIANT: u8 = Kind::Variant as u8;

pub const KIND_ENTRY: u8 = Kind::Entry as u8;

pub const KIND_EMIT: u8 = Kind::Emit as u8;

pub const KIND_STATE: u8 = Kind::State as u8;

pub const KIND_WIDE_KEY: u8 = Kind::WideKey as u8;

// How many bytes follow the kind byte.
pub const KEY_BODY: usize = 58;

pub const VARIANT_BODY: usize = 19;

pub const ENTRY_BODY: usize = 33;

const EMIT_BODY: usize = 0;

const STATE_BODY: usize = 6;

pub const WIDE_KEY_BODY: usize = 74;

impl From<Kind> for u8 {
    ghost from_gives = { λ kind byte. byte ≡ kind_byte kind };

    fn from(kind: Kind) -> u8 {
        kind as u8
    }
}

impl TryFrom<u8> for Kind {
    type Error = Refusal;

    ghost try_from_gives = { λ byte kind. kind ≡ kind_from byte };

    fn try_from(byte: u8) -> Result<Kind, Refusal> {
        match byte {
            KIND_KEY => Ok(Kind::Key),
            KIND_VARIANT => Ok(Kind::Variant),
            KIND_ENTRY => Ok(Kind::Entry),
            KIND_EMIT => Ok(Kind::Emit),
            KIND_STATE => Ok(Kind::State),
            KIND_WIDE_KEY => Ok(Kind::WideKey),
            _ => Err(Refusal::UnknownKind),
        }
    }
}

// The kind of a key's records: with arguments 0, or without.
pub fn key_kind(wide: bool) -> Kind
    ensures { result ≡ key_kind wide }
{
    if wide { Kind::WideKey } else { Kind::Key }
}

// The length of a kind's body.
pub fn body_length(kind: Kind) -> usize
    ensures { result ≡ body_length kind }
{
    match kind {
        Kind::Key => KEY_BODY,
        Kind::Variant => VARIANT_BODY,
        Kind::Entry => ENTRY_BODY,
        Kind::Emit => EMIT_BODY,
        Kind::State => STATE_BODY,
        Kind::WideKey => WIDE_KEY_BODY,
    }
}

// The kind byte and the body.
pub fn record_length(kind: Kind) -> usize
    ensures { result ≡ record_length kind }
{
    1 + body_length(kind)
}

impl Record {
    pub fn kind(&self) -> Kind
        ensures { result ≡ kind_of self.now }
    {
        match self {
            Record::Key(_) => Kind::Key,
            Record::Variant(_) => Kind::Variant,
            Record::Entry(_) => Kind::Entry,
            Record::Emit => Kind::Emit,
            Record::State(_) => Kind::State,
            Record::WideKey(_) => Kind::WideKey,
        }
    }
}

// The record of the key's own kind.
pub fn key_record(key: Key) -> Record
    ensures { result ≡ key_record key }
{
    if key.wide {
        return Record::WideKey(key);
    }
    Record::Key(key)
}
