//! The held values, and the record at the front of some bytes applied to them.
#![tactic(auto)]

ghost use Rattle.std.specs.Prelude.{◌≡◌, length, OnErr};
ghost use Rattle.values.specs.Refusals.{answer_number};
ghost use Rattle.records.specs.Applying.{AppliedDemands, all_held, applied_number, apply_answer, emit_answer, emit_number};
ghost use Rattle.records.specs.Applying.{held_after, holding, key_or_defaults, nothing_held, text_after, text_answer};

use emission::emit;
use states::{defaults, set};
use values::{Emitted, Entry, Key, Refusal, Variant};
use wire::reader::read;
use wire::{Reading, Record};

// The held values.
#[derive(Clone, Copy, Default)]
pub struct Held {
    pub key: Option<Key>,
    pub variant: Option<Variant>,
    pub entry: Option<Entry>,
}

// An accepted record: how many bytes it took, and what emission reports of the text that it wrote, if it wrote one.
#[derive(Clone, Copy)]
pub struct Applied {
    pub length: usize,
    pub text: Option<Emitted>,
}

impl Held {
    // Nothing is held at first.
    pub fn new() -> Held
        ensures { result ≡ nothing_held }
    {
        Held::default()
    }

    // The key that a state write alters.
    fn key_or_defaults(&self) -> Key
        ensures { result ≡ key_or_defaults self.now }
    {
        self.key.unwrap_or_else(defaults)
    }

    // Holds the record's value, or does its write to the held key.
    fn hold(&mut self, record: Record)
        ensures { self.new ≡ holding «record» self.old }
    {
        match record {
            Record::Key(key) | Record::WideKey(key) => self.key = Some(key),
            Record::Variant(variant) => self.variant = Some(variant),
            Record::Entry(entry) => self.entry = Some(entry),
            Record::Emit => {}
            Record::State(write) => self.key = Some(set(self.key_or_defaults(), write)),
        }
    }

    // Emission from the held values. A refusal leaves text as it was.
    fn emit(&self, text: &mut [u8]) -> Result<Emitted, Refusal>
        ensures answer { result ≡ emit_answer (all_held self.now) (length text.old) }
        ensures buffer { text.new ≡ text_after (text_answer 0 result) self.now text.old }
        ensures names { AppliedDemands self.now (text_answer 0 result) text.new }
        ensures number { answer_number result ≡ emit_number self.now (length text.old) }
    {
        let (Some(key), Some(variant), Some(entry)) = (self.key, self.variant, self.entry) else {
            return Err(Refusal::EmitTooEarly);
        };
        emit(key, variant, entry, text)
    }

    // Reads the record at the front of the bytes and applies it to what is held. A refusal leaves what is held and text as they were.
    #[tactic(auto, using(crate::proofs::Answers::applied_number_lem, crate::proofs::Answers::replaced_number))]
    pub fn apply(&mut self, bytes: &[u8], text: &mut [u8]) -> Result<Applied, Refusal>
        ensures answer { result ≡ apply_answer self.old bytes.now (length text.old) }
        ensures held { self.new ≡ held_after self.old bytes.now }
        ensures refused { OnErr result (self.new ≡ self.old) }
        ensures buffer { text.new ≡ text_after result self.old text.old }
        ensures names { AppliedDemands self.old result text.new }
        ensures number { answer_number result ≡ applied_number self.old bytes.now (length text.old) }
    {
        let Reading { record, length } = read(bytes)?;
        let text = match record {
            Record::Emit => Some(self.emit(text)?),
            _ => None,
        };
        self.hold(record);
        Ok(Applied { length, text })
    }
}
