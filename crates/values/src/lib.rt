//! The values that the libraries hand to one another: keys, variants, entries, what emission reports, and why a call is refused.
#![tactic(auto)]

pub mod staged;

ghost use Rattle.std.specs.Prelude.{◌≡◌, ◌<◌, ℕ};
ghost use Rattle.values.specs.Refusals.{answer_number, number_of};

use std::marker::Model;

// How many stages a key has.
pub const STAGES: usize = 8;

// How many bytes an entry's name has room for.
pub const NAME_LENGTH: usize = 32;

// An op and its arguments, in Direct3D 9's codes. Only ops of three operands have an argument 0.
#[derive(Clone, Copy)]
pub struct Combiner {
    pub op: u8,
    pub arg1: u8,
    pub arg2: u8,
    pub arg0: u8,
}

// A texture stage. Flag bit 0: a texture is bound; bit 1: the result goes to TEMP.
#[derive(Clone, Copy)]
pub struct Stage {
    pub colour: Combiner,
    pub alpha: Combiner,
    pub flags: u8,
}

// Bit i of projected is for stage i. A wide key, of record kind 6, has stages of nine bytes, with argument 0 of colour and of alpha; in another, of
// kind 1 with stages of seven, no op has an argument 0. Its stages hold one that nothing reads: with an `Option`, or an enum of two keys, stages would be
// of two shapes, where one definition gives the text of both kinds.
#[derive(Clone, Copy)]
pub struct Key {
    pub stages: [Stage; STAGES],
    pub specular_add: bool,
    pub projected: u8,
    pub wide: bool,
}

// The render states beside the key that shape the text. Masks have bit i for stage i.
#[derive(Clone, Copy)]
pub struct Variant {
    pub alpha_func: u8,
    pub fog_mode: u8,
    pub fog_table_mode: u8,
    pub depth_sampler: u16,
    pub depth_fetch: u16,
    pub fetch4: u16,
    pub fetch4_alpha: u16,
    pub raw_depth_red: u16,
    pub volume: u16,
    pub cube: u16,
    pub sample_mask: u8,
    pub flags: u8,
}

// The name of the fragment function: its first len bytes, then zeros. Memory is fixed here, as in its record.
#[derive(Clone, Copy)]
pub struct Entry {
    pub len: u8,
    pub name: [u8; NAME_LENGTH],
}

// A write of a texture stage state: a stage, the state's type by its number, and a value.
#[derive(Clone, Copy)]
pub struct StateWrite {
    pub stage: u8,
    pub state: u8,
    pub value: u32,
}

// The stages that warn, bit i for stage i, in a mask for each cause.
#[derive(Clone, Copy, Default)]
pub struct Warnings {
    pub op: u8,
    pub selector: u8,
    pub modifier: u8,
}

// What an accepted emission reports of its text. The mask, of textured stages, has bit i for stage i.
#[derive(Clone, Copy)]
pub struct Emitted {
    pub length: usize,
    pub mask: u8,
    pub rows: u8,
    pub lookups: u8,
    pub warnings: Warnings,
    pub alpha_warning: bool,
}

// The number of one of the eight stages. Contracts see the number.
#[derive(Clone, Copy)]
pub struct StageIndex {
    number: u8,
}

impl Model for StageIndex {
    ghost Value = { ℕ };

    ghost view = { λ i. i.number };

    ghost invariant = { λ i. i.number < 8 };

    ghost inverse = { λ n. record { number = n } };
}

impl StageIndex {
    pub fn new(number: u8) -> StageIndex
        requires { number < 8 }
        ensures { result ≡ number }
    {
        StageIndex { number }
    }

    pub fn number(self) -> u8
        ensures number { result ≡ self }
        ensures below { result < 8 }
    {
        self.number
    }
}

// Why a call is refused, with the number of each.
#[derive(Clone, Copy)]
pub enum Refusal {
    CutShort = 1,
    UnknownKind = 2,
    StageFlags = 3,
    SpecularAdd = 4,
    VariantFlags = 5,
    EntryName = 6,
    EmitTooEarly = 7,
    NoRoom = 8,
    InputTooLong = 9,
    StageNumber = 10,
    StateType = 11,
    StateValue = 12,
    ReservedWord = 13,
}

// The number of a refusal.
impl From<Refusal> for u8 {
    ghost from_gives = { λ refusal number. number ≡ number_of refusal };

    fn from(refusal: Refusal) -> u8 {
        refusal as u8
    }
}

// The number of a call: that of its refusal, or 0.
pub fn number<T: Drop>(answer: Result<T, Refusal>) -> u8
    ensures { result ≡ answer_number answer }
{
    match answer {
        Ok(_) => 0,
        Err(refusal) => u8::from(refusal),
    }
}
