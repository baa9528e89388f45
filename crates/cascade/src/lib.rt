//! The cascade of a key: its active stages, and what each reads and writes.
#![tactic(auto)]

pub mod decode;
pub mod effective;
pub mod keys;
mod plain;
pub mod reading;
pub mod surveyed;
pub mod walks;
mod warnings;

use combiners::Expression;
use values::Warnings;

// Where a stage's alpha comes from.
#[derive(Clone, Copy)]
pub enum Alpha {
    FromColour,
    Kept,
    Written(Expression),
}

// What a stage writes.
#[derive(Clone, Copy)]
pub struct Expressions {
    pub colour: Expression,
    pub alpha: Alpha,
}

// What a key says before any byte of text.
#[derive(Clone, Copy)]
pub struct Survey {
    pub count: usize,
    pub mask: u8,
    pub rows: u8,
    pub warnings: Warnings,
    pub live: bool,
    pub marks: u8,
    pub bump_env: bool,
}
