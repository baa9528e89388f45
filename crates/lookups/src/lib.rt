//! The writers of lookups: their coordinates and their lines.
#![tactic(auto)]

pub mod coordinates;
pub mod lookup;
mod samples;
