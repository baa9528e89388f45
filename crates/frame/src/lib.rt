//! The writers of what stands around the stages: before the function, its signature, its output.
#![tactic(auto)]

pub mod header;
pub mod output;
pub mod signature;
