//! The writers of expressions and of the lines that hold them.
#![tactic(auto)]

mod combine;
pub mod line;
