//! The operations as one table, and its words written.
#![tactic(auto)]

pub mod forms;
pub mod words;
