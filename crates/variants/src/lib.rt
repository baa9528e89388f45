//! What a variant says of a stage and of the text: its bits, and what they choose.
#![tactic(auto)]

pub mod bits;
pub mod kinds;
