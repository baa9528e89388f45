//! Records inspected on their bytes: what they are refused for, and a key of kind 1 as it lies.
#![tactic(auto)]

pub mod causes;
pub mod keys;
