//! The C interface, as include/yuzuknoll.h declares it. Each call answers a refusal's number, 0 where it accepts; what it reports it writes to numbers
//! that the caller lends. A refusal changes nothing that is lent.
#![tactic(auto)]

mod alter;
mod apply;
mod emit;
mod entry;
mod parts;
mod read;
mod write;
