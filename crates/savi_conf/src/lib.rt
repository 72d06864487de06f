//! The configuration of a switch.
#![tactic(auto)]

mod document;
mod fault;
mod keys;
mod laws;
mod lists;
mod numbers;
mod parts;
mod plan;
mod ports;
mod prefixes;
mod ranges;
mod read;
mod vlans;
mod words;

pub use fault::{ConfFault, Fault};
pub use laws::a_text_has_one_answer;
pub use read::{OCTETS_MOST, read_plan};
