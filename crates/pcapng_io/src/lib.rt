//! Captures of several interfaces (pcapng, draft-ietf-opsawg-pcapng): a reader over any source.
//!
//! `specs/Blocks.antt` says what a block is, `specs/Runs.antt` which blocks the octets of a file are, what they tell and how
//! they end. The contract of `NgReader::next` says of the octets that the source gave in a call what they tell, however
//! they came in pieces; `specs/Readers.antt` has its words. The laws stand in `laws`.
#![tactic(auto)]

mod block;
mod blocks;
mod laws;
mod next;
mod numbers;
mod options;
mod position;
mod reader;
mod steps;
mod stop;
mod taking;

pub use laws::{calls_give_input, front_arrives, octets_arrive, octets_arrive_once};
pub use next::NgNext;
pub use reader::NgReader;
