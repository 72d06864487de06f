//! The checkpoint in which a history ends: what the next one goes on from, and its text.
//!
//! A base (`specs/Bases.antt`) has what a switch knows between two histories: the moment, the passes that ended for good,
//! the ports that are shut, the states of addresses, the open requests and the known stations of each VLAN, and the counts.
//! A `Checkpoint` is a copy of one, in columns (`specs/Columns.antt`). A core fills it where a history ends, and it stays as
//! it is while the tables move on. `Checkpoint::put_line` writes its lines for the journal, one by one
//! (`specs/BaseLines.antt`, `specs/StateLines.antt`). Nothing takes memory but `Checkpoint::make`.
//!
//! Read: RFC 6620 and RFC 7513 (states of addresses), RFC 8415 (requests), IEEE 802.1Q clause 8 (stations).
#![tactic(auto)]

mod checkpoint;
mod columns;
mod fields;
mod head;
mod part;
mod put;
mod request_order;

pub use checkpoint::{Checkpoint, ENDED_MOST, REQUESTS_MOST};
