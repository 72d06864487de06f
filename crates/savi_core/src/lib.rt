//! The switch as one machine: each event makes one entry of the history.
//!
//! Contracts see a `Core` as its plan, what its history goes on from (`base_of`), and its history, the newest row first.
//! `step` and `drain` put the row of their event in front of the history, which is always legal. What isn't allowed can't be
//! put; where there is no room for an entry, or nothing to drain, the answer says so and nothing changes. `reply` is what
//! the newest entry is answered on control, where it is a command's. Where a history is `full`, its passes end paused, and
//! `turn` goes on with an empty one from what it leaves, the lines of which `put_base` writes.
//!
//! Each VLAN of the plan has addresses, requests and stations of its own, in a set; a frame is judged in its VLAN, and goes to
//! members of that, with the tag of the VLAN at trunks and without one elsewhere.
//!
//! Read: RFC 6105 and RFC 7113 (router advertisements), RFC 7112 (first fragments), RFC 8200 (IPv6), RFC 6620, RFC 7513 and
//! RFC 8074 (validation of sources), IEEE 802.1Q clauses 8 (bridges) and 9 (tags).
#![tactic(auto)]

mod batch;
mod commands;
mod ends;
mod entries;
mod event;
mod judging;
mod machine;
mod outgoing;
mod passes;
mod port_queue;
mod port_sets;
mod ports;
mod queues;
mod shows;
mod stations;
mod turning;
mod vlan_set;

pub use batch::Batch;
pub use control_replies::Reply;
pub use event::{Event, Stepped};
pub use machine::Core;
