//! What waits at an egress port.
//!
//! `EgressRing` is a queue of at most `depth` items: frames, by the numbers of their entries, and probes, each of a VLAN.
//! Contracts see the list of the items, the oldest first, and the depth. It takes its memory when it is made, and each other
//! call is O(1) but for `wipe`.
//!
//! Read: IEEE 802.1Q section 8.6.6 (a queue for each port, first in and first out).
#![tactic(auto)]

mod item;
mod ring;

pub use item::Item;
pub use ring::EgressRing;
