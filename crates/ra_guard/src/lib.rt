//! The guard: which of the rules on messages stops a frame at a port.
//!
//! `guard` gives the first of the rules that apply to the class of a frame, at a port of a role. `specs/Guard.antt` lists
//! the condition of each rule. `laws` joins the guard to a function that computes it, `guard_of` of `specs/GuardOf.antt`,
//! and to the octets of a frame: what the header chain shows of a router advertisement, or hides, is stopped.
//!
//! Read: RFC 6105 and RFC 7113 (router advertisements), RFC 7112 (first fragments), RFC 6980 (fragmented neighbor
//! discovery), RFC 4861 (neighbor discovery), RFC 8415 (DHCPv6), RFC 7610 (DHCPv6-Shield), IEEE 802.1Q (bridges).
#![tactic(auto)]

mod frame_guard;
mod laws;

pub use frame_guard::guard;
pub use laws::{a_class_has_its_rule, adverts_are_refused, hidden_fragments_are_refused};
