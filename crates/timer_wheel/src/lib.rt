//! What is due, by moment and address: the moments at which the states of addresses end or a probe goes out.
//!
//! Contracts see a `TimerWheel` as the list of the pairs that are armed, in rising order of address, and how many there may
//! be (`specs/Arms.antt`). Nothing takes memory but `TimerWheel::make`.
//!
//! The moments are those of RFC 6620 section 3.2 and RFC 7513 section 6. A hashed timing wheel with a sorted list in each
//! bucket: Varghese and Lauck, Hashed and Hierarchical Timing Wheels, scheme 5.
#![tactic(auto)]

mod armed;
mod buckets;
mod laws;
mod rings;
mod timer;
mod wheel;

pub use armed::Armed;
pub use laws::{first_is_least, one_address_changes, pairs_are_one_list};
pub use wheel::TimerWheel;
