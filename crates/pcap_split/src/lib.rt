//! A capture of several interfaces (pcapng) is split into a classic capture for each Ethernet interface.
//!
//! `specs/Splits.antt` says what the capture of an interface holds and what is counted, as plain functions of what the file
//! tells (`pcapng_io`). `Splitter::go_on` reads and writes up to the next interface for which an output is to be opened;
//! `specs/Going.antt` has the words of its contract.
#![tactic(auto)]

mod counts;
mod events;
mod laws;
mod output;
mod places;
mod split;
mod splitter;

pub use counts::Counts;
pub use laws::captures_go_on;
pub use output::Output;
pub use split::SplitGot;
pub use splitter::Splitter;
