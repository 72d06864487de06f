//! The journal of a session, written while it goes on: its header, and each segment of its history once that is closed.
//!
//! A journal is written in pieces of at most a buffer's size. The header is written at once, and what waits behind a segment
//! is written with it: so a session that is cut off leaves every segment that was closed. Where a write fails nothing more
//! is written, and the sink has a front of the journal. The text is that of `hist_store` and `savi_segments`.
//!
//! Beside the journal `Told` keeps what a run says of its segments once they are closed: how many entries they have, and how
//! passes ended for good.
#![tactic(auto)]

mod buffer;
mod journal;
mod told;

pub use buffer::{Buffer, JOURNAL_PIECE_OCTETS};
pub use journal::{Journal, know_addresses};
pub use told::{ENDS_MOST, EndsTold, Told};
