//! What a run of turns took, and what it left.
use std::io;
use std::time::{Clock, Instant};

/// A run of turns.
#[derive(Drop)]
pub struct Timing {
    pub micros: u128,
    /// How many numbers the tally has at the end.
    pub made: u64,
}

/// The microseconds since a moment, where the clock could be read at both.
pub fn micros_since<R: Clock>(rt: &R, start: io::Result<Instant>) -> io::Result<u128> {
    Ok(start?.elapsed(rt)?.as_micros())
}
