//! The output of a port in a live session: a worker takes what waits there and writes it to the port's sink.
//!
//! In a segment it takes one turn at the lock after the other, in each of which it takes all that waits, and writes that
//! outside of the lock; or one round after the other, where a thread has the switch alone. `Output::run` and `Output::round`
//! say what the sink has taken then: what the segments so far send at the port, in the form of its output, a capture (the
//! libpcap savefile format) or a stream of frames.
#![tactic(auto)]

mod gathered;
mod output;
mod records;
mod writing;

pub use output::{Output, OutputRoom};
