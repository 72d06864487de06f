//! The ends of a port: its source and sink, each of which is one of two kinds, over a file or over a socket, and the clock
//! of what comes in, which stands while inputs wait.
//!
//! What a source or a sink tells, and its count of faults, are those of the end inside.
#![tactic(auto)]

mod clock_start;
mod machine_clock;
mod pauses;
mod port_sink;
mod port_source;

pub use clock_start::ClockStart;
pub use machine_clock::MachineClock;
pub use pauses::Pauses;
pub use port_sink::PortSink;
pub use port_source::PortSource;
