//! The outside of the switch: sources of octets, sinks of octets, clocks, and the world that hands
//! them out and keeps them.
//!
//! The contract of each trait says what an end did in a call: the octets that a source gave up, those
//! by which a sink was extended, the reading of a clock, and that a failure is told exactly where a
//! count of faults rose. Everything above is generic over these traits. No RFC is read here.
#![tactic(auto)]

mod clock;
mod count_sink;
mod filling;
mod mem_clock;
mod mem_places;
mod mem_sink;
mod mem_source;
mod mem_world;
mod piece;
mod receiving;
mod sending;
mod sink;
mod source;
mod sure_source;
mod world;

pub use clock::Clock;
pub use count_sink::CountSink;
pub use filling::{Filled, fill};
pub use mem_clock::MemClock;
pub use mem_sink::MemSink;
pub use mem_source::MemSource;
pub use mem_world::{MemEnds, MemWorld};
pub use receiving::receive;
pub use sending::send;
pub use sink::{Put, Sink};
pub use source::{Got, Source};
pub use sure_source::SureSource;
pub use world::{Ends, OpenFailed, Std, World};
