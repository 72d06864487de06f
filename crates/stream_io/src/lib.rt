//! Ethernet frames over a stream of octets: a reader over any source, whose clock stamps the frames, and a writer.
//!
//! A frame is a length of 4 octets, the most significant first, and then that many octets. `specs/Streams.antt` says which
//! arrivals and which ending the octets of a stream are. The contract of `StreamReader::next` says of the octets that the
//! source gave in a call which arrival they are, however they came in pieces; `specs/Readers.antt` has its words. `put`
//! writes exact octets. The laws stand in `laws`: each list of octets is one input, call after call gives it, and a written
//! stream is read again.
#![tactic(auto)]

mod ahead;
mod laws;
mod reader;
mod record;
mod writer;

pub use laws::{
    calls_before_fault, calls_before_more, calls_give_input, front_arrives, octets_arrive,
    octets_arrive_once, stamps_are_readings, streams_are_read_again,
};
pub use reader::StreamReader;
pub use writer::{begin, put};
