//! The input of a port in either form: a capture, whose arrivals carry their stamps, or a stream of frames, which a clock
//! stamps.
//!
//! `PortInput` has a source and a clock, the reader of its form, and room for one frame. The contract of `read`
//! (`specs/Inputs.antt`) says of the octets that the source gave in a call which arrival they are, or how the input ends, in
//! the words of `pcap_io` and `stream_io`.
#![tactic(auto)]

mod input;
mod reader;

pub use input::PortInput;
pub use reader::InputReader;
