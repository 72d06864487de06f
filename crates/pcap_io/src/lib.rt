//! Classic capture files of Ethernet frames (the libpcap savefile format): a reader over any source, and
//! a writer.
//!
//! `specs/Runs.antt` says which arrivals and which ending the octets of a capture are. The contract of
//! `PcapReader::next` says of the octets that the source gave in a call which arrival they are, however
//! they came in pieces; `specs/Readers.antt` has its words. `begin` and `put` write exact octets. The
//! laws stand in `laws`: each list of octets is one input, and a written capture is read again.
#![tactic(auto)]

mod header;
mod kind;
mod laws;
mod reader;
mod record;
mod writer;

pub use kind::{ByteOrder, HeaderKind, TimeUnit};
pub use laws::{
    calls_give_input, captures_are_read_again, front_arrives, octets_arrive, octets_arrive_once,
};
pub use reader::PcapReader;
pub use writer::{begin, put};
