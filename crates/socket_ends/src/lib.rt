//! Unix stream sockets as ends of the switch: what the one peer of a path sends is a source, and a sink sends to it.
//!
//! An opening locks each path, makes its socket and listens there; its one peer is accepted at the first read or write, so
//! ports start apart from each other, and peers may come in any order. A path stays locked as long as its ends live. What a
//! peer sends or gets is outside of every contract, so such an end tells nothing of its octets. That its failures are
//! counted is proved.
#![tactic(auto)]

mod leftover;
mod listening;
mod meeting;
mod opening;
mod path_lock;
mod patience;
mod resting;
mod socket_sink;
mod socket_source;

pub use opening::open_sockets;
pub use patience::OutputsAwaited;
pub use resting::Resting;
pub use socket_sink::SocketSink;
pub use socket_source::SocketSource;
