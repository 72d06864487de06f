//! The loop of a replay over the ports of a switch, of which there may be any number.
//!
//! Each port has a capture to be read and one to be written (the libpcap savefile format). `replay` makes the segments of a
//! replay of all inputs, as `savi_segments` defines it, and writes at each port a capture of what is sent there. Where there
//! are ends of control, the lines of its input stand in the segments, and each is answered. Each segment is written to the
//! journal, where there is one, once it is closed. Its contract says so of the octets that the sources tell and of those
//! that the sinks hold, also where reads or writes fail (`specs/Served.antt`, `specs/ControlServed.antt`,
//! `specs/Journalled.antt`). `replay_session` takes the memory for it and makes the switch.
//!
//! The order of a replay is there for others too, who keep no history: `look_all` reads ahead, `next_of` says whose turn it
//! is, `PortEnds::turn` tells that turn and `PortEnds::pass` goes on behind it.
#![tactic(auto)]

mod choice;
mod control_ends;
mod looking;
mod outputs;
mod port_ends;
mod session;
mod turns;

pub use choice::next_of;
pub use control_ends::ControlEnds;
pub use looking::look_all;
pub use port_ends::{PortEnds, PortTurn};
pub use session::{Closed, Ready, replay_session};
pub use turns::replay;
