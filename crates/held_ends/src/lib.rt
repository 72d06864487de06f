//! Ends in memory that wait for one another, in a world of three ports, by which a test sees that the workers of a live
//! session run side by side.
//!
//! The ports are trusted ones, over streams. Ports 1 and 2 bring two broadcast frames each, and port 3 none. The source of
//! port 1 gives its second frame only once the sink of port 3 was given the first frame of port 2, and that write returns
//! only once the pass of port 2's input has come by for its third turn. Control brings one line, `quit`, and the write of its
//! reply, like the wait of the ticker's clock, returns only once the pass of port 1's input has come by for its third turn.
//! So a switch that reads, writes or waits while it holds its lock, or sends only at the end, can't go on; each wait gives up
//! after 20 s then, and is told (`Marks::has_given_up`).
//!
//! In another world of the same ports (`Waits::ForNothing`) no end waits, and port 3 brings two frames too. So a gate can hold
//! one input back until all that the others bring is entered.
//!
//! In a third one (`Waits::ForASegment`) ports 1 and 2 bring five frames each, and the journal's sink notes that it has taken
//! the line that ends a segment (`Marks::closed`). So a gate can hold two inputs back behind that until each has come by.
#![tactic(auto)]

mod frames;
mod held_clock;
mod held_sink;
mod held_source;
mod held_world;
mod marks;

pub use frames::{FIRST_OF_1, FIRST_OF_2, FIRST_OF_3, SECOND_OF_1, SECOND_OF_2, SECOND_OF_3};
pub use held_clock::HeldClock;
pub use held_sink::{HeldSink, Hold};
pub use held_source::{HeldSource, Note};
pub use held_world::{COMMANDS, HeldEnds, HeldWorld, JOURNAL, PLAN, REPLIES, Waits};
pub use marks::{LAST_TURN, Marks};
