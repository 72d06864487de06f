//! The worker of control in a live session: it takes what the reader of control puts, and answers it.
//!
//! Each line comes by control's ring (`control_reader`), is entered in one turn at the session's lock, and the reply to it
//! written outside of it. `ControlWorker::run` does so in one segment, until control ends or the segment has no room for a
//! line, which is kept for the next one. `ControlWorker::round` does one step of that for a thread that has the core
//! without a lock. Where a reply couldn't be written, control has ended, and what its reader still puts is passed over. It
//! knows no source and no clock: its contract says by what it took and keeps, and by its sink, what the segments hold of
//! control (`ControlStands` of `live_session`), and the reader's what was put.
#![tactic(auto)]

mod answering;
mod rounds;
mod side;
mod state;
mod worker;

pub use side::ControlSide;
pub use worker::ControlWorker;
