//! The ticker of a live session: the worker that lets time pass where nothing comes in.
//!
//! In each segment it reads its clock and takes a turn at the lock with each reading, or a round where a thread has the
//! switch alone, until it has ended or is paused. Its contract says that the segments then hold its readings as ticks, but
//! for those at which nothing was due or there was no room (`Ticking` of `live_session`). No RFC is read here.
#![tactic(auto)]

mod ticker;

pub use ticker::TickerWorker;
