//! A load from a seed, replayed: the program's own test and benchmark.
//!
//! `replay_load` makes the load (`load_gen`) and replays it at a switch of the load's plan (`port_worker`), over captures in
//! memory and over sinks that only count. No read and no write fails there, and no clock is read. Its contract says that the
//! segments are the replay of what the load sends, a plain definition of the seed and the number of packets
//! (`specs/LoadHistory.antt`).
#![tactic(auto)]

mod ends;
mod replaying;

pub use replaying::{Loaded, replay_load};
