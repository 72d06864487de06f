//! A live session: one switch, and threads of their own for the reader of each input, for its judge, for each output, for
//! control and for the ticker.
//!
//! `session` takes all memory, makes the switch, its first lock and a ring for each input, and starts the readers, which run
//! for the whole session. Beside them stands the loop over segments: the judges, the outputs, control and the ticker serve a
//! segment under a lock of its own until each pass has ended or is paused, the lock is opened, the segment is written to the
//! journal, and where an input is paused the switch turns and the next segment begins. A segment for whose lock there is no
//! memory is served in rounds, by one thread and without a lock. In the end each ring is closed.
//!
//! The contract speaks of the segments: they are those of a whole session, the newest is that of the switch that comes back,
//! and by them each end was served (`specs/Endings.antt`, `IsLive` of `live_session`). No RFC is read here.
#![tactic(auto)]

mod open;
mod readers;
mod ready;
mod room;
mod rounds;
mod seats;
mod segments;
mod services;
mod sessions;
mod sharing;
mod turns_told;
mod workers;

pub use ready::{Closed, Ready};
pub use sessions::session;
