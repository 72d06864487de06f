//! A value that up to 34 passes use in turns, and that comes back with exactly what they made.
//!
//! `TableLock` keeps one value and deals passes. A pass enters, which waits for its turn, changes the value by at most one
//! entry of its history (`Kept`), and leaves. `close` gives the value back: its history holds each pass's entries, each
//! once and in the pass's own order, whatever the schedule (`specs/Rule.antt` has the rule that every step keeps).
#![tactic(auto)]

mod board;
mod kept;
mod lock;
mod pass;
mod plays;
mod tally;
mod turn;

pub use kept::Kept;
pub use lock::{NotMade, TableLock, Woken};
pub use pass::Pass;
pub use tally::Tally;
pub use turn::Held;
