//! The turns of a live session at its lock.
//!
//! Each worker of a session has a pass, and takes one turn after the other: it waits for its turn, makes at most one entry
//! of the history, and lets the next pass in. There is a function for each kind of turn. `specs/Turned.antt` says what a
//! pass knows of a turn: the history went on by entries of other passes since its last one, and what the turn then did,
//! which `specs/TurnKinds.antt` has for each kind.
//!
//! The moves of the turns are functions of the core alone (`enter_frame` and those beside it), for a thread that has it
//! without a lock and takes all turns by itself; `specs/Rounds.antt` says what such a round adds to the history. An input
//! that finds the history full tells the others by a `PauseSignal`.
#![tactic(auto)]

mod gate;
mod kinds;
mod signal;
mod taking;
mod turns;
mod under_lock;
mod waking;

pub use gate::{Gate, NoGate};
pub use kinds::{DrainTurn, TickTurn};
pub use signal::{INPUTS_MOST, PauseSignal, Sleepers};
pub use taking::{drain_turn, end_turn, frame_turn, line_turn, pause_turn, tick_turn};
pub use turns::Turns;
pub use under_lock::{drain, end_pass, enter_frame, enter_line, pause_if_full, tick};
pub use waking::{Wakes, place_at_port, sleep_until_woken};
