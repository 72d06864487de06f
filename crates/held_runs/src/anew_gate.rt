//! The gate of a session of many segments, behind the first of which two inputs wait for one another.

use held_ends::Marks;
use live_turns::Gate;
use std::sync::Wait;
use std::sync::atomic::{AtomicU64, Ordering};

// The passes of the inputs of ports 1 and 2.
const INPUT_OF_1: u32 = 0;

const INPUT_OF_2: u32 = 1;

/// Holds the first turn of the inputs of ports 1 and 2 until the other has come by for its own; and once the journal's sink has
/// taken the line that ends the first segment, likewise the next turn of each. One thread alone can't come by for both.
#[derive(Drop)]
pub struct AnewGate<'a> {
    pub rt: HostRuntime,
    pub marks: &'a Marks,
}

impl<'a> AnewGate<'a> {
    // Comes by for a turn: where it is the first one that `mine` notes, waits for the other input's.
    fn meet(&self, mine: &AtomicU64, other: &AtomicU64) {
        if mine.load(Ordering::SeqCst) == 0 {
            mine.store(1, Ordering::SeqCst);
            self.marks.wait_for(self.rt, other, 1);
        }
    }
}

impl<'a> Gate for AnewGate<'a> {
    fn pass_by<R: Wait>(&self, _rt: &R, pass: u32, _turn: u64) {
        let marks = self.marks;
        let is_behind = marks.closed.load(Ordering::SeqCst) > 0;
        match pass {
            INPUT_OF_1 => {
                self.meet(&marks.turn_of_1, &marks.turn_of_2);
                if is_behind {
                    self.meet(&marks.anew_of_1, &marks.anew_of_2);
                }
            }
            INPUT_OF_2 => {
                self.meet(&marks.turn_of_2, &marks.turn_of_1);
                if is_behind {
                    self.meet(&marks.anew_of_2, &marks.anew_of_1);
                }
            }
            _ => {}
        }
    }

    fn inputs_wait(&self, _is_so: bool) {}
}
