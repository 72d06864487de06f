//! The gate of a session that holds one input back.

use held_ends::{LAST_TURN, Marks};
use live_turns::Gate;
use std::sync::Wait;
use std::sync::atomic::Ordering;

/// Notes the turns of the inputs, and holds the first one of one of them back until the others have come by for their last
/// turns, so that all that these bring is entered. That their sources were read to the end wouldn't say so: readers go ahead.
#[derive(Drop)]
pub struct EndGate<'a> {
    pub rt: HostRuntime,
    pub marks: &'a Marks,
    /// The numbers of the ports: of the one whose input is held back, and of the others.
    pub held: u8,
    pub others: [u8; 2],
}

impl<'a> Gate for EndGate<'a> {
    fn pass_by<R: Wait>(&self, _rt: &R, pass: u32, turn: u64) {
        // The passes of the inputs are the first ones, by the numbers of their ports from 1 on.
        for number in self.others {
            if pass == u32::from(number).saturating_sub(1) {
                self.marks.turn_of(number).store(turn, Ordering::SeqCst);
            }
        }
        if turn != 1 || pass != u32::from(self.held).saturating_sub(1) {
            return;
        }
        for number in self.others {
            self.marks
                .wait_for(self.rt, self.marks.turn_of(number), LAST_TURN);
        }
    }

    fn inputs_wait(&self, _is_so: bool) {}
}
