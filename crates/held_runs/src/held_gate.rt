//! The gate of the session whose ends wait for one another.

use held_ends::Marks;
use live_turns::Gate;
use std::sync::Wait;
use std::sync::atomic::Ordering;

// The passes of the inputs of ports 1 and 2.
const INPUT_OF_1: u32 = 0;

const INPUT_OF_2: u32 = 1;

/// Notes the turns of the inputs of ports 1 and 2, and holds them back: the first turn of each until the other has come by
/// for its own and the source of port 1 was asked for its second record, while none of its first is entered; that of port 2
/// also until the sink of port 3 was given the first frame of port 1; the second turn of port 2 until the sink of port 3 was
/// given its first frame; and the second turn of port 1 until port 2 has come by for its third, control has a reply to
/// write, and the ticker waits.
#[derive(Drop)]
pub struct HeldGate<'a> {
    pub rt: HostRuntime,
    pub marks: &'a Marks,
}

impl<'a> Gate for HeldGate<'a> {
    fn pass_by<R: Wait>(&self, _rt: &R, pass: u32, turn: u64) {
        let marks = self.marks;
        match pass {
            INPUT_OF_1 => marks.turn_of_1.store(turn, Ordering::SeqCst),
            INPUT_OF_2 => marks.turn_of_2.store(turn, Ordering::SeqCst),
            _ => {}
        }
        match (pass, turn) {
            (INPUT_OF_1, 1) => {
                marks.wait_for(self.rt, &marks.turn_of_2, 1);
                marks.wait_for(self.rt, &marks.asked, 2);
            }
            (INPUT_OF_1, 2) => {
                marks.wait_for(self.rt, &marks.turn_of_2, 3);
                marks.wait_for(self.rt, &marks.replied, 1);
                marks.wait_for(self.rt, &marks.waited, 1);
            }
            (INPUT_OF_2, 1) => {
                marks.wait_for(self.rt, &marks.turn_of_1, 1);
                marks.wait_for(self.rt, &marks.asked, 2);
                marks.wait_for(self.rt, &marks.given_of_1, 1);
            }
            (INPUT_OF_2, 2) => marks.wait_for(self.rt, &marks.given, 1),
            _ => {}
        }
    }

    fn inputs_wait(&self, _is_so: bool) {}
}
