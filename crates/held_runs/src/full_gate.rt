//! The gate of a session in which the ring of a port is filled.

use held_ends::Marks;
use live_turns::Gate;
use std::sync::Wait;
use std::sync::atomic::Ordering;
use std::thread;
use std::time::Duration;

// The pass of the input of port 1.
const INPUT_OF_1: u32 = 0;

/// How many arrivals of a port are put in front of its judge: 64 in its ring, behind the one that is judged.
const RING_DEPTH: u64 = 64;

/// How long a reader whose ring is full has time to read more than it should.
const PAUSE_MS: u64 = 50;

/// Holds the first turn of the input of port 1 until its source was asked for the record that finds no room in its ring, and a
/// while more; then notes how often it was asked.
#[derive(Drop)]
pub struct FullGate<'a> {
    pub rt: HostRuntime,
    pub marks: &'a Marks,
}

impl<'a> Gate for FullGate<'a> {
    fn pass_by<R: Wait>(&self, _rt: &R, pass: u32, turn: u64) {
        if pass != INPUT_OF_1 || turn != 1 {
            return;
        }
        let marks = self.marks;
        marks.wait_for(self.rt, &marks.asked, RING_DEPTH + 2);
        thread::sleep(&self.rt, Duration::from_millis(PAUSE_MS));
        let asked = marks.asked.load(Ordering::SeqCst);
        marks.asked_when_full.store(asked, Ordering::SeqCst);
    }

    fn inputs_wait(&self, _is_so: bool) {}
}
