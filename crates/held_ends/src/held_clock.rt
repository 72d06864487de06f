//! A clock that waits.

ghost use Rattle.std.specs.Prelude.{◌≡◌};

use crate::marks::{LAST_TURN, Marks};
use savi_ends::{Clock, MemClock};
use std::sync::atomic::Ordering;

/// A clock in memory. That of the ticker notes that it was told to wait, and waits until the pass of port 1's input has come by
/// for its third turn.
#[derive(Drop)]
pub struct HeldClock<'a> {
    clock: MemClock,
    rt: HostRuntime,
    // What the ticker's clock waits by, and none for any other.
    marks: Option<&'a Marks>,
}

impl<'a> HeldClock<'a> {
    /// The clock, with the readings that it made before.
    pub fn new(rt: HostRuntime, clock: MemClock, marks: Option<&'a Marks>) -> HeldClock<'a>
        ensures { ⟦<HeldClock<'a> as Clock>⟧.readings result ≡ ⟦<MemClock as Clock>⟧.readings clock }
    {
        HeldClock { clock, rt, marks }
    }
}

impl<'a> Clock for HeldClock<'a> {
    ghost readings = { λ c. ⟦<MemClock as Clock>⟧.readings c.clock };

    fn now(&mut self) -> u64 {
        self.clock.now()
    }

    fn wait(&mut self) -> u64 {
        if let Some(marks) = self.marks {
            marks.waited.store(1, Ordering::SeqCst);
            marks.wait_for(self.rt, &marks.turn_of_1, LAST_TURN);
        }
        self.clock.wait()
    }
}
