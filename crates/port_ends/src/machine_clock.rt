//! The machine's clock, as a clock that goes on evenly.

ghost use Rattle.std.specs.Prelude.{◌≡◌, ◌≤◌, None};

use crate::clock_start::ClockStart;
use crate::pauses::Pauses;
use savi_ends::Clock;
use std::alloc::Global;
use std::sync::{Arc, Wait};
use std::thread;
use std::time::{Clock as Timer, Duration};

/// How long a wait lasts, in ms.
pub(crate) const WAIT_MS: u64 = 10;

/// So many ns are a ms.
const NANOS: u64 = 1_000_000;

/// The machine's clock, in ms since 1970, over std's clocks. It takes the time of day from its start and adds what the
/// monotonic clock tells, so that a time of day that is set back or forward meanwhile changes nothing. It never goes back,
/// stands still while inputs wait (`Pauses`), and where the monotonic clock can't be read: at that time of day, if it never
/// could. It tells nothing of its readings.
///
/// A wait of a clock that stands in pauses ends early where the inputs begin to wait, so that a ticker looks at once. One
/// clock of those pauses waits at a time.
#[derive(Drop)]
pub struct MachineClock<T: Copy, R: Copy> {
    timer: T,
    rt: R,
    start: ClockStart,
    pauses: Option<Arc<Pauses, Global>>,
    last: u64,
}

impl<T: Timer + Copy, R: Wait + Copy> MachineClock<T, R> {
    ghost use Rattle.port_ends.specs.MachineClocks.{began_at, last_of};

    /// A clock that began then, and stands in these pauses, or in none.
    pub fn new(
        timer: T,
        rt: R,
        start: ClockStart,
        pauses: Option<Arc<Pauses, Global>>,
    ) -> MachineClock<T, R>
        ensures { last_of result ≡ began_at start }
    {
        MachineClock {
            timer,
            rt,
            start,
            pauses,
            last: start.time_of_day,
        }
    }

    // The moment (ms): the time of day at the start, and what has passed since, without pauses. `None` where that can't be
    // read.
    fn moment(&self) -> Option<u64> {
        let now = self.start.since(&self.timer)?;
        let since = match &self.pauses {
            Some(pauses) => pauses.reading_at(now),
            None => now,
        };
        Some(self.start.time_of_day.saturating_add(since / NANOS))
    }
}

impl<T: Timer + Copy, R: Wait + Copy> Clock for MachineClock<T, R> {
    ghost use Rattle.savi_ends.specs.Readings.{AddsReading};
    ghost use Rattle.port_ends.specs.MachineClocks.{last_of};

    ghost readings = { λ c. None };

    fn now(&mut self) -> u64
        ensures reading { AddsReading None None result }

        // It never goes back.
        ensures steady { last_of self.old ≤ result }
        ensures last { last_of self.new ≡ result }
    {
        let moment = self.moment().unwrap_or(self.last);
        self.last = moment.max(self.last);
        self.last
    }

    fn wait(&mut self) -> u64
        ensures reading { AddsReading None None result }
        ensures steady { last_of self.old ≤ result }
        ensures last { last_of self.new ≡ result }
    {
        match &self.pauses {
            Some(pauses) => pauses.wait(&self.rt),
            None => thread::sleep(&self.timer, Duration::from_millis(WAIT_MS)),
        }
        self.now()
    }
}
