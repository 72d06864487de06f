ghost use Rattle.std.specs.Prelude.{◌≡◌, ℕ, [], Some};

use crate::clock::Clock;

/// A clock over a list of readings. It repeats the last one, and reads 0 where the list is empty.
///
/// A reading is O(1). The clock tells its readings while it has made fewer than 2^64 - 1 of them.
#[derive(Drop)]
pub struct MemClock {
    readings: Vec<u64>,
    made: u64,
}

impl MemClock {
    ghost use Rattle.savi_ends.specs.MemClocks.{clock_state, reading_at, after_reading};

    /// A clock that makes these readings, in ms, in order.
    pub fn new(readings: Vec<u64>) -> MemClock
        ensures state { clock_state result ≡ record { given = readings.items; made = 0 } }
        ensures readings { ⟦<MemClock as Clock>⟧.readings result ≡ Some [] }
    {
        MemClock { readings, made: 0 }
    }

    // The next reading.
    fn next(&mut self) -> u64
        ensures reading { result ≡ reading_at (clock_state self.old).given (clock_state self.old).made }
        ensures state { clock_state self.new ≡ after_reading (clock_state self.old) }
    {
        let made = self.made;
        self.made = made.saturating_add(1);
        match self.readings.len() as u64 {
            0 => 0,
            len => self.readings[made.min(len - 1) as usize],
        }
    }
}

impl Clock for MemClock {
    ghost use Rattle.savi_ends.specs.Readings.{AddsReading};
    ghost use Rattle.savi_ends.specs.MemClocks.{clock_state, reading_at, after_reading, told_readings};

    ghost readings = { λ c. told_readings (clock_state c) };

    fn now(&mut self) -> u64
        ensures adds { AddsReading (⟦<MemClock as Clock>⟧.readings self.old) (⟦<MemClock as Clock>⟧.readings self.new) result }
        ensures reading { result ≡ reading_at (clock_state self.old).given (clock_state self.old).made }
        ensures state { clock_state self.new ≡ after_reading (clock_state self.old) }
    {
        self.next()
    }

    fn wait(&mut self) -> u64
        ensures adds { AddsReading (⟦<MemClock as Clock>⟧.readings self.old) (⟦<MemClock as Clock>⟧.readings self.new) result }
        ensures reading { result ≡ reading_at (clock_state self.old).given (clock_state self.old).made }
        ensures state { clock_state self.new ≡ after_reading (clock_state self.old) }
    {
        self.next()
    }
}
