//! When the clocks of a run began.

use std::time::{Clock as Timer, Duration, Instant, SystemTime, UNIX_EPOCH};

/// When the clocks of a run began: the time of day (ms since 1970), and what the monotonic clock read then.
#[derive(Clone, Copy)]
pub struct ClockStart {
    pub(crate) time_of_day: u64,
    instant: Option<Instant>,
}

impl ClockStart {
    /// Reads the time of day, once for all clocks of a run, and the monotonic clock. A time of day that can't be read is 0.
    /// O(1).
    pub fn read<R: Timer>(rt: &R) -> ClockStart {
        ClockStart {
            time_of_day: time_of_day(rt),
            instant: Instant::now(rt).ok(),
        }
    }

    // What the monotonic clock has added since, in ns, or the largest u64. `None` where that can't be read.
    pub(crate) fn since<R: Timer>(&self, rt: &R) -> Option<u64> {
        let since = Instant::now(rt).ok()?.duration_since(self.instant?);
        Some(u64::try_from(since.as_nanos()).unwrap_or(u64::MAX))
    }
}

// The time of day, in ms since 1970; 0 where it can't be read.
fn time_of_day<R: Timer>(rt: &R) -> u64 {
    let Ok(now) = SystemTime::now(rt) else {
        return 0;
    };
    match now.duration_since(UNIX_EPOCH) {
        Ok(since) => whole_millis(since),
        Err(_) => 0,
    }
}

// A length of time in whole ms, or the largest u64.
fn whole_millis(length: Duration) -> u64 {
    u64::try_from(length.as_millis()).unwrap_or(u64::MAX)
}
