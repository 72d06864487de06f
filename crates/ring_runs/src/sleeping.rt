//! One who sleeps.

use sleeper::Sleeper;
use std::io;
use std::sync::Wait;
use std::thread::{self, Threads, join};
use std::time::{Clock, Duration, Instant};

/// So long a sleep lasts that nobody ends, in ms.
const ALONE_MS: u64 = 20;

/// So long one would last that is ended, in s.
const SLEEP_SECS: u64 = 20;

/// It lasts less than this, in s.
const WOKEN_WITHIN_SECS: u64 = 10;

/// So long a thread leaves the other one asleep before it wakes it, in ms.
const ASLEEP_MS: u64 = 2;

/// Whether a sleep lasts as long as it may where nobody ends it.
pub fn is_kept_asleep<R: Wait + Clock>(rt: &R) -> io::Result<bool> {
    let sleeper = Sleeper::new();
    let start = Instant::now(rt)?;
    sleeper.sleep(rt, Duration::from_millis(ALONE_MS));
    Ok(start.elapsed(rt)? >= Duration::from_millis(ALONE_MS))
}

/// Whether a sleep that would be long ends early.
pub fn is_sleep_ended<R: Wait + Clock>(rt: &R, place: &Sleeper) -> io::Result<bool> {
    let start = Instant::now(rt)?;
    place.sleep(rt, Duration::from_secs(SLEEP_SECS));
    Ok(start.elapsed(rt)? < Duration::from_secs(WOKEN_WITHIN_SECS))
}

/// Whether two sleeps end early, one of which another thread ends, and one of which was ended before it began.
pub fn is_woken<R: Threads + Wait + Clock + Sync>(rt: &R) -> io::Result<bool> {
    let sleeper = Sleeper::new();
    let start = Instant::now(rt)?;
    join(
        rt,
        || sleeper.sleep(rt, Duration::from_secs(SLEEP_SECS)),
        || {
            thread::sleep(rt, Duration::from_millis(ASLEEP_MS));
            sleeper.wake();
        },
    );
    sleeper.wake();
    sleeper.sleep(rt, Duration::from_secs(SLEEP_SECS));
    Ok(start.elapsed(rt)? < Duration::from_secs(WOKEN_WITHIN_SECS))
}
