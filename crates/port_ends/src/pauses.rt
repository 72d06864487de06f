//! When the inputs of a run wait, and how its clocks stand meanwhile.

use crate::clock_start::ClockStart;
use crate::machine_clock::WAIT_MS;
use std::alloc::{AllocError, Global};
use std::sync::atomic::{AtomicU64, Ordering};
use std::sync::{Arc, Wait};
use std::thread::Parker;
use std::time::{Clock as Timer, Duration};

/// From here on a state is a time at which the clocks stand.
const STANDS: u64 = 1 << 63;

/// Clocks that lag go faster by one part in so many.
const CATCHES_UP: u64 = 64;

/// How long a wait lasts while the inputs wait, in ms.
const PAUSED_WAIT_MS: u64 = 1;

/// When the inputs of a run wait: then its clocks stand, so that nothing runs out that an arrival in a ring would have kept
/// from it. Behind that they go on from there, and faster by 1/64, until they have caught up with the machine's.
///
/// One number says how they stand to it, so that a reading is of one state: the time at which they stand, or that at which
/// they will have caught up. Times are in ns since the start of the run.
///
/// A clock reads the machine's first, and the state behind that. So none reads more than clocks do when it answers: where the
/// state is that of a pause it answers the time at which that began, whenever the machine's was read; where it is that of
/// behind a pause, and the machine's was read before or within it, it answers less than that time; and where it is still that
/// of before a pause, the machine's was read before the pause was told, and so has none of its length.
#[derive(Drop)]
pub struct Pauses {
    start: ClockStart,
    state: AtomicU64,
    // where a clock waits
    waiting: Parker,
}

impl Pauses {
    /// Those of a run that begins now. `Err` is want of memory.
    pub fn make<R: Timer>(rt: &R, alloc: Global) -> Result<Arc<Pauses, Global>, AllocError> {
        let pauses = Pauses {
            start: ClockStart::read(rt),
            state: AtomicU64::new(0),
            waiting: Parker::new(),
        };
        Ok(Arc::new(alloc, pauses)?)
    }

    /// When the run began.
    pub fn start(&self) -> ClockStart {
        self.start
    }

    /// Tells whether the inputs wait, which may be told again, also by threads side by side; that they don't is told by one
    /// alone. That they do wakes a clock that waits. The answer is the machine's time, or 0 where that can't be read: then
    /// they don't wait. O(1).
    pub fn tell<R: Timer>(&self, rt: &R, wait: bool) -> u64 {
        let now = self.start.since(rt);
        let state = self.state.load(Ordering::SeqCst);
        match now {
            Some(now) if wait => self.stand(state, now),
            _ => self.go_on(state, now),
        }
        if wait {
            self.waiting.unpark();
        }
        now.unwrap_or(0)
    }

    // Waits for as long as a clock does: 10 ms, or 1 ms while the inputs wait, or until it is told that they do. It may wait
    // for less. One thread waits at a time.
    pub(crate) fn wait<R: Wait>(&self, rt: &R) {
        let stands = self.state.load(Ordering::SeqCst) >= STANDS;
        let length = if stands { PAUSED_WAIT_MS } else { WAIT_MS };
        self.waiting.park_timeout(rt, Duration::from_millis(length));
    }

    // The clocks stand from now on, unless they do already.
    fn stand(&self, state: u64, now: u64) {
        if state < STANDS {
            let stands = STANDS | reading(state, now).min(STANDS - 1);
            // Where this fails another thread has told the same.
            let _ = self
                .state
                .compare_exchange(state, stands, Ordering::SeqCst, Ordering::SeqCst);
        }
    }

    // The clocks go on from where they stand, if they do.
    fn go_on(&self, state: u64, now: Option<u64>) {
        if state >= STANDS {
            let stood = state - STANDS;
            let now = now.unwrap_or(stood);
            let lag = now.saturating_sub(stood);
            let caught_up = now.saturating_add(lag.saturating_mul(CATCHES_UP));
            self.state
                .store(caught_up.min(STANDS - 1), Ordering::SeqCst);
        }
    }

    // What the clocks read where the machine's, which was read before, reads this.
    pub(crate) fn reading_at(&self, now: u64) -> u64 {
        reading(self.state.load(Ordering::SeqCst), now)
    }
}

// What the clocks read in this state where the machine's reads that.
fn reading(state: u64, now: u64) -> u64 {
    if state >= STANDS {
        return state - STANDS;
    }
    now.saturating_sub(state.saturating_sub(now) / CATCHES_UP)
}
