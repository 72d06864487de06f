//! How long what is sent waits for a peer.

use std::alloc::{AllocError, Global};
use std::sync::Arc;
use std::sync::atomic::{AtomicBool, AtomicU64, Ordering};
use std::time::Duration;

/// So long a sink waits for its peer at once, in ms.
const STEP_MS: u64 = 10;

/// So long such a step counts, in microseconds: by the ticks of the system's timers it takes 10 to 17 ms.
const STEP_MICROS: u64 = 15_000;

/// So long the outputs of a run may be awaited while peers rest, in microseconds: two seconds.
const MOST_MICROS: u64 = 2_000_000;

/// Up to so long again once that is used up, in microseconds.
const LATER_MICROS: u64 = 200_000;

/// Of the time for which the outputs aren't awaited this part is won back.
const SERVED_PART: u64 = 16;

/// Whether the inputs of a run wait until all that was sent is written, and how long they may still wait so for peers that
/// rest. Who serves the ends tells the former, and then the sinks of the run wait for two seconds at most in all. Once these are used
/// up they come back by a sixteenth of the time for which nobody waits for the outputs, up to a fifth of a second.
///
/// So peers that rest, however many they are, hold the inputs up for two seconds, and then for a sixteenth of the time.
/// Steps that two sinks take in the same moment may count as one.
#[derive(Drop)]
pub struct OutputsAwaited {
    is_so: AtomicBool,
    // when that was told last, in microseconds
    told_at: AtomicU64,
    // how long the sinks may wait, in microseconds
    left: AtomicU64,
}

impl OutputsAwaited {
    /// Nobody waits for the outputs yet. `Err` is want of memory.
    pub fn make(alloc: Global) -> Result<Arc<OutputsAwaited, Global>, AllocError> {
        let awaited = OutputsAwaited {
            is_so: AtomicBool::new(false),
            told_at: AtomicU64::new(0),
            left: AtomicU64::new(MOST_MICROS),
        };
        Ok(Arc::new(alloc, awaited)?)
    }

    /// Tells at this time (microseconds since the start of the run) whether they are waited for. What was told last may be
    /// told again, and changes nothing. O(1).
    pub fn tell(&self, is_so: bool, now: u64) {
        if self.is_so.load(Ordering::SeqCst) == is_so {
            return;
        }
        let since = now.saturating_sub(self.told_at.swap(now, Ordering::SeqCst));
        if is_so {
            self.win_back(since / SERVED_PART);
        }
        self.is_so.store(is_so, Ordering::SeqCst);
    }

    // Lets the sinks wait so many microseconds longer, up to `LATER_MICROS` in all.
    fn win_back(&self, more: u64) {
        let left = self.left.load(Ordering::SeqCst);
        if left < LATER_MICROS {
            let left = left.saturating_add(more).min(LATER_MICROS);
            self.left.store(left, Ordering::SeqCst);
        }
    }

    // Whether a sink may wait a step, which is used up then where the outputs are awaited.
    fn takes_step(&self) -> bool {
        if !self.is_so.load(Ordering::SeqCst) {
            return true;
        }
        let left = self.left.load(Ordering::SeqCst);
        if left < STEP_MICROS {
            return false;
        }
        // Where this fails another sink takes a step in the same moment, and they wait beside each other.
        let _ = self.left.compare_exchange(
            left,
            left - STEP_MICROS,
            Ordering::SeqCst,
            Ordering::SeqCst,
        );
        true
    }
}

/// How long a sink still waits for its peer: for as long as it takes, but while the outputs are awaited as long as these may
/// be; for a peer that hasn't come until that is used up once.
#[derive(Drop)]
pub(crate) struct Patience {
    awaited: Arc<OutputsAwaited, Global>,
    // whether a peer that hasn't come is waited for while the outputs are awaited
    expects_peer: bool,
    // whether the peer rested when it was waited for last
    has_run_out: bool,
}

impl Patience {
    /// That of a sink whose peer wasn't waited for yet.
    pub fn new(awaited: Arc<OutputsAwaited, Global>) -> Patience {
        Patience {
            awaited,
            expects_peer: true,
            has_run_out: false,
        }
    }

    /// How long a step is.
    pub fn step() -> Duration {
        Duration::from_millis(STEP_MS)
    }

    /// Whether the sink may write, which may take a step: that is used up where the peer rested before.
    pub fn may_begin(&self) -> bool {
        !self.has_run_out || self.awaited.takes_step()
    }

    /// Whether the sink may wait a step for its peer to take more.
    pub fn takes_step(&mut self) -> bool {
        self.has_run_out = !self.awaited.takes_step();
        !self.has_run_out
    }

    /// Whether it may wait a step for its peer to come.
    pub fn takes_step_to_meet(&mut self) -> bool {
        if !self.awaited.is_so.load(Ordering::SeqCst) {
            return true;
        }
        self.expects_peer = self.expects_peer && self.awaited.takes_step();
        self.expects_peer
    }

    /// The peer has taken all.
    pub fn is_renewed(&mut self) {
        self.has_run_out = false;
    }
}
