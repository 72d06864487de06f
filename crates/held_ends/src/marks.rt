//! What the ends and the passes of a session have come to.

use std::sync::atomic::{AtomicU64, Ordering};
use std::thread;
use std::time::Duration;

/// How often a mark is looked for again at most, and how long each sleep before that takes: 20 s in all.
const LOOKS_MOST: u32 = 20_000;

const SLEEP_MS: u64 = 1;

/// The last turn of the input of a port that brings two records and ends. Where its pass comes by for that turn both are
/// entered.
pub const LAST_TURN: u64 = 3;

/// What the ends and the passes of a session have come to, each as a number that only grows.
#[derive(Drop)]
pub struct Marks {
    /// The turns for which the passes of the ports' inputs came by last.
    pub turn_of_1: AtomicU64,
    pub turn_of_2: AtomicU64,
    pub turn_of_3: AtomicU64,
    /// How often the source of port 1 was asked for a record, and how often it had been when its ring was full.
    pub asked: AtomicU64,
    pub asked_when_full: AtomicU64,
    /// 1 once the sink of port 3 was given the first frame of port 1.
    pub given_of_1: AtomicU64,
    /// 1 once the sink of port 3 was given the first frame of port 2.
    pub given: AtomicU64,
    /// 1 once the sink of control was given a reply.
    pub replied: AtomicU64,
    /// 1 once the ticker's clock was told to wait.
    pub waited: AtomicU64,
    /// 1 once the journal's sink has taken the line that ends the first segment.
    pub closed: AtomicU64,
    /// 1 each once the pass of the input of port 1, or of port 2, has come by for a turn behind that.
    pub anew_of_1: AtomicU64,
    pub anew_of_2: AtomicU64,
    // 1 once a wait has given up.
    given_up: AtomicU64,
}

impl Marks {
    /// Nothing has come yet.
    pub fn new() -> Marks {
        Marks {
            turn_of_1: AtomicU64::new(0),
            turn_of_2: AtomicU64::new(0),
            turn_of_3: AtomicU64::new(0),
            asked: AtomicU64::new(0),
            asked_when_full: AtomicU64::new(0),
            given_of_1: AtomicU64::new(0),
            given: AtomicU64::new(0),
            replied: AtomicU64::new(0),
            waited: AtomicU64::new(0),
            closed: AtomicU64::new(0),
            anew_of_1: AtomicU64::new(0),
            anew_of_2: AtomicU64::new(0),
            given_up: AtomicU64::new(0),
        }
    }

    /// The turn for which the pass of this port's input came by last.
    pub fn turn_of(&self, number: u8) -> &AtomicU64 {
        match number {
            1 => &self.turn_of_1,
            2 => &self.turn_of_2,
            _ => &self.turn_of_3,
        }
    }

    /// Sleeps until a mark has come to this number, or for 20 s. Once a wait has given up each other one does so too.
    pub fn wait_for(&self, rt: HostRuntime, mark: &AtomicU64, number: u64) {
        for _ in 0..LOOKS_MOST {
            if mark.load(Ordering::SeqCst) >= number || self.has_given_up() {
                return;
            }
            thread::sleep(&rt, Duration::from_millis(SLEEP_MS));
        }
        self.given_up.store(1, Ordering::SeqCst);
    }

    /// Whether a wait was in vain.
    pub fn has_given_up(&self) -> bool {
        self.given_up.load(Ordering::SeqCst) > 0
    }
}
