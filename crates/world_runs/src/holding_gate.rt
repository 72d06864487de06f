//! A gate that holds the workers of a session back.

use live_turns::Gate;
use std::alloc::{AllocError, Global};
use std::sync::Wait;
use std::sync::atomic::{AtomicU64, Ordering};
use std::time::Duration;

/// How often a turn is looked for again at most, and how long each sleep before that takes: 20 s in all.
const LOOKS_MOST: u32 = 20_000;

const SLEEP_MS: u64 = 1;

/// A turn of a pass that isn't taken before another pass has come by for a turn of its own.
#[derive(Clone, Copy, Drop)]
pub struct Hold {
    pub pass: u32,
    pub turn: u64,
    pub until: u32,
    pub until_turn: u64,
}

/// Holds these turns back. It lets one go after 20 s, knows that it has given up then, and holds no other one any more.
#[derive(Drop)]
pub struct HoldingGate {
    holds: Vec<Hold>,
    // For each pass the turn for which it came by last.
    came: Vec<AtomicU64>,
    // 1 where a turn was let go after 20 s.
    given_up: AtomicU64,
}

impl HoldingGate {
    /// A gate for so many passes.
    pub fn make(alloc: Global, holds: Vec<Hold>, passes: u32) -> Result<HoldingGate, AllocError> {
        let mut came = Vec::new(alloc);
        for _ in 0..passes {
            came.push(AtomicU64::new(0))?;
        }
        Ok(HoldingGate {
            holds,
            came,
            given_up: AtomicU64::new(0),
        })
    }

    /// Whether a turn was let go though the other pass hadn't come by.
    pub fn has_given_up(&self) -> bool {
        self.given_up.load(Ordering::SeqCst) > 0
    }

    // Whether a pass has come by for this turn.
    fn has_come(&self, pass: u32, turn: u64) -> bool {
        match self.came.get(pass as usize) {
            Some(came) => came.load(Ordering::SeqCst) >= turn,
            None => true,
        }
    }

    // Sleeps until a pass has come by for this turn, or for 20 s.
    fn wait_for<R: Wait>(&self, rt: &R, pass: u32, turn: u64) {
        let idle = AtomicU64::new(0);
        for _ in 0..LOOKS_MOST {
            if self.has_come(pass, turn) || self.has_given_up() {
                return;
            }
            idle.park_timeout(rt, 0, Duration::from_millis(SLEEP_MS));
        }
        self.given_up.store(1, Ordering::SeqCst);
    }
}

impl Gate for HoldingGate {
    fn pass_by<R: Wait>(&self, rt: &R, pass: u32, turn: u64) {
        if let Some(came) = self.came.get(pass as usize) {
            came.store(turn, Ordering::SeqCst);
        }
        for hold in &self.holds {
            if hold.pass == pass && hold.turn == turn {
                self.wait_for(rt, hold.until, hold.until_turn);
            }
        }
    }

    fn inputs_wait(&self, _is_so: bool) {}
}
