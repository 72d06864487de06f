//! The turns of a session, told to its gate.

use live_turns::Gate;
use std::alloc::{AllocError, Global};
use std::sync::Wait;
use std::sync::atomic::{AtomicU64, Ordering};

/// A session has so many passes at most.
const PASSES_MOST: usize = 34;

/// How many turns each pass has taken so far, in all segments.
#[derive(Drop)]
pub(crate) struct TurnCounts {
    taken: Vec<AtomicU64>,
}

impl TurnCounts {
    /// No pass has taken a turn. `Err` is want of memory.
    pub(crate) fn make(alloc: Global) -> Result<TurnCounts, AllocError> {
        let mut taken = Vec::with_capacity(alloc, PASSES_MOST)?;
        for _ in 0..PASSES_MOST {
            taken.push_reserved(AtomicU64::new(0));
        }
        Ok(TurnCounts { taken })
    }
}

/// The gate of a session, which numbers the turns of a pass through all segments.
#[derive(Drop)]
pub(crate) struct SessionGate<'a, G> {
    pub(crate) gate: &'a G,
    pub(crate) counts: &'a TurnCounts,
}

impl<'a, G: Gate> Gate for SessionGate<'a, G> {
    // A pass is served by one thread at a time, so that none counts beside another.
    fn pass_by<R: Wait>(&self, rt: &R, pass: u32, _turn: u64) {
        if let Some(taken) = self.counts.taken.get(pass as usize) {
            let turn = taken.load(Ordering::SeqCst).saturating_add(1);
            taken.store(turn, Ordering::SeqCst);
            self.gate.pass_by(rt, pass, turn);
        }
    }

    fn inputs_wait(&self, is_so: bool) {
        self.gate.inputs_wait(is_so);
    }
}
