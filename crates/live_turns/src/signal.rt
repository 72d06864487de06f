//! That there is no room in a segment's history any more, told to who sleeps.

use crate::gate::Gate;
use arrayvec::ArrayVec;
use savi_kinds::PORTS_MOST;
use sleeper::Sleeper;
use std::alloc::Global;
use std::sync::Arc;
use std::sync::atomic::{AtomicBool, Ordering};

/// So many inputs a session has at most: one for each port, and control.
pub const INPUTS_MOST: usize = PORTS_MOST + 1;

/// The places at which the inputs of a session sleep, each at its ring, and none of them `None`.
pub type Sleepers = ArrayVec<Option<Arc<Sleeper, Global>>, INPUTS_MOST>;

/// Tells the inputs of a session that there is no room in the history of a segment, so that each of them pauses its pass. It
/// takes no memory.
///
/// Who finds no room raises it, and it is lowered in front of the next segment. Nothing but time depends on it, as on a
/// sleep: whether there is room is asked of the core, in a turn. So no call here has a clause.
#[derive(Drop)]
pub struct PauseSignal {
    raised: AtomicBool,
    sleepers: Sleepers,
}

impl PauseSignal {
    /// A signal that isn't raised, for who sleeps at these places.
    pub fn new(sleepers: Sleepers) -> PauseSignal {
        PauseSignal {
            raised: AtomicBool::new(false),
            sleepers,
        }
    }

    /// Raises the signal, tells the gate, and wakes all of them behind that. O(17), and a call of the system for each of
    /// them that sleeps in it.
    pub fn raise<G: Gate>(&self, gate: &G) {
        self.raised.store(true, Ordering::SeqCst);
        gate.inputs_wait(true);
        for sleeper in self.sleepers.as_slice() {
            if let Some(sleeper) = sleeper {
                sleeper.wake();
            }
        }
    }

    /// Whether the signal is raised. O(1).
    pub fn is_raised(&self) -> bool {
        self.raised.load(Ordering::SeqCst)
    }

    /// Lowers the signal, while nobody works on a segment, and tells the gate. O(1).
    pub fn lower<G: Gate>(&self, gate: &G) {
        self.raised.store(false, Ordering::SeqCst);
        gate.inputs_wait(false);
    }
}
