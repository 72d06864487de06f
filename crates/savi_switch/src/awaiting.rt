//! What the ends of a run look at when its inputs wait, and the gate that tells it.

use live_turns::Gate;
use port_ends::Pauses;
use socket_ends::OutputsAwaited;
use std::alloc::{AllocError, Global};
use std::sync::{Arc, Wait};
use std::time::Clock as Timer;

/// So many ns are a microsecond.
const NANOS: u64 = 1_000;

/// What sinks over sockets and clocks look at when the inputs of a run wait.
#[derive(Drop)]
pub struct Awaiting {
    pub outputs: Arc<OutputsAwaited, Global>,
    pub pauses: Arc<Pauses, Global>,
}

impl Awaiting {
    /// That of a run that begins now. `Err` is want of memory.
    pub fn make<R: Timer>(rt: &R, alloc: Global) -> Result<Awaiting, AllocError> {
        Ok(Awaiting {
            outputs: OutputsAwaited::make(alloc)?,
            pauses: Pauses::make(rt, alloc)?,
        })
    }

    /// The same again. `Err` is want of memory.
    pub fn shared(&self) -> Result<Awaiting, AllocError> {
        Ok(Awaiting {
            outputs: Arc::try_clone(&self.outputs)?,
            pauses: Arc::try_clone(&self.pauses)?,
        })
    }
}

/// Tells the sinks over sockets and the clocks when the inputs wait, and holds nobody up.
#[derive(Drop)]
pub struct AwaitingGate<'a> {
    pub host: HostRuntime,
    pub awaiting: &'a Awaiting,
}

impl<'a> Gate for AwaitingGate<'a> {
    fn pass_by<R: Wait>(&self, _rt: &R, _pass: u32, _turn: u64) {}

    fn inputs_wait(&self, is_so: bool) {
        let now = self.awaiting.pauses.tell(&self.host, is_so);
        self.awaiting.outputs.tell(is_so, now / NANOS);
    }
}
