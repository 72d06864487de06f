//! A probe on its way.

use fcfs_states::Probe;
use savi_kinds::{Addr, Moment};

/// A probe that fell due.
#[derive(Clone, Copy, PartialEq, Eq, Debug)]
pub struct SentProbe {
    /// The moment (ms) at which it is due.
    pub due: Moment,
    /// The address that it asks for.
    pub address: Addr,
    /// Where it goes.
    pub probe: Probe,
}
