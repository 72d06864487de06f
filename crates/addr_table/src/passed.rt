// One turn of ageing.

use fcfs_states::Probe;
use savi_kinds::{Addr, Moment};

/// What was due first in the state of an address, and came to pass.
#[derive(Clone, Copy, PartialEq, Eq, Debug)]
pub(crate) struct Passed {
    /// The moment (ms) at which it was due.
    pub due: Moment,
    /// The address.
    pub address: Addr,
    /// The probe that it sent, if any.
    pub probe: Option<Probe>,
}
