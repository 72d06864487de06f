//! What waits.

use savi_kinds::{Addr, Moment};

/// An item that waits at an egress port.
#[derive(Clone, Copy, PartialEq, Eq, Debug)]
pub enum Item {
    /// The frame of the entry with this number.
    Frame(u64),
    /// A probe for this target in the VLAN of this number, with the moment (ms) at which it fell due.
    Probe { due: Moment, target: Addr, vid: u16 },
}
