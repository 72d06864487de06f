//! One row.

use mix_rules::AddrState;
use savi_kinds::Addr;

/// An address that has a state, and the state.
#[derive(Clone, Copy, PartialEq, Eq, Debug)]
pub struct Row {
    /// The address.
    pub address: Addr,
    /// Its state, which isn't `AddrState::none()`.
    pub state: AddrState,
}
