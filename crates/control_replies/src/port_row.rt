//! What is told of a port.

ghost use Rattle.std.specs.Prelude.{◌≡◌, ◌≤◌, length};
ghost use Rattle.control_replies.specs.Shows.{shut_word};

use savi_kinds::{Port, Role};

/// A port of the plan, as `show ports` tells it.
#[derive(Clone, Copy, PartialEq, Eq, Debug)]
pub struct PortRow {
    /// The port.
    pub number: Port,
    /// Its role.
    pub role: Role,
    /// Whether the operator has shut it.
    pub is_shut: bool,
    /// How many addresses it holds.
    pub held: u64,
    /// How many DHCPv6 requests are open there.
    pub pending: u64,
    /// How many items wait in its queue.
    pub queued: u64,
}

impl PortRow {
    // The word for whether it is shut: `down` or `up`.
    pub(crate) fn shut_word(&self) -> &'static str
        ensures word { result.now ≡ shut_word self.now.is_shut }
        ensures short { length result.now ≤ 4 }
    {
        if self.is_shut { "down" } else { "up" }
    }
}
