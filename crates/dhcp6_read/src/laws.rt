//! The reading of a message as a function. The function here does nothing: its contract is the law.

ghost use Rattle.std.specs.Prelude.{◌≡◌, ℕ, List, Result};
ghost use Rattle.dhcp6_read.specs.declared.message.Dhcp.{Dhcp};
ghost use Rattle.dhcp6_read.specs.declared.message.DhcpFault.{DhcpFault};
ghost use Rattle.dhcp6_read.specs.Message.{Reads};
ghost use Rattle.dhcp6_read.specs.DhcpOf.{dhcp_of};

/// Each message has one reading, and `dhcp_of` computes it: what the message says, or the fault that comes first in it.
pub fn a_message_has_its_reading()
    ensures reading { (message : List ℕ) → Reads message (dhcp_of message) }
    ensures only { (message : List ℕ) (other : Result Dhcp DhcpFault) → Reads message other → other ≡ dhcp_of message }
{}
