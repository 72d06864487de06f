//! The reading of a message as a function. The function here does nothing: its contract is the law.

ghost use Rattle.std.specs.Prelude.{◌≡◌, ℕ, List, Result};
ghost use Rattle.v6_chain.specs.declared.packet.Ip.{Ip};
ghost use Rattle.nd_read.specs.declared.message.Nd.{Nd};
ghost use Rattle.nd_read.specs.declared.message.NdFault.{NdFault};
ghost use Rattle.nd_read.specs.Tests.{Reads};
ghost use Rattle.nd_read.specs.NdOf.{nd_of};

/// Each message has one reading, and `nd_of` computes it: the type of the message with what it names, or the fault of the
/// first of its tests that fails (RFC 4861 sections 6.1.1, 7.1.1 and 7.1.2).
pub fn a_message_has_its_reading()
    ensures reading { (ip : Ip) (message : List ℕ) → Reads ip message (nd_of ip message) }
    ensures only { (ip : Ip) (message : List ℕ) (other : Result Nd NdFault) → Reads ip message other → other ≡ nd_of ip message }
{}
