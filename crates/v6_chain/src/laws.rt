//! The outcome of a chain as a function. The function here does nothing: its contract is the law.

ghost use Rattle.std.specs.Prelude.{◌≡◌, ℕ, List};
ghost use Rattle.v6_chain.specs.declared.packet.Ip.{Ip};
ghost use Rattle.v6_chain.specs.declared.outcome.Chain.{Chain};
ghost use Rattle.v6_chain.specs.Outcome.{IsOutcome};
ghost use Rattle.v6_chain.specs.ChainOf.{chain_of};

/// The chain of each packet has one outcome, and `chain_of` computes it (RFC 8200 section 4, RFC 7112).
pub fn a_chain_has_its_outcome()
    ensures outcome { (ip : Ip) (payload : List ℕ) → IsOutcome ip payload (chain_of ip payload) }
    ensures only { (ip : Ip) (payload : List ℕ) (other : Chain) → IsOutcome ip payload other → other ≡ chain_of ip payload }
{}
