//! The law on what may still fall due. The function does nothing: its contract is the law.

ghost use Rattle.std.specs.Prelude.{ℕ, ◌+◌, ◌*◌, ◌<◌, ◌≤◌, length, List};
ghost use Rattle.fcfs_states.specs.Premises.{AreTimes};
ghost use Rattle.mix_rules.specs.declared.state.AddrState.{AddrState};
ghost use Rattle.savi_access.specs.Bases.{AddrRules, AddrBase, AreTables};
ghost use Rattle.savi_access.specs.NamedMarks.{Named, last_moment};
ghost use Rattle.savi_access.specs.Tables.{rows_at};
ghost use Rattle.savi_access.specs.Probes.{probes_between, HasChanged};
ghost use Rattle.savi_access.specs.Limits.{IsAddrBase, IsPast};
ghost use Rattle.addr_table.specs.Turns.{turns_of, turns_left};

/// What may still fall due falls: each probe takes one off it, and so does each change of a state. An address has at most
/// six such things to come, so no VLAN has more than 96 times what a port may hold.
pub fn what_may_fall_due_falls()
    ensures probes { (r : AddrRules) (base : AddrBase) (past : List Named) (t u vlan : ℕ)
        → AreTimes r.times → AreTables base → t ≤ u
        → turns_left (rows_at r base past u vlan) + length (probes_between r base past t u vlan)
        ≤ turns_left (rows_at r base past t vlan) }
    ensures changes { (r : AddrRules) (base : AddrBase) (past : List Named) (t u vlan : ℕ)
        → AreTimes r.times → AreTables base → t ≤ u
        → HasChanged r base past t u vlan
        → turns_left (rows_at r base past u vlan) < turns_left (rows_at r base past t vlan) }
    ensures each { (state : AddrState) → turns_of state ≤ 6 }
    ensures most { (r : AddrRules) (base : AddrBase) (past : List Named) (t vlan : ℕ)
        → IsAddrBase r base → IsPast r base past → last_moment base past ≤ t
        → turns_left (rows_at r base past t vlan) ≤ 96 * r.per_port }
{}
