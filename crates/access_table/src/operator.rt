//! The commands of an operator on addresses.

ghost use Rattle.std.specs.Prelude.{◌≡◌, ◌↔◌, ◌||◌, ◌^◌, ◌≤◌, IsSome, IsTrue, Some, is_some};
ghost use Rattle.savi_kinds.specs.Ports.{number_of};
ghost use Rattle.savi_kinds.specs.ValidPlan.{IsValidPlan};
ghost use Rattle.savi_kinds.specs.Vlans.{access_vlan};
ghost use Rattle.savi_kinds.specs.declared.port.Port.{Port};
ghost use Rattle.fcfs_states.specs.declared.event.Ev.TheVariants.{Fix, Clear};
ghost use Rattle.mix_rules.specs.States.{has_state, is_held_at};
ghost use Rattle.savi_access.specs.Rows.{state_in};
ghost use Rattle.savi_access.specs.Rooms.{may_hold_more, IsFixable};
ghost use Rattle.savi_access.specs.Judged.{with_event};
ghost use Rattle.savi_access.specs.Plans.{rules_of};
ghost use Rattle.access_table.specs.Kept.{IsMadeWith, IsAgedTo};
ghost use Rattle.access_table.specs.Steps.{Moves};

use crate::plans::method_of;
use crate::table::AccessTable;
use fcfs_states::Ev;
use savi_kinds::{Addr, Moment, Plan, Port};

/// Whether an address is on-link in a VLAN: link-local, or in a prefix of the plan that is of the VLAN. O(prefixes), at most
/// 32.
pub fn is_on_link(plan: &Plan, vlan: u16, a: Addr) -> bool
    requires { IsValidPlan plan.now }
    ensures value { result ≡ is_some ((rules_of plan.now).addresses.method_of vlan a.0) }
    ensures on_link { IsTrue result ↔ IsSome ((rules_of plan.now).addresses.method_of vlan a.0) }
{
    method_of(plan, vlan, a).is_some()
}

impl AccessTable {
    /// Whether an address has a state, so that the operator may clear it. O(1) on average.
    pub fn has_state(&self, a: Addr) -> bool
        ensures { result ≡ has_state (state_in self.now.addresses.rows a.0) }
    {
        !self.state(a).is_none()
    }

    /// Whether the operator may fix the address to the port: it has room, or holds the address already. O(1) on average.
    pub fn may_fix(&self, a: Addr, port: Port) -> bool
        ensures value { result ≡ (may_hold_more self.now.addresses.per_port self.now.addresses.rows port || is_held_at (number_of port) (state_in self.now.addresses.rows a.0)) }
        ensures fixable { IsTrue result ↔ IsFixable self.now.addresses.per_port self.now.addresses.rows a.0 (Fix port) }
    {
        self.has_room(port) || self.state(a).holds(port)
    }

    /// Binds an on-link address to a port of a host or a server of the table's VLAN for good, at moment `t` (ms), to which
    /// all states are aged. The plan is the one that the table was made with. It costs what `AddrTable::event` does, and
    /// O(prefixes).
    pub fn fix(&mut self, plan: &Plan, a: Addr, port: Port, t: Moment)
        requires plan { IsValidPlan plan.now }
        requires made { IsMadeWith (rules_of plan.now) self.old }
        requires vlan { access_vlan plan.now (number_of port) ≡ Some self.old.vlan }
        requires moment { t ≤ 2 ^ 62 }
        requires ready { IsAgedTo (rules_of plan.now) t self.old }
        requires on_link { IsSome ((rules_of plan.now).addresses.method_of self.old.vlan a.0) }
        requires fixable { IsFixable self.old.addresses.per_port self.old.addresses.rows a.0 (Fix port) }
        ensures vlan { self.new.vlan ≡ self.old.vlan }
        ensures ready { IsAgedTo (rules_of plan.now) t self.new }
        ensures told { Moves (rules_of plan.now) t self.old self.new (λ base past. with_event (rules_of plan.now) base self.old.vlan port t a.0 (Fix port) past) }
    {
        self.tell(plan, a, Ev::Fix(port), t);
    }

    /// Forgets the state of an address that has one, at moment `t` (ms), to which all states are aged. The plan
    /// is the one that the table was made with. It costs what `AddrTable::event` does, and O(prefixes).
    pub fn clear(&mut self, plan: &Plan, a: Addr, t: Moment)
        requires plan { IsValidPlan plan.now }
        requires made { IsMadeWith (rules_of plan.now) self.old }
        requires moment { t ≤ 2 ^ 62 }
        requires ready { IsAgedTo (rules_of plan.now) t self.old }
        requires state { IsTrue (has_state (state_in self.old.addresses.rows a.0)) }
        ensures vlan { self.new.vlan ≡ self.old.vlan }
        ensures ready { IsAgedTo (rules_of plan.now) t self.new }
        ensures told { (port : Port) → Moves (rules_of plan.now) t self.old self.new (λ base past. with_event (rules_of plan.now) base self.old.vlan port t a.0 Clear past) }
    {
        self.tell(plan, a, Ev::Clear, t);
    }
}
