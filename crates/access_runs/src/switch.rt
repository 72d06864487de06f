//! A table of states and requests, with what a frame at a port comes to.

ghost use Rattle.std.specs.Prelude.{◌≡◌, ◌≢◌, ◌≤◌, ◌^◌, ℕ, true, Some, IfOk};
ghost use Rattle.savi_kinds.specs.Ports.{number_of};
ghost use Rattle.savi_kinds.specs.Vlans.{access_vlan, vlan_by};
ghost use Rattle.savi_kinds.specs.ValidPlan.{IsValidPlan};
ghost use Rattle.savi_kinds.specs.declared.plan.Role.TheVariants.{Trusted};
ghost use Rattle.savi_access.specs.Plans.{rules_of, role_of};
ghost use Rattle.access_table.specs.Kept.{IsAgedTo};

use access_table::AccessTable;
use addr_table::ProbeSink;
use frame_class::seen;
use savi_access::SentProbe;
use savi_kinds::{
    DEFAULT_VLAN, FRAME_OCTETS_MOST, Moment, Plan, Port, PortPlan, Role, Verdict, Vlan,
};
use std::alloc::{AllocError, Global};

/// What lets probes go.
#[derive(Drop)]
struct Silent;

impl ProbeSink for Silent {
    ghost after = { λ silent vlan sent. silent };

    fn take(&mut self, _vlan: u16, _sent: SentProbe) {}
}

/// Nothing was told yet, in the VLAN of ports for which none is named.
pub fn at_start(alloc: Global, plan: &Plan) -> Result<AccessTable, AllocError>
    requires { IsValidPlan plan.now }
    ensures { IfOk result (λ table. (from : ℕ) × IsAgedTo (rules_of plan.now) from table) }
{
    AccessTable::make(alloc, plan, DEFAULT_VLAN)
}

/// Ages all states to `t` (ms).
pub fn age(table: &mut AccessTable, plan: &Plan, t: Moment)
    requires moment { t ≤ 2 ^ 62 }
    requires ready { (from : ℕ) × IsAgedTo (rules_of plan.now) from table.old }
    ensures { IsAgedTo (rules_of plan.now) t table.new }
{
    let mut sink = Silent;
    table.age_to(t, &mut sink);
}

/// The verdict on a frame at a port at `t` (ms), or none where it is too long, or where the port is none of the plan's or
/// of another VLAN.
pub fn verdict_on(
    table: &mut AccessTable,
    plan: &Plan,
    port: Port,
    t: Moment,
    octets: &[u8],
) -> Option<Verdict>
    requires plan { IsValidPlan plan.now }
    requires moment { t ≤ 2 ^ 62 }
    requires ready { (from : ℕ) × IsAgedTo (rules_of plan.now) from table.old }
    ensures { IsAgedTo (rules_of plan.now) t table.new }
{
    age(table, plan, t);
    if octets.len() > FRAME_OCTETS_MOST || !is_judged(plan, table.vlan(), port) {
        return None;
    }
    let seen = seen(octets);
    Some(table.judge(plan, port, &seen.class, t).verdict)
}

// Whether a port is one of the plan's, and trusted or of this VLAN.
fn is_judged(plan: &Plan, vlan: u16, port: Port) -> bool
    ensures { result ≡ true → role_of plan.now (number_of port) ≢ Trusted → access_vlan plan.now (number_of port) ≡ Some vlan }
{
    for p in plan.ports.as_slice() {
        if p.number.get() == port.get() {
            return is_trusted_or_of(p, vlan);
        }
    }
    false
}

// Whether a port is trusted or an access port of this VLAN.
fn is_trusted_or_of(port: &PortPlan, vlan: u16) -> bool
    ensures { result ≡ true → port.now.role ≢ Trusted → vlan_by port.now.role port.now.vlan ≡ Some vlan }
{
    match port.vlan {
        Vlan::Access(own) => port.role == Role::Trusted || own == vlan,
        Vlan::Trunk(_) => port.role == Role::Trusted,
    }
}
