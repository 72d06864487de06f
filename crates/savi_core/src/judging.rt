//! Ageing and judging: what frames tell, and what becomes of them.

ghost use Rattle.std.specs.Prelude.{◌≡◌, ◌≢◌, ◌<◌, ◌≤◌, ◌^◌, ℕ, true, false, List, All, fold, map, slice_get, IfSome, IsSomeAnd};
ghost use Rattle.std.specs.List.{flat_map};
ghost use Rattle.savi_kinds.specs.Ports.{number_of};
ghost use Rattle.savi_kinds.specs.Vlans.{vlans_of};
ghost use Rattle.savi_kinds.specs.declared.plan.Role.TheVariants.{Trusted};
ghost use Rattle.ra_guard.specs.GuardOf.{guard_of};
ghost use Rattle.savi_access.specs.Rules.{AccessBase};
ghost use Rattle.savi_access.specs.Marks.{Mark, told};
ghost use Rattle.savi_access.specs.Plans.{rules_of};
ghost use Rattle.savi_access.specs.Probes.{probes_between};
ghost use Rattle.addr_table.specs.Dues.{IsUndue, due_until};
ghost use Rattle.savi_access.specs.Judged.{drops};
ghost use Rattle.savi_history.specs.Judged.{long_by};
ghost use Rattle.savi_history.specs.Marks.{untold};
ghost use Rattle.savi_history.specs.Offers.{offer_of};
ghost use Rattle.savi_core.specs.Judges.{Judges, Ages, AgesUntil};
ghost use Rattle.savi_core.specs.Origins.{IsOrigin};
ghost use Rattle.savi_core.specs.Rings.{rings_after_probe, shut_in};
ghost use Rattle.savi_core.specs.VlanSets.{AllRepresent, AreAgedTo, IsQuietAt, IsStillAt, aged_addresses, first_due_of, stations_of_sets, vlan_of_place, vlans_of_sets};

use crate::ports::{Origin, Ports};
use crate::queues::Queues;
use crate::vlan_set::VlanSet;
use addr_table::ProbeSink;
use frame_class::Class;
use ra_guard::guard;
use savi_kinds::{Moment, Plan, Port, Role, Rule, Verdict};

/// Whether anything is due in any VLAN at or before `t` (ms). Nothing has changed. It costs what `AccessTable::is_due` does,
/// for each VLAN.
pub(crate) fn is_due(sets: &mut [VlanSet], t: Moment) -> bool
    ensures changes { result ≡ true → (place : ℕ) × IsSomeAnd (slice_get sets.old place) (λ set. aged_addresses t set.access.addresses ≢ set.access.addresses.rows) }
    ensures quiet { result ≡ false → All (IsQuietAt t) sets.old }
    ensures same { sets.new ≡ sets.old }
{
    for place in 0..sets.len() {
        let access = &mut sets[place].access;
        if access.is_due(t) {
            return true;
        }
    }
    false
}

/// Ages all states, which were aged to `from` (ms), to `t` (ms). The probes that fall due go to the queues, which count them
/// from 0 on, by the moment at which they are due, then by VLAN, then by address. It costs what `AccessTable::age_to` does,
/// and O(ports) for each probe; with more VLANs than one O(VLANs) for each moment at which something falls due.
pub(crate) fn age(sets: &mut [VlanSet], queues: &mut Queues, plan: &Plan, from: Moment, t: Moment)
    requires moment { t ≤ 2 ^ 62 }
    requires ready { AreAgedTo (rules_of plan.now) from sets.old }
    ensures ready { AreAgedTo (rules_of plan.now) t sets.new }
    ensures rest { stations_of_sets sets.new ≡ stations_of_sets sets.old }
    ensures aged { (base : AccessBase) (past : List Mark) → AllRepresent (rules_of plan.now) base past from sets.old → from ≤ t
        → Ages (rules_of plan.now) from t sets.new queues.old queues.new base past }
{
    queues.reset_counts();
    if sets.len() > 1 {
        age_in_rounds(sets, queues, plan, t);
    }
    age_each(sets, queues, plan, t);
}

// Ages all states to each moment, up to `t`, at which something is due in any VLAN, one moment after the other: so the
// probes of an earlier moment come first, and of one moment those of a lower VLAN.
fn age_in_rounds(sets: &mut [VlanSet], queues: &mut Queues, plan: &Plan, t: Moment)
    requires { t ≤ 2 ^ 62 }
    ensures rest { stations_of_sets sets.new ≡ stations_of_sets sets.old }
    ensures quiet { All (IsQuietAt t) sets.new }
    ensures ready { (from : ℕ) → AreAgedTo (rules_of plan.now) from sets.old → (until : ℕ) × AreAgedTo (rules_of plan.now) until sets.new }
    ensures aged { (from : ℕ) (base : AccessBase) (past : List Mark)
        → AreAgedTo (rules_of plan.now) from sets.old → AllRepresent (rules_of plan.now) base past from sets.old → from ≤ t
        → AgesUntil (rules_of plan.now) from t sets.new queues.old queues.new base past }
{
    let mut next = first_due(sets, t);
    while let Some(due) = next {
        age_each(sets, queues, plan, due);
        next = first_due(sets, t);
    }
}

// The moment (ms) at which something falls due first in any VLAN, if that isn't after `t` (ms). Nothing has changed.
fn first_due(sets: &mut [VlanSet], t: Moment) -> Option<Moment>
    ensures due { result ≡ due_until t (first_due_of sets.old) }
    ensures quiet { (u : ℕ) → IsUndue result t u → All (IsQuietAt u) sets.old }
    ensures later { IfSome result (λ due. (u : ℕ) → All (IsStillAt u) sets.old → u < due) }
    ensures same { sets.new ≡ sets.old }
{
    let mut first = None;
    for place in 0..sets.len() {
        let access = &mut sets[place].access;
        if let Some(due) = access.first_due(first.unwrap_or(t)) {
            first = Some(due);
        }
    }
    first
}

// Ages the states of each VLAN to `t`, one VLAN after the other.
fn age_each(sets: &mut [VlanSet], queues: &mut Queues, plan: &Plan, t: Moment)
    requires { t ≤ 2 ^ 62 }
    ensures ready { (from : ℕ) → AreAgedTo (rules_of plan.now) from sets.old → AreAgedTo (rules_of plan.now) t sets.new }
    ensures still { All (IsStillAt t) sets.new }
    ensures rest { stations_of_sets sets.new ≡ stations_of_sets sets.old }
    ensures kept { (from : ℕ) (base : AccessBase) (past : List Mark) → AllRepresent (rules_of plan.now) base past from sets.old → from ≤ t
        → AllRepresent (rules_of plan.now) base past t sets.new }
    ensures sent { (from : ℕ) (base : AccessBase) (past : List Mark) → AllRepresent (rules_of plan.now) base past from sets.old → from ≤ t
        → queues.new ≡ fold rings_after_probe queues.old
        (flat_map (λ vlan. map (offer_of vlan) (probes_between (rules_of plan.now).addresses base.addresses (told past) from t vlan)) (vlans_of_sets sets.old)) }
{
    for place in 0..sets.len() {
        let access = &mut sets[place].access;
        access.age_to(t, queues);
    }
}

/// The verdict on a frame with more octets than a frame may have, at this port. O(1).
pub(crate) fn judge_long(queues: &Queues, port: Port) -> Verdict
    ensures { result ≡ long_by (shut_in queues.now.shut (number_of port)) }
{
    if queues.is_shut(port) {
        Verdict::Drop(Rule::PortDown)
    } else {
        Verdict::Drop(Rule::Malformed)
    }
}

/// The verdict on a frame of this class, without its tag, from a port of the plan, at moment `t` (ms), to which all states
/// are aged first, from `from` (ms). At a shut port it is dropped and tells nothing; without a VLAN at the port it is
/// dropped too. Probes go to the queues, which count them from 0 on: those that fall due, and then the one that answers the
/// frame. It costs what `age` and `AccessTable::judge` do.
pub(crate) fn judge(
    sets: &mut [VlanSet],
    queues: &mut Queues,
    ports: &Ports,
    origin: Origin,
    class: &Class,
    from: Moment,
    t: Moment,
) -> Verdict
    requires vlans { vlans_of_sets sets.old ≡ vlans_of ports.now }
    requires origin { IsOrigin ports.now origin }
    requires moment { t ≤ 2 ^ 62 }
    requires ready { AreAgedTo (rules_of ports.now) from sets.old }
    ensures ready { AreAgedTo (rules_of ports.now) t sets.new }
    ensures rest { stations_of_sets sets.new ≡ stations_of_sets sets.old }
    ensures judged { (base : AccessBase) (past : List Mark) → AllRepresent (rules_of ports.now) base past from sets.old → from ≤ t
        → Judges (rules_of ports.now) from t (shut_in queues.old.shut (number_of origin.port)) origin.port (vlan_of_place ports.now origin.set) class.now sets.new queues.old queues.new result base past }
{
    let plan = ports.plan();
    age(sets, queues, plan, from, t);
    if queues.is_shut(origin.port) {
        return Verdict::Drop(Rule::PortDown);
    }
    let Some(set) = origin.set else {
        return Verdict::Drop(rule_without_vlan(plan, class));
    };
    let access = &mut sets[set].access;
    let judgement = access.judge(plan, origin.port, class, t);
    if let Some(sent) = judgement.probe {
        queues.take(access.vlan(), sent);
    }
    judgement.verdict
}

// The rule by which a frame of this class is dropped that has no VLAN at its port: one on its length or its Ethernet header,
// those that hold at each port, or else that on tags.
fn rule_without_vlan(plan: &Plan, class: &Class) -> Rule
    ensures { (past : List Mark) → untold past (guard_of Trusted plan.now.drop_unknown class.now) ≡ drops result past }
{
    guard(Role::Trusted, plan.drop_unknown, class).unwrap_or(Rule::Tagged)
}
