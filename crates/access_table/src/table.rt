//! The states of addresses and the open requests of a switch.

ghost use Rattle.std.specs.Prelude.{◌≡◌, ◌≢◌, ◌^◌, ◌<◌, ◌≤◌, ◌↔◌, ◌*◌, ◌∷◌, ℕ, [], List, Some, None, Option, IfOk, IfSome, IsTrue, OnOk, OnErr, false, fold, length, slice_get};
ghost use Rattle.std.specs.Option.{option_map};
ghost use Rattle.std.specs.Result.{result_err};
ghost use Rattle.savi_kinds.specs.Ports.{number_of};
ghost use Rattle.savi_kinds.specs.ValidPlan.{IsValidPlan};
ghost use Rattle.fcfs_states.specs.declared.event.Ev.{Ev};
ghost use Rattle.dhcp_states.specs.Requests.{request_of, open_at, requests_at_port, refusal, asker};
ghost use Rattle.mix_rules.specs.Premises.{IsLeaseInRange};
ghost use Rattle.addr_table.specs.Dues.{IsUndue, first_due, due_until};
ghost use Rattle.addr_table.specs.OneTurn.{IsQuiet};
ghost use Rattle.savi_access.specs.Rows.{state_in, count_at, pair_of};
ghost use Rattle.savi_access.specs.Ages.{aged_rows, AllStill};
ghost use Rattle.savi_access.specs.Sends.{sends};
ghost use Rattle.savi_access.specs.Rooms.{may_hold_more, IsFixable};
ghost use Rattle.savi_access.specs.Probes.{probes_between};
ghost use Rattle.savi_access.specs.Rules.{AccessRules, AccessBase, nothing_yet};
ghost use Rattle.savi_access.specs.Marks.{Mark, Asked, Met, told, open_requests};
ghost use Rattle.savi_access.specs.Plans.{rules_of};
ghost use Rattle.access_table.specs.Kept.{Represents, IsAgedTo};
ghost use Rattle.access_table.specs.Steps.{Hears, Moves};

use crate::plans::method_of;
use addr_table::{AddrTable, ProbeSink};
use dhcp_states::{Pending, Request};
use fcfs_states::{Answer, Ev, Times};
use mix_rules::AddrState;
use savi_kinds::{Addr, Moment, Plan, Port, Rule};
use std::alloc::{AllocError, Global};
use std::marker::Model;

/// The states of all addresses of a VLAN, and the open requests of its DHCPv6 clients.
///
/// The moments (ms) of calls don't fall, and before a frame is judged all states are aged to its moment, by `age_to`.
#[derive(Drop)]
pub struct AccessTable {
    vlan: u16,
    addresses: AddrTable,
    requests: Pending,
}

impl Model for AccessTable {
    ghost use Rattle.access_table.specs.Kept.{Kept};

    ghost Value = { Kept };

    ghost view = { λ a. record { vlan = a.vlan; addresses = a.addresses; requests = a.requests } };
}

impl AccessTable {
    /// Nothing was told of this VLAN yet. It takes all its memory here, O(addresses per port).
    pub fn make(alloc: Global, plan: &Plan, vlan: u16) -> Result<AccessTable, AllocError>
        requires { IsValidPlan plan.now }
        ensures vlan { IfOk result (λ table. table.vlan ≡ vlan) }
        ensures start { IfOk result (λ table. Represents (rules_of plan.now) nothing_yet [] 0 table) }
        ensures ready { IfOk result (λ table. (t : ℕ) → IsAgedTo (rules_of plan.now) t table) }
    {
        let times = Times {
            gap: plan.gap,
            test: plan.test,
            life: plan.life,
        };
        Ok(AccessTable {
            vlan,
            addresses: AddrTable::make(alloc, times, plan.per_port)?,
            requests: Pending::make(alloc)?,
        })
    }

    /// The VLAN whose addresses and requests these are. O(1).
    pub fn vlan(&self) -> u16
        ensures { result ≡ self.now.vlan }
    {
        self.vlan
    }

    /// Whether anything is due at or before `t` (ms), as `AddrTable::is_due` says it. Nothing has changed.
    pub fn is_due(&mut self, t: Moment) -> bool
        ensures changes { IsTrue result ↔ (aged_rows self.old.addresses.times t self.old.addresses.rows ≢ self.old.addresses.rows) }
        ensures unchanged { result ≡ false → aged_rows self.old.addresses.times t self.old.addresses.rows ≡ self.old.addresses.rows }
        ensures silent { result ≡ false → sends self.old.addresses.times t self.old.addresses.rows ≡ [] }
        ensures still { result ≡ false → AllStill self.old.addresses.times t self.old.addresses.rows }
        ensures same { self.new ≡ self.old }
    {
        self.addresses.is_due(t)
    }

    /// The moment (ms) at which something is due first, if that isn't after `t` (ms), as `AddrTable::first_due` says it.
    /// Nothing has changed.
    pub fn first_due(&mut self, t: Moment) -> Option<Moment>
        ensures due { result ≡ due_until t (first_due self.old.addresses.times self.old.addresses.rows) }
        ensures quiet { (u : ℕ) → IsUndue result t u → IsQuiet u self.old.addresses }
        ensures later { IfSome result (λ due. (u : ℕ) → AllStill self.old.addresses.times u self.old.addresses.rows → u < due) }
        ensures same { self.new ≡ self.old }
    {
        self.addresses.first_due(t)
    }

    /// How many addresses the port holds. O(1).
    pub fn count(&self, port: Port) -> u32
        ensures value { result ≡ count_at (number_of port) self.now.addresses.rows }
        ensures most { result ≤ self.now.addresses.per_port }
    {
        self.addresses.count(port)
    }

    /// How many addresses have a state. O(1).
    pub fn size(&self) -> u32
        ensures size { result ≡ length self.now.addresses.rows }
        ensures most { result ≤ 16 * self.now.addresses.per_port }
    {
        self.addresses.size()
    }

    /// The `i`-th of the addresses that have a state, in rising order, from 0, with its state: None exactly past the last
    /// one. O(1).
    pub fn row(&self, i: u32) -> Option<(Addr, AddrState)>
        ensures { result ≡ option_map pair_of (slice_get self.now.addresses.rows i) }
    {
        self.addresses.row(i)
    }

    /// How many requests of a port are open at moment `t` (ms), at most 16. O(16 times the number of ports).
    pub fn open_requests(&self, port: Port, t: Moment) -> u32
        ensures value { result ≡ requests_at_port (number_of port) (open_at t self.now.requests) }
        ensures most { result ≤ 16 }
    {
        self.requests.count(port, t)
    }

    /// The requests that are kept, the one asked last at the end: of these the open ones alone count. O(1).
    pub fn requests(&self) -> &[Request]
        ensures { result.now ≡ self.now.requests }
    {
        self.requests.as_slice()
    }

    // The state of an address. O(1) on average.
    pub(crate) fn state(&self, a: Addr) -> AddrState
        ensures { result ≡ state_in self.now.addresses.rows a.0 }
    {
        self.addresses.get(a)
    }

    // Whether the port holds fewer addresses than it may. O(1).
    pub(crate) fn has_room(&self, port: Port) -> bool
        ensures { result ≡ may_hold_more self.now.addresses.per_port self.now.addresses.rows port }
    {
        self.addresses.has_room(port)
    }

    // An event on an address of the VLAN, at t. It costs what `AddrTable::event` and `method_of` cost.
    pub(crate) fn tell(&mut self, plan: &Plan, a: Addr, ev: Ev, t: Moment) -> Option<Answer>
        requires plan { IsValidPlan plan.now }
        requires moment { t ≤ 2 ^ 62 }
        requires ready { IsAgedTo (rules_of plan.now) t self.old }
        requires lease { IsLeaseInRange ev }
        requires fixable { IsFixable self.old.addresses.per_port self.old.addresses.rows a.0 ev }
        ensures vlan { self.new.vlan ≡ self.old.vlan }
        ensures ready { IsAgedTo (rules_of plan.now) t self.new }
        ensures heard { Hears (rules_of plan.now) t self.old self.new a.0 ev result }
    {
        let method = method_of(plan, self.vlan, a)?;
        Some(self.addresses.event(a, method, ev, t))
    }

    // A client at a port of the VLAN asks for addresses: the request is refused by a rule, or opened or renewed.
    pub(crate) fn ask(&mut self, port: Port, tid: u32, duid: &[u8], t: Moment) -> Result<(), Rule>
        requires moment { t ≤ 2 ^ 62 }
        requires duid { length duid.now ≤ 130 }
        ensures vlan { self.new.vlan ≡ self.old.vlan }
        ensures addresses { self.new.addresses ≡ self.old.addresses }
        ensures refusal { result_err result ≡ refusal (number_of port) tid duid.now (open_at t self.old.requests) }
        ensures refused { OnErr result ((r : AccessRules) → Moves r t self.old self.new (λ base past. past)) }
        ensures asked { OnOk result ((r : AccessRules) → r.addresses.vlan_of (number_of port) ≡ Some self.old.vlan
            → Moves r t self.old self.new (λ base past. Asked self.old.vlan (request_of port tid duid.now t) ∷ past)) }
    {
        self.requests.request(port, tid, duid, t)
    }

    // Meets the open request of a client: the answer is the port that asked, and none where no request is open.
    pub(crate) fn meet(&mut self, tid: u32, duid: &[u8], t: Moment) -> Option<Port>
        requires moment { t ≤ 2 ^ 62 }
        ensures vlan { self.new.vlan ≡ self.old.vlan }
        ensures addresses { self.new.addresses ≡ self.old.addresses }
        ensures port { result ≡ asker tid duid.now (open_at t self.old.requests) }
        ensures none { result ≡ None → (r : AccessRules) → Moves r t self.old self.new (λ base past. past) }
        ensures met { IfSome result (λ port. (r : AccessRules) → Moves r t self.old self.new (λ base past. Met self.old.vlan t tid duid.now ∷ past)) }
    {
        self.requests.reply(tid, duid, t)
    }

    /// Ages all states to `t` (ms). The sink takes the probes of the VLAN that fall due by then, by moment and then by
    /// address: those of the time since the moment that the table stood for. It costs what `AddrTable::age_to` does.
    pub fn age_to<S: ProbeSink>(&mut self, t: Moment, sink: &mut S)
        requires { t ≤ 2 ^ 62 }
        ensures vlan { self.new.vlan ≡ self.old.vlan }
        ensures kept { (r : AccessRules) (base : AccessBase) (past : List Mark) (from : ℕ)
            → Represents r base past from self.old → from ≤ t → Represents r base past t self.new }
        ensures sent { (r : AccessRules) (base : AccessBase) (past : List Mark) (from : ℕ)
            → Represents r base past from self.old → from ≤ t
            → sink.new ≡ fold (λ taker sent. S.after taker self.old.vlan sent) sink.old
            (probes_between r.addresses base.addresses (told past) from t self.old.vlan) }
        ensures ready { (r : AccessRules) (from : ℕ) → IsAgedTo r from self.old → IsAgedTo r t self.new }
        ensures still { AllStill self.new.addresses.times t self.new.addresses.rows }
    {
        self.addresses.age_to(self.vlan, t, sink);
    }
}
