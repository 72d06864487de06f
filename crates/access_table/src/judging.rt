//! The judgement of frames, step by step.

ghost use Rattle.std.specs.Prelude.{◌≡◌, ◌≢◌, ◌^◌, ◌≤◌, Some, if◌then◌else◌};
ghost use Rattle.savi_kinds.specs.Ports.{number_of};
ghost use Rattle.savi_kinds.specs.ValidPlan.{IsValidPlan};
ghost use Rattle.savi_kinds.specs.Vlans.{access_vlan};
ghost use Rattle.savi_kinds.specs.declared.port.Port.{Port};
ghost use Rattle.savi_kinds.specs.declared.plan.Role.TheVariants.{Trusted};
ghost use Rattle.savi_access.specs.Rooms.{port_of as event_port};
ghost use Rattle.savi_access.specs.Limits.{IsOfVlan};
ghost use Rattle.savi_access.specs.Judged.{judged, validated, trusted, from_unspecified, sourced, message, to_server, to_client_or_other, replied, asked, answered, with_events, is_on_link, comes_to};
ghost use Rattle.savi_access.specs.Frames.{answered_duid, dhcp_to, gives_up};
ghost use Rattle.fcfs_states.specs.declared.event.Ev.TheVariants.{Release};
ghost use Rattle.savi_access.specs.Plans.{rules_of};
ghost use Rattle.access_table.specs.Kept.{IsMadeWith, IsAgedTo};
ghost use Rattle.access_table.specs.Events.{IsOfFrame, change_port, change_event};
ghost use Rattle.access_table.specs.Steps.{Moves, FollowsStep};

use crate::change::Change;
use crate::frames::{
    DHCP6_CLIENT_PORT, DHCP6_SERVER_PORT, advertised_target, answered_duid, asking_duid,
    dad_target, dhcp_to, gives_up, is_listener_message, is_router_solicitation,
};
use crate::judgement::Judgement;
use crate::plans::{is_validating, role_of};
use crate::table::AccessTable;
use dhcp6_read::{Dhcp, Lease};
use fcfs_states::Ev;
use frame_class::{Class, Read};
use ra_guard::guard;
use savi_kinds::{Addr, Moment, Plan, Port, Rule, Scope, Verdict};
use v6_chain::Ip;

impl AccessTable {
    /// What becomes of a frame of the table's VLAN at a port, at moment `t` (ms), to which all states are aged. The class is
    /// that of the frame without its tag; the port is of the VLAN where its sources are validated. The plan is the one that
    /// the table was made with. The rules on messages come first (RFC 6105, RFC 7113), then the states of addresses (RFC
    /// 6620 section 3.2, RFC 7513 section 6, RFC 8074). It takes no memory, and costs O(ports + prefixes) and an event for
    /// each address that the frame names, beside what the requests cost.
    pub fn judge(&mut self, plan: &Plan, port: Port, class: &Class, t: Moment) -> Judgement
        requires plan { IsValidPlan plan.now }
        requires made { IsMadeWith (rules_of plan.now) self.old }
        requires own { (rules_of plan.now).role_of (number_of port) ≢ Trusted → access_vlan plan.now (number_of port) ≡ Some self.old.vlan }
        requires moment { t ≤ 2 ^ 62 }
        requires ready { IsAgedTo (rules_of plan.now) t self.old }
        ensures vlan { self.new.vlan ≡ self.old.vlan }
        ensures ready { IsAgedTo (rules_of plan.now) t self.new }
        ensures judged { FollowsStep (rules_of plan.now) t self.old self.new result (λ base past. judged (rules_of plan.now) base self.old.vlan port t past class.now) }
    {
        let role = role_of(plan, port);
        if let Some(rule) = guard(role, plan.drop_unknown, class) {
            return Judgement::dropped(rule);
        }
        if !plan.savi {
            return Judgement::passed();
        }
        if !is_validating(role) {
            return self.trusted(plan, class, t);
        }
        self.validated(plan, port, class, t)
    }

    // A frame at a port whose sources are validated.
    fn validated(&mut self, plan: &Plan, port: Port, class: &Class, t: Moment) -> Judgement
        requires plan { IsValidPlan plan.now }
        requires port { access_vlan plan.now (number_of port) ≡ Some self.old.vlan }
        requires moment { t ≤ 2 ^ 62 }
        requires ready { IsAgedTo (rules_of plan.now) t self.old }
        ensures vlan { self.new.vlan ≡ self.old.vlan }
        ensures ready { IsAgedTo (rules_of plan.now) t self.new }
        ensures judged { FollowsStep (rules_of plan.now) t self.old self.new result (λ base past. validated (rules_of plan.now) base self.old.vlan port t past class.now) }
    {
        match class {
            Class::Ip6 { ip, read, .. } => {
                if ip.src == Addr::UNSPECIFIED {
                    self.unspecified(plan, port, ip, read, t)
                } else {
                    self.sourced(plan, port, ip, read, t)
                }
            }
            Class::Runt | Class::Tagged { .. } | Class::Other { .. } | Class::BadIp { .. } => {
                Judgement::passed()
            }
        }
    }

    // A packet without a source address: what stands before an address is taken, and nothing else.
    fn unspecified(&mut self, plan: &Plan, port: Port, ip: &Ip, read: &Read, t: Moment) -> Judgement
        requires plan { IsValidPlan plan.now }
        requires port { access_vlan plan.now (number_of port) ≡ Some self.old.vlan }
        requires moment { t ≤ 2 ^ 62 }
        requires ready { IsAgedTo (rules_of plan.now) t self.old }
        ensures vlan { self.new.vlan ≡ self.old.vlan }
        ensures ready { IsAgedTo (rules_of plan.now) t self.new }
        ensures judged { FollowsStep (rules_of plan.now) t self.old self.new result (λ base past. from_unspecified (rules_of plan.now) base self.old.vlan port t past ip.now read.now) }
    {
        match dad_target(read) {
            Some(target) => {
                let off_link = Verdict::Drop(Rule::OffLink);
                self.event(plan, target, Ev::Dad(port), t, off_link)
            }
            None => {
                if is_router_solicitation(read) || is_listener_message(ip, read) {
                    Judgement::of(Verdict::Pass(Scope::TrustedOnly))
                } else {
                    Judgement::dropped(Rule::UnspecifiedSource)
                }
            }
        }
    }

    // A packet from an address: the address decides first, and a drop ends here.
    fn sourced(&mut self, plan: &Plan, port: Port, ip: &Ip, read: &Read, t: Moment) -> Judgement
        requires plan { IsValidPlan plan.now }
        requires port { access_vlan plan.now (number_of port) ≡ Some self.old.vlan }
        requires moment { t ≤ 2 ^ 62 }
        requires ready { IsAgedTo (rules_of plan.now) t self.old }
        ensures vlan { self.new.vlan ≡ self.old.vlan }
        ensures ready { IsAgedTo (rules_of plan.now) t self.new }
        ensures judged { FollowsStep (rules_of plan.now) t self.old self.new result (λ base past. sourced (rules_of plan.now) base self.old.vlan port t past ip.now read.now) }
    {
        let off_link = Verdict::Drop(Rule::OffLink);
        let sent = self.event(plan, ip.src, Ev::Sent(port), t, off_link);
        match sent.verdict {
            Verdict::Pass(_) => self.message(plan, port, read, t),
            Verdict::Drop(_) => sent,
        }
    }

    // What a packet says behind its source.
    fn message(&mut self, plan: &Plan, port: Port, read: &Read, t: Moment) -> Judgement
        requires plan { IsValidPlan plan.now }
        requires port { access_vlan plan.now (number_of port) ≡ Some self.old.vlan }
        requires moment { t ≤ 2 ^ 62 }
        requires ready { IsAgedTo (rules_of plan.now) t self.old }
        ensures vlan { self.new.vlan ≡ self.old.vlan }
        ensures ready { IsAgedTo (rules_of plan.now) t self.new }
        ensures judged { FollowsStep (rules_of plan.now) t self.old self.new result (λ base past. message (rules_of plan.now) base self.old.vlan port t past read.now) }
    {
        if let Some(target) = advertised_target(read) {
            let not_own = Verdict::Drop(Rule::NaTarget);
            return self.event(plan, target, Ev::Na(port), t, not_own);
        }
        match dhcp_to(DHCP6_SERVER_PORT, read) {
            Some(dhcp) => self.to_server(plan, port, dhcp, t),
            None => self.to_client_or_other(plan, read, t),
        }
    }

    // A message of DHCPv6 to servers.
    fn to_server(&mut self, plan: &Plan, port: Port, dhcp: &Dhcp, t: Moment) -> Judgement
        requires plan { IsValidPlan plan.now }
        requires port { access_vlan plan.now (number_of port) ≡ Some self.old.vlan }
        requires moment { t ≤ 2 ^ 62 }
        requires ready { IsAgedTo (rules_of plan.now) t self.old }
        ensures vlan { self.new.vlan ≡ self.old.vlan }
        ensures ready { IsAgedTo (rules_of plan.now) t self.new }
        ensures judged { FollowsStep (rules_of plan.now) t self.old self.new result (λ base past. to_server (rules_of plan.now) base self.old.vlan port t past dhcp.now) }
    {
        let Some(duid) = asking_duid(dhcp) else {
            self.give_up(plan, port, dhcp, t);
            return Judgement::passed();
        };
        match self.ask(port, dhcp.tid, duid, t) {
            Ok(()) => Judgement::passed(),
            Err(rule) => Judgement::dropped(rule),
        }
    }

    // A client gives its addresses up, by a Release or a Decline.
    fn give_up(&mut self, plan: &Plan, port: Port, dhcp: &Dhcp, t: Moment)
        requires plan { IsValidPlan plan.now }
        requires port { access_vlan plan.now (number_of port) ≡ Some self.old.vlan }
        requires moment { t ≤ 2 ^ 62 }
        requires ready { IsAgedTo (rules_of plan.now) t self.old }
        ensures vlan { self.new.vlan ≡ self.old.vlan }
        ensures ready { IsAgedTo (rules_of plan.now) t self.new }
        ensures told { Moves (rules_of plan.now) t self.old self.new (λ base past. if gives_up dhcp.now then with_events (rules_of plan.now) base self.old.vlan port t (λ lease. Release port) dhcp.now.leases.items past else past) }
    {
        if !gives_up(dhcp) {
            return;
        }
        self.tell_each(plan, dhcp.leases.as_slice(), Change::Released(port), t);
    }

    // A packet to DHCPv6 clients, or any other one.
    fn to_client_or_other(&mut self, plan: &Plan, read: &Read, t: Moment) -> Judgement
        requires plan { IsValidPlan plan.now }
        requires moment { t ≤ 2 ^ 62 }
        requires ready { IsAgedTo (rules_of plan.now) t self.old }
        ensures vlan { self.new.vlan ≡ self.old.vlan }
        ensures ready { IsAgedTo (rules_of plan.now) t self.new }
        ensures judged { (port : Port) → FollowsStep (rules_of plan.now) t self.old self.new result (λ base past. to_client_or_other (rules_of plan.now) base self.old.vlan port t past (dhcp_to 546 read.now)) }
    {
        if let Some(dhcp) = dhcp_to(DHCP6_CLIENT_PORT, read) {
            self.reply(plan, dhcp, t);
        }
        Judgement::passed()
    }

    // A Reply is for the port that asked: its request is met, and it is given the leases.
    fn reply(&mut self, plan: &Plan, dhcp: &Dhcp, t: Moment)
        requires plan { IsValidPlan plan.now }
        requires moment { t ≤ 2 ^ 62 }
        requires ready { IsAgedTo (rules_of plan.now) t self.old }
        ensures vlan { self.new.vlan ≡ self.old.vlan }
        ensures ready { IsAgedTo (rules_of plan.now) t self.new }
        ensures told { (port : Port) → Moves (rules_of plan.now) t self.old self.new (λ base past. replied (rules_of plan.now) base self.old.vlan port t past dhcp.now (answered_duid dhcp.now)) }
    {
        let Some(duid) = answered_duid(dhcp) else {
            return;
        };
        let Some(asker) = self.meet(dhcp.tid, duid, t) else {
            return;
        };
        self.tell_each(plan, dhcp.leases.as_slice(), Change::Leased(asker), t);
    }

    // A frame at a trusted port: it passes, and solicitations, advertisements and Replies are heard.
    fn trusted(&mut self, plan: &Plan, class: &Class, t: Moment) -> Judgement
        requires plan { IsValidPlan plan.now }
        requires moment { t ≤ 2 ^ 62 }
        requires ready { IsAgedTo (rules_of plan.now) t self.old }
        ensures vlan { self.new.vlan ≡ self.old.vlan }
        ensures ready { IsAgedTo (rules_of plan.now) t self.new }
        ensures judged { (port : Port) → FollowsStep (rules_of plan.now) t self.old self.new result (λ base past. trusted (rules_of plan.now) base self.old.vlan port t past class.now) }
    {
        let Class::Ip6 { read, .. } = class else {
            return Judgement::passed();
        };
        let passes = Verdict::Pass(Scope::All);
        if let Some(target) = dad_target(read) {
            return self.event(plan, target, Ev::TpDad, t, passes);
        }
        if let Some(target) = advertised_target(read) {
            return self.event(plan, target, Ev::TpNa, t, passes);
        }
        self.to_client_or_other(plan, read, t)
    }

    // An event on an address, by its row of the state tables; this verdict where the address isn't on-link.
    fn event(&mut self, plan: &Plan, a: Addr, ev: Ev, t: Moment, off_link: Verdict) -> Judgement
        requires plan { IsValidPlan plan.now }
        requires vlan { IsOfVlan (rules_of plan.now).addresses self.old.vlan (event_port ev) }
        requires moment { t ≤ 2 ^ 62 }
        requires ready { IsAgedTo (rules_of plan.now) t self.old }
        requires frame { IsOfFrame ev }
        ensures vlan { self.new.vlan ≡ self.old.vlan }
        ensures ready { IsAgedTo (rules_of plan.now) t self.new }
        ensures judged { (port : Port) → FollowsStep (rules_of plan.now) t self.old self.new result (λ base past. if is_on_link (rules_of plan.now) base self.old.vlan port t a.0 then answered (rules_of plan.now) base self.old.vlan port t past a.0 ev else comes_to off_link past) }
    {
        match self.tell(plan, a, ev, t) {
            Some(answer) => Judgement::answered(answer, a, t),
            None => Judgement::of(off_link),
        }
    }

    // What a message of DHCPv6 makes of each of its addresses that is on-link, in order.
    fn tell_each(&mut self, plan: &Plan, leases: &[Lease], change: Change, t: Moment)
        requires plan { IsValidPlan plan.now }
        requires moment { t ≤ 2 ^ 62 }
        requires ready { IsAgedTo (rules_of plan.now) t self.old }
        ensures vlan { self.new.vlan ≡ self.old.vlan }
        ensures ready { IsAgedTo (rules_of plan.now) t self.new }
        ensures told { (port : Port) → access_vlan plan.now (number_of (change_port change)) ≡ Some self.old.vlan → Moves (rules_of plan.now) t self.old self.new (λ base past. with_events (rules_of plan.now) base self.old.vlan port t (change_event change) leases.now past) }
    {
        for lease in leases {
            self.tell(plan, lease.address, change.event(*lease), t);
        }
    }
}
