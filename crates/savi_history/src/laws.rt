//! The laws on whole histories. Each function does nothing: its contract is the law.

ghost use Rattle.std.specs.Prelude.{◌≡◌, ◌≢◌, ◌≤◌, ◌++◌, ℕ, Bool, true, false, List, [], length, Some, None, Result, All};
ghost use Rattle.eth_frame.specs.Tags.{inner};
ghost use Rattle.savi_kinds.specs.ValidPlan.{IsValidPlan};
ghost use Rattle.savi_kinds.specs.declared.entry.Act.{Act};
ghost use Rattle.savi_kinds.specs.declared.plan.Plan.{Plan};
ghost use Rattle.hist_store.specs.JournalTexts.{address_text};
ghost use Rattle.hist_store.specs.Rows.{Row};
ghost use Rattle.checkpoint.specs.Bases.{Base, empty, access_of};
ghost use Rattle.savi_history.specs.Legal.{IsLegal, MayCome};
ghost use Rattle.savi_history.specs.CameFirst.{IsLiveAtEnd, IsLostSince, AllKeepWhoCameFirst};
ghost use Rattle.savi_history.specs.Events.{Frame, outs_of};
ghost use Rattle.savi_history.specs.Moments.{last_moment, moment_at};
ghost use Rattle.savi_access.specs.Rules.{IsAccessBase};
ghost use Rattle.savi_access.specs.Marks.{base_at};
ghost use Rattle.savi_history.specs.Vlans.{vlan_of_frame};
ghost use Rattle.savi_history.specs.Happenings.{happenings, IsSameInVlan};
ghost use Rattle.savi_access.specs.Plans.{rules_of};
ghost use Rattle.savi_kinds.specs.declared.plan.Role.TheVariants.{Trusted};
ghost use Rattle.eth_frame.specs.declared.header.Eth.{Eth};
ghost use Rattle.v6_chain.specs.declared.packet.Ip.{Ip};
ghost use Rattle.frame_class.specs.declared.classes.Class.TheVariants.{Ip6};
ghost use Rattle.frame_class.specs.declared.classes.Read.{Read};
ghost use Rattle.fcfs_states.specs.States.{Same};
ghost use Rattle.mix_rules.specs.Next.{IsPass};
ghost use Rattle.savi_history.specs.Adverts.{IsGuarded};
ghost use Rattle.savi_history.specs.Accesses.{AllPassedRightly, IsTold};
ghost use Rattle.hex.specs.Hex.{IsBytes};
ghost use Rattle.savi_history.specs.Judged.{judged_of, judged_long, verdict_of};
ghost use Rattle.savi_history.specs.Limits.{IsWithinLimits};
ghost use Rattle.savi_history.specs.Marks.{marks, IsOfOperator};
ghost use Rattle.savi_access.specs.Judged.{drops, judged_without};
ghost use Rattle.savi_kinds.specs.PortSets.{is_member, no_ports};
ghost use Rattle.savi_history.specs.Summary.{is_pass};
ghost use Rattle.savi_kinds.specs.declared.verdict.Rule.TheVariants.{PortDown};
ghost use Rattle.savi_kinds.specs.declared.verdict.Verdict.TheVariants.{Drop};
ghost use Rattle.savi_history.specs.ShutPorts.{is_shut, shut_by};
ghost use Rattle.savi_history.specs.Commands.{refusal_of};
ghost use Rattle.cli_lang.specs.declared.kinds.Command.{Command};
ghost use Rattle.cli_lang.specs.declared.kinds.CmdFault.{CmdFault};
ghost use Rattle.control_replies.specs.declared.refusal.Refusal.{Refusal};
ghost use Rattle.savi_access.specs.declared.row.Row.{Row as AddressRow};
ghost use Rattle.savi_history.specs.Offers.{offers};
ghost use Rattle.savi_history.specs.Ticks.{TickLeaves};
ghost use Rattle.savi_history.specs.Passes.{role_of, has_port};
ghost use Rattle.frame_class.specs.ClassOf.{class_of};
ghost use Rattle.savi_kinds.specs.Ports.{number_of};
ghost use Rattle.savi_kinds.specs.declared.port.Port.{Port};
ghost use Rattle.ra_guard.specs.GuardOf.{guard_of};
ghost use Rattle.savi_history.specs.Queues.{offered_at, queue, sent};
ghost use Rattle.savi_history.specs.QueueLaws.{came, NeverFailed, AreCounted, AreCut};
ghost use Rattle.savi_history.specs.Journals.{IsAddressText};

use savi_access::states_and_requests_stay_a_base;

/// In a legal history no router advertisement that the header chain shows, and no first fragment whose chain is cut,
/// passes a port of a host or a server (RFC 6105, RFC 7113, RFC 7112 section 5).
pub fn adverts_are_stopped()
    ensures { (plan : Plan) (base : Base) (past : List Row) → IsLegal plan base past → IsGuarded plan past }
{}

/// In a legal history of a switch that validates sources, an IPv6 frame at a port of a host or a server passes exactly
/// where no rule on messages stops it and its source is live there, or a named exception permits it (RFC 6620 section 3.2,
/// RFC 7513 section 5, RFC 8074).
pub fn packets_pass_where_their_source_is_live()
    ensures { (plan : Plan) (base : Base) (past : List Row) → IsValidPlan plan → IsWithinLimits plan base → plan.savi ≡ true
        → IsLegal plan base past → All (λ r. IsBytes r.octets) past → AllPassedRightly plan base past }
{}

/// First come, first served, over histories of a switch that validates sources. Where an address is live in a VLAN at a port
/// after the first entries of a legal history, and a later entry is a frame of that VLAN that passes at another port of a
/// host or a server with that address as its source, its first port had lost it by one of three causes (`all`). The same of
/// a frame that comes in next (`next`).
pub fn histories_keep_who_came_first()
    ensures all { (plan : Plan) (base : Base) (past : List Row) → IsValidPlan plan → IsWithinLimits plan base → plan.savi ≡ true
        → IsLegal plan base past → All (λ r. IsBytes r.octets) past → AllKeepWhoCameFirst plan base past }
    ensures next { (plan : Plan) (base : Base) (early late : List Row) (p q : Port) (stamp : ℕ) (octets : List ℕ)
        (vlan : ℕ) (eth : Eth) (ip : Ip) (read : Read)
        → IsValidPlan plan → IsWithinLimits plan base → plan.savi ≡ true
        → IsLegal plan base (late ++ early) → All (λ r. IsBytes r.octets) (late ++ early)
        → MayCome plan base (late ++ early) (Frame q stamp octets)
        → vlan_of_frame plan (number_of q) octets ≡ Some vlan → class_of (inner octets) ≡ Ip6 eth ip read
        → role_of plan (number_of q) ≢ Trusted → IsLiveAtEnd plan base early vlan ip.src.0 p → ¬ Same q p
        → IsPass (Some (verdict_of plan base (late ++ early) q stamp octets))
        → IsLostSince plan base early late (moment_at base (late ++ early) stamp) vlan ip.src.0 p }
{}

/// The start of a switch with a valid plan is within the limits.
pub fn a_switch_starts_within_limits()
    ensures { (plan : Plan) → IsValidPlan plan → IsWithinLimits plan empty }
{}

/// What the frames of a legal history tell may be told one after the other. So the states of addresses and the open requests
/// at its last moment are within their limits: no port holds more addresses than it may, or has more than 16 requests.
pub fn histories_tell_rightly()
    ensures told { (plan : Plan) (base : Base) (past : List Row) → IsValidPlan plan → IsWithinLimits plan base
        → IsLegal plan base past → All (λ r. IsBytes r.octets) past → IsTold plan base past }
    ensures limits { (plan : Plan) (base : Base) (past : List Row) → IsValidPlan plan → IsWithinLimits plan base
        → IsLegal plan base past → All (λ r. IsBytes r.octets) past
        → IsAccessBase (rules_of plan) (base_at (rules_of plan) (access_of base) (marks plan base past) (last_moment base past)) }
{
    states_and_requests_stay_a_base();
}

/// No more items wait at a port than the plan's depth.
pub fn queues_stay_within_depth()
    ensures { (plan : Plan) (base : Base) (q : ℕ) (past : List Row) → length (queue plan base q past) ≤ plan.depth }
{}

/// Nothing overtakes: what was sent at a port, and behind it what waits there, are the items that joined, in the order in
/// which entries offered them, as long as no write failed there.
pub fn nothing_overtakes()
    ensures { (plan : Plan) (base : Base) (q : ℕ) (past : List Row) → NeverFailed q past → sent plan base q past ++ queue plan base q past ≡ came plan base q past }
{}

/// In a legal history each probe that an entry offers to a port is counted once: as queued where the port takes it, and as
/// lost where there is no room.
pub fn each_probe_is_counted_once()
    ensures { (plan : Plan) (base : Base) (past : List Row) → IsLegal plan base past → AreCounted plan base past }
{}

/// In a legal history a frame is cut exactly at the ports to which it goes and which don't take it behind the probes of its
/// entry.
pub fn frames_are_cut_for_want_of_room()
    ensures { (plan : Plan) (base : Base) (past : List Row) → IsLegal plan base past → AreCut plan base past }
{}

/// A tick lets time pass, and changes nothing of what comes: from its moment on all states of addresses, open requests and
/// live stations are as they are without it, and so are the verdict on a frame that comes next and the ports to which it
/// goes. Only the probes that fall due by then are queued by the tick, and no longer by the entry that comes next.
pub fn ticks_change_nothing_later()
    ensures { (plan : Plan) (base : Base) (past : List Row) (stamp : ℕ) → TickLeaves plan base past stamp }
{}

/// Where sources aren't validated, no frame tells anything of addresses and the guard decides alone on those that have a
/// VLAN: what is told is the operator's. No entry calls for probes then, if no address had a state to begin with.
pub fn probes_come_with_validation()
    ensures offers { (plan : Plan) (base : Base) (past : List Row) (act : Act) (octets : List ℕ)
        → plan.savi ≡ false → ((vlan : ℕ) → base.rows vlan ≡ []) → offers plan base past act octets ≡ [] }
    ensures marks { (plan : Plan) (base : Base) (past : List Row) → plan.savi ≡ false → All IsOfOperator (marks plan base past) }
    ensures judged { (plan : Plan) (base : Base) (past : List Row) (port : Port) (stamp : ℕ) (octets : List ℕ) (vlan : ℕ)
        → plan.savi ≡ false → is_shut plan base (number_of port) past ≡ false
        → vlan_of_frame plan (number_of port) octets ≡ Some vlan
        → judged_of plan base past port stamp octets
        ≡ judged_without (marks plan base past)
        (guard_of (role_of plan (number_of port)) plan.drop_unknown (class_of (inner octets))) }
{}

/// Which ports are shut is by the commands that are answered `ok`: one that is refused shuts and opens none, whichever
/// addresses have a state (`refused`). Only ports of the plan are shut (`inside`).
pub fn refused_commands_shut_no_port()
    ensures refused { (plan : Plan) (rows : ℕ → List AddressRow) (order : Result Command CmdFault) (refusal : Refusal)
        (number : ℕ) (before : Bool) → refusal_of plan rows order ≡ Some refusal → shut_by plan number order before ≡ before }
    ensures inside { (plan : Plan) (base : Base) (past : List Row) (number : ℕ) → IsWithinLimits plan base → is_shut plan base number past ≡ true → has_port plan number ≡ true }
{}

/// A shut port takes no part: each frame that comes in there is dropped for it and tells nothing, and neither a frame nor a
/// probe goes to it.
pub fn shut_ports_take_no_part()
    ensures dropped { (plan : Plan) (base : Base) (past : List Row) (port : Port) (stamp : ℕ) (octets : List ℕ) → is_shut plan base (number_of port) past ≡ true
        → judged_of plan base past port stamp octets ≡ drops PortDown (marks plan base past) }
    ensures long { (plan : Plan) (base : Base) (past : List Row) (port : Port) → is_shut plan base (number_of port) past ≡ true → judged_long plan base past port ≡ Drop PortDown }
    ensures frames { (plan : Plan) (base : Base) (past : List Row) (port : Port) (stamp : ℕ) (octets : List ℕ) (q : ℕ) → 1 ≤ q → is_shut plan base q past ≡ true
        → is_member (outs_of plan base past port stamp octets) q ≡ false }
    ensures probes { (plan : Plan) (base : Base) (past : List Row) (act : Act) (octets : List ℕ) (q : ℕ) → is_shut plan base q past ≡ true → offered_at plan base past act octets q ≡ [] }
{}

/// A frame that has no VLAN at its port (a tag at an access port, at a trunk none or that of a VLAN that it doesn't list) is
/// dropped there, whichever the port is: it tells nothing and goes nowhere (IEEE 802.1Q section 8.6.2).
pub fn frames_without_a_vlan_are_dropped()
    ensures dropped { (plan : Plan) (base : Base) (past : List Row) (port : Port) (stamp : ℕ) (octets : List ℕ)
        → vlan_of_frame plan (number_of port) octets ≡ None
        → is_pass (Some (verdict_of plan base past port stamp octets)) ≡ false }
    ensures told { (plan : Plan) (base : Base) (past : List Row) (port : Port) (stamp : ℕ) (octets : List ℕ)
        → vlan_of_frame plan (number_of port) octets ≡ None
        → (judged_of plan base past port stamp octets).marks ≡ marks plan base past }
    ensures outs { (plan : Plan) (base : Base) (past : List Row) (port : Port) (stamp : ℕ) (octets : List ℕ)
        → vlan_of_frame plan (number_of port) octets ≡ None
        → outs_of plan base past port stamp octets ≡ no_ports }
{}

/// A VLAN is as if it were alone: two legal histories in which the same happens in it (its frames at the same ports and
/// moments, `static` at its ports and `clear` in it at the same moments, and each `shut` and `open` between them, all in one
/// order) come to the same there. So do the states of its addresses, its open requests and its stations, from the last
/// moment on, and the verdicts on its frames and the ports to which they go.
pub fn a_vlan_follows_from_what_happens_in_it()
    ensures { (vlan : ℕ) (plan : Plan) (base : Base) (past other : List Row)
        → IsLegal plan base past → IsLegal plan base other → happenings vlan plan past ≡ happenings vlan plan other
        → IsSameInVlan vlan plan base past other }
{}

/// The text of addresses after RFC 5952 gives no two addresses of 128 bits the same text, and there is neither a space, a
/// control character nor a '/' in it.
pub fn written_addresses_are_told_apart()
    ensures { IsAddressText address_text }
{}
