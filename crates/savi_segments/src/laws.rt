// The laws on histories in segments. Each function does nothing: its contract is the law.

ghost use Rattle.std.specs.Prelude.{◌≡◌, ◌≢◌, ◌≤◌, ◌^◌, ℕ, true, Some, List, [], ◌∷◌, ◌++◌, length};
ghost use Rattle.savi_kinds.specs.ValidPlan.{IsValidPlan};
ghost use Rattle.savi_kinds.specs.declared.plan.Plan.{Plan};
ghost use Rattle.savi_kinds.specs.declared.plan.Role.TheVariants.{Trusted};
ghost use Rattle.savi_kinds.specs.declared.port.Port.{Port};
ghost use Rattle.savi_kinds.specs.Ports.{number_of};
ghost use Rattle.eth_frame.specs.declared.header.Eth.{Eth};
ghost use Rattle.eth_frame.specs.Tags.{inner};
ghost use Rattle.v6_chain.specs.declared.packet.Ip.{Ip};
ghost use Rattle.frame_class.specs.declared.classes.Class.TheVariants.{Ip6};
ghost use Rattle.frame_class.specs.declared.classes.Read.{Read};
ghost use Rattle.frame_class.specs.ClassOf.{class_of};
ghost use Rattle.fcfs_states.specs.Premises.{AreTimes};
ghost use Rattle.fcfs_states.specs.States.{Same};
ghost use Rattle.mix_rules.specs.Next.{IsPass};
ghost use Rattle.savi_access.specs.Bases.{AreTables};
ghost use Rattle.savi_access.specs.Rules.{AccessRules, AccessBase};
ghost use Rattle.savi_access.specs.Marks.{Mark, newest_moment, base_at};
ghost use Rattle.savi_access.specs.Legal.{AreMarks};
ghost use Rattle.access_table.specs.Kept.{Kept, Represents};
ghost use Rattle.hist_store.specs.Rows.{Row};
ghost use Rattle.checkpoint.specs.Bases.{Base, empty};
ghost use Rattle.savi_history.specs.CameFirst.{IsLiveAtEnd, IsLostSince};
ghost use Rattle.savi_history.specs.Judged.{verdict_of};
ghost use Rattle.savi_history.specs.Legal.{IsLegal};
ghost use Rattle.savi_history.specs.Limits.{IsWithinLimits};
ghost use Rattle.savi_history.specs.Moments.{moment_at};
ghost use Rattle.savi_history.specs.Passes.{has_port, role_of};
ghost use Rattle.savi_history.specs.Vlans.{vlan_of_frame};
ghost use Rattle.savi_segments.specs.Checkpoints.{after};
ghost use Rattle.savi_segments.specs.Segments.{base_after, joined, AreOctets, AreLegal};
ghost use Rattle.savi_history.specs.Shown.{counts_of};
ghost use Rattle.savi_history.specs.Summary.{capped, summary_of};
ghost use Rattle.savi_segments.specs.Counted.{summary_by};
ghost use Rattle.savi_segments.specs.FirstCome.{AllSegmentsPassedRightly, SegmentsKeepWhoCameFirst};
ghost use Rattle.savi_segments.specs.Readings.{ReadsAs};
ghost use Rattle.savi_segments.specs.Steps.{Step, gone, rows_in, newest_rows, newest_base};

use savi_access::states_and_requests_stay_a_base;
use savi_history::{histories_tell_rightly, packets_pass_where_their_source_is_live};

/// A legal history that goes on from what a legal one left reads as it does behind that one: the same is known and the same
/// is judged.
pub fn a_history_is_read_from_its_turns()
    ensures { (plan : Plan) (base : Base) (early late : List Row)
        → IsValidPlan plan → IsWithinLimits plan base → IsLegal plan base early → AreOctets early
        → IsLegal plan (after plan base early) late → AreOctets late
        → ReadsAs plan base early (after plan base early) late }
{
    histories_tell_rightly();
}

/// What legal segments leave is within the limits, so that another one may go on from there (`within`). Where there is one,
/// it is what their joined rows leave from the start of a switch (`same`), though these needn't be legal: room and the
/// places of octets are counted within a segment. And the newest segment reads as it does behind all rows before it
/// (`reads`).
pub fn segments_leave_what_their_rows_leave()
    ensures within { (plan : Plan) (segments : List (List Row))
        → IsValidPlan plan → AreLegal plan segments → IsWithinLimits plan (base_after plan segments) }
    ensures same { (plan : Plan) (segment : List Row) (before : List (List Row))
        → IsValidPlan plan → AreLegal plan (segment ∷ before)
        → base_after plan (segment ∷ before) ≡ after plan empty (joined (segment ∷ before)) }
    ensures reads { (plan : Plan) (segment : List Row) (before : List (List Row))
        → IsValidPlan plan → AreLegal plan (segment ∷ before)
        → ReadsAs plan empty (joined before) (base_after plan before) segment }
{
    histories_tell_rightly();
}

/// First come, first served, over segments of a switch that validates sources. Where an address of a VLAN is live at a port
/// after some segments, and after more rows and turns a frame of that VLAN with that source passes at another port of a host
/// or a server, by the newest segment alone, the first port had lost the address since by one of three causes: by what all
/// rows told, read from the start of the switch (`next`). So it is of each frame that the segments hold (`all`).
pub fn segments_keep_who_came_first()
    ensures all { (plan : Plan) (segments : List (List Row)) → IsValidPlan plan → plan.savi ≡ true → AreLegal plan segments
        → SegmentsKeepWhoCameFirst plan segments }
    ensures next { (plan : Plan) (first : List (List Row)) (steps : List Step) (p q : Port) (stamp : ℕ) (octets : List ℕ)
        (vlan : ℕ) (eth : Eth) (ip : Ip) (read : Read)
        → IsValidPlan plan → plan.savi ≡ true → AreLegal plan (gone first steps)
        → has_port plan (number_of q) ≡ true → role_of plan (number_of q) ≢ Trusted
        → vlan_of_frame plan (number_of q) octets ≡ Some vlan → class_of (inner octets) ≡ Ip6 eth ip read
        → IsLiveAtEnd plan empty (joined first) vlan ip.src.0 p → ¬ Same q p
        → IsPass (Some (verdict_of plan (newest_base plan (gone first steps)) (newest_rows (gone first steps)) q stamp octets))
        → IsLostSince plan empty (joined first) (rows_in steps) (moment_at empty (joined (gone first steps)) stamp)
        vlan ip.src.0 p }
{
    histories_tell_rightly();
}

/// The counters of a switch sum its segments up: what is counted behind the newest one is what the joined rows come to, each
/// count and each sum up to 2^64 - 1.
pub fn counts_sum_segments_up()
    ensures { (plan : Plan) (segment : List Row) (before : List (List Row)) → IsValidPlan plan → AreLegal plan (segment ∷ before)
        → let rows = joined (segment ∷ before) in
        summary_of rows ≡ summary_by (capped (length rows)) (counts_of (base_after plan before) segment) }
{}

/// In each segment of a switch that validates sources, an IPv6 frame at a port of a host or a server passed exactly where no
/// rule on messages stopped it and its source was live there, or a named exception permitted it.
pub fn segments_pass_where_their_source_is_live()
    ensures { (plan : Plan) (segments : List (List Row)) → IsValidPlan plan → plan.savi ≡ true → AreLegal plan segments
        → AllSegmentsPassedRightly plan segments }
{
    histories_tell_rightly();
    packets_pass_where_their_source_is_live();
}

/// What may be told after what marks left at a moment may be told after these marks.
pub fn marks_are_joined()
    ensures { (r : AccessRules) (base : AccessBase) (early late : List Mark) (t0 : ℕ)
        → AreTimes r.addresses.times → AreTables base.addresses → AreMarks r base early → newest_moment base early ≤ t0
        → AreMarks r (base_at r base early t0) late → AreMarks r base (late ++ early) }
{}

/// A table that stands for what was told stands for nothing told since, from the states and the open requests that it has:
/// so a segment may go on with the table of the one before.
pub fn a_table_goes_on_from_its_states()
    ensures { (r : AccessRules) (base : AccessBase) (past : List Mark) (t : ℕ) (kept : Kept)
        → t ≤ 2 ^ 62 → Represents r base past t kept → Represents r (base_at r base past t) [] t kept }
{
    states_and_requests_stay_a_base();
}
