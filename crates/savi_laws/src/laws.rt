// The laws on what verdicts depend on. Each function does nothing: its contract is the law.

ghost use Rattle.std.specs.Prelude.{◌≡◌, ◌<◌, ◌≤◌, ℕ, true, false, List, [], ◌∷◌, length, Option, Some, All};
ghost use Rattle.savi_kinds.specs.Arrivals.{Input};
ghost use Rattle.savi_kinds.specs.ValidPlan.{IsValidPlan};
ghost use Rattle.savi_kinds.specs.declared.plan.Plan.{Plan};
ghost use Rattle.savi_kinds.specs.declared.port.Port.{Port};
ghost use Rattle.savi_kinds.specs.declared.entry.Who.{Who};
ghost use Rattle.savi_kinds.specs.Ports.{number_of};
ghost use Rattle.v6_chain.specs.declared.packet.Ip.{Ip};
ghost use Rattle.frame_class.specs.declared.classes.Read.{Read};
ghost use Rattle.fcfs_states.specs.States.{Same};
ghost use Rattle.cli_lang.specs.Arrivals as control;
ghost use Rattle.hist_store.specs.Rows.{Row, held};
ghost use Rattle.control_replies.specs.declared.refusal.Refusal.{Refusal};
ghost use Rattle.control_replies.specs.Replies.{refusal_text};
ghost use Rattle.savi_access.specs.Rows.{state_in};
ghost use Rattle.savi_access.specs.Judged.{followed};
ghost use Rattle.savi_access.specs.Plans.{rules_of};
ghost use Rattle.checkpoint.specs.Bases.{Base, access_of};
ghost use Rattle.savi_history.specs.ControlInputs.{entered_lines};
ghost use Rattle.savi_history.specs.Endings.{has_paused_end};
ghost use Rattle.savi_history.specs.Readable.{IsInput, IsControl};
ghost use Rattle.savi_history.specs.Replay.{Stops, with_event};
ghost use Rattle.savi_segments.specs.Replay.{replayed};
ghost use Rattle.savi_segments.specs.Segments.{AreLegal, IsWholeSession, joined};
ghost use Rattle.savi_segments.specs.Unbroken.{unbroken};
ghost use Rattle.savi_history.specs.Events.{Event, Command, judged_of};
ghost use Rattle.savi_history.specs.Vlans.{vlan_of_frame};
ghost use Rattle.savi_history.specs.Legal.{IsLegal, IsOpen};
ghost use Rattle.savi_history.specs.Limits.{IsWithinLimits, has_room};
ghost use Rattle.savi_history.specs.Marks.{marks};
ghost use Rattle.savi_history.specs.Moments.{last_moment, moment_at};
ghost use Rattle.savi_history.specs.Ticks.{IsSameFrom};
ghost use Rattle.savi_history.specs.Shown.{shown};
ghost use Rattle.savi_laws.specs.Rebuilt.{rows_by, AreRows, ComesFirst, with_tick};
ghost use Rattle.savi_laws.specs.Answered.{came, answered};
ghost use Rattle.savi_laws.specs.LateTicks.{LateTick};
ghost use Rattle.savi_laws.specs.Refusals.{refusal_at, ChangesNothing};
ghost use Rattle.savi_laws.specs.Addresses.{told_on, address_at, port_has_room, source_step, ComesToSource};
ghost use Rattle.savi_laws.specs.Raised.{held_after, HoldsAfter, GivesLease};
ghost use Rattle.savi_laws.specs.Budgets.{input_count, given_count, given_octets, lines_of, arrivals_of, all_arrived};
ghost use Rattle.savi_laws.specs.Budgets.{replay_entries, SufficesForReplay, causes, entries_most, Suffices};
ghost use Rattle.savi_laws.specs.Progress.{has_step};

/// Frames, longer frames and lines with their moments decide all verdicts, and to which ports frames go: ticks, drains and
/// ends between them don't. The same is known from the later last moment on. It holds of any rows of events; a legal
/// history has such rows.
pub fn verdicts_follow_from_what_came_in()
    ensures answers { (plan : Plan) (base : Base) (past other : List Row)
        → AreRows plan base past → AreRows plan base other → came past ≡ came other
        → answered past ≡ answered other }
    ensures later { (plan : Plan) (base : Base) (past other : List Row)
        → AreRows plan base past → AreRows plan base other → came past ≡ came other
        → last_moment base other ≤ last_moment base past
        → IsSameFrom plan base (last_moment base past) past other }
    ensures legal { (plan : Plan) (base : Base) (past : List Row) → IsLegal plan base past → AreRows plan base past }
{}

/// A tick that comes no later than the next event with a stamp can be put in or left out: no moment of an input, verdict or
/// set of outs changes, and no state, request, station or shut port behind it.
pub fn ticks_can_be_left_out()
    ensures answers { (plan : Plan) (base : Base) (past : List Row) (stamp : ℕ) (events : List Event)
        → ComesFirst base past stamp events
        → answered (with_tick plan base past stamp events) ≡ answered (rows_by plan base past events) }
    ensures later { (plan : Plan) (base : Base) (past : List Row) (stamp : ℕ) (events : List Event)
        → ComesFirst base past stamp events
        → IsSameFrom plan base (last_moment base (with_tick plan base past stamp events))
        (with_tick plan base past stamp events) (rows_by plan base past events) }
{}

/// A tick that comes later than the next event with a stamp may change a verdict, in legal histories too: the premise above
/// can't go.
pub fn a_late_tick_may_change_a_verdict()
    ensures { LateTick }
{}

/// A command that is refused, or a line that is no command, changes nothing but by its entry: what is known ages to its
/// moment, and the probes that fell due by then are queued, as by a tick. So from its moment on the same is known as without
/// it, and a frame that comes next is judged alike and goes to the same ports. The reply says why it is refused.
pub fn a_refused_command_changes_nothing()
    ensures nothing { (plan : Plan) (base : Base) (past : List Row) (stamp : ℕ) (line : List ℕ) (refusal : Refusal)
        → refusal_at plan base past stamp line ≡ Some refusal → ChangesNothing plan base past stamp line }
    ensures later { (plan : Plan) (base : Base) (past : List Row) (stamp : ℕ) (line : List ℕ) (refusal : Refusal)
        → refusal_at plan base past stamp line ≡ Some refusal
        → IsSameFrom plan base (moment_at base past stamp) (with_event plan base past (Command stamp line)) past }
    ensures reply { (plan : Plan) (base : Base) (past : List Row) (stamp : ℕ) (line : List ℕ) (refusal : Refusal)
        → refusal_at plan base past stamp line ≡ Some refusal
        → shown plan base (with_event plan base past (Command stamp line)) ≡ refusal_text refusal }
{}

/// The state of an address follows from where it began, and from the events that name it with their moments and whether
/// their ports had room; whatever else came. What a packet from it comes to by its source follows from these, the moment and
/// whether its port has room. A frame that comes to the rules on its source is judged by that alone where it drops the
/// frame, and else by what the packet says behind it.
pub fn an_address_follows_from_its_own_marks()
    ensures state { (plan : Plan) (base other_base : Base) (past other : List Row) (t vlan a : ℕ)
        → state_in (base.rows vlan) a ≡ state_in (other_base.rows vlan) a
        → told_on plan base past vlan a ≡ told_on plan other_base other vlan a
        → address_at plan base past t vlan a ≡ address_at plan other_base other t vlan a }
    ensures verdict { (plan : Plan) (base other_base : Base) (past other : List Row) (t vlan : ℕ) (port : Port) (a : ℕ)
        → state_in (base.rows vlan) a ≡ state_in (other_base.rows vlan) a
        → told_on plan base past vlan a ≡ told_on plan other_base other vlan a
        → port_has_room plan base past t vlan port ≡ port_has_room plan other_base other t vlan port
        → (source_step plan base past t vlan port a).verdict ≡ (source_step plan other_base other t vlan port a).verdict }
    ensures probe { (plan : Plan) (base other_base : Base) (past other : List Row) (t vlan : ℕ) (port : Port) (a : ℕ)
        → state_in (base.rows vlan) a ≡ state_in (other_base.rows vlan) a
        → told_on plan base past vlan a ≡ told_on plan other_base other vlan a
        → port_has_room plan base past t vlan port ≡ port_has_room plan other_base other t vlan port
        → (source_step plan base past t vlan port a).probe ≡ (source_step plan other_base other t vlan port a).probe }
    ensures step { (plan : Plan) (base : Base) (past : List Row) (port : Port) (stamp vlan : ℕ) (octets : List ℕ)
        (ip : Ip) (read : Read)
        → ComesToSource plan base past port vlan octets ip read
        → let t = moment_at base past stamp in judged_of plan base past port stamp octets
        ≡ followed (rules_of plan) (access_of base) vlan port t (source_step plan base past t vlan port ip.src.0) read }
{}

/// A frame at a port makes another port hold an address only by a lease of this address: it meets an open request of that
/// port, and gives it the address (RFC 7513 section 6). So no port holds more addresses by a frame of another one without
/// such a lease, in the VLAN of the frame.
pub fn a_frame_fills_no_other_port()
    ensures address { (plan : Plan) (base : Base) (past : List Row) (port q : Port) (stamp : ℕ) (octets : List ℕ) (vlan a : ℕ)
        → IsWithinLimits plan base → ¬ Same port q
        → let t = moment_at base past stamp in let after = (judged_of plan base past port stamp octets).marks in
        ¬ HoldsAfter plan base (marks plan base past) t vlan a q → HoldsAfter plan base after t vlan a q
        → GivesLease (access_of base) vlan t q a (marks plan base past) after }
    ensures count { (plan : Plan) (base : Base) (past : List Row) (port q : Port) (stamp : ℕ) (octets : List ℕ)
        → IsWithinLimits plan base → ¬ Same port q
        → let t = moment_at base past stamp in let after = (judged_of plan base past port stamp octets).marks in
        held_after plan base (marks plan base past) t (number_of q) < held_after plan base after t (number_of q)
        → (vlan : ℕ) × (a : ℕ) × (vlan_of_frame plan (number_of port) octets ≡ Some vlan)
        × GivesLease (access_of base) vlan t q a (marks plan base past) after }
{}

/// A replay is of one segment where the plan has room for 34 entries and, for each frame, longer frame and line that comes
/// in, one more than it has ports (its own, and a drain of each port), beside the 4,130 entries that stay free, and for the
/// octets that come in beside those of the longest frame (`room`). A replay of one segment comes to no more entries than
/// that (`entries`). No more goes in than its inputs have (`given`); so room for all that they have suffices (`enough`).
pub fn a_budget_suffices_for_a_replay()
    ensures entries { (plan : Plan) (lines : Option control.Input) (inputs : List Input) (stops : Stops) (past : List Row)
        → IsValidPlan plan → length inputs ≡ length plan.ports → IsControl lines → All IsInput inputs
        → replayed plan lines inputs stops ≡ past ∷ [] → length past ≤ replay_entries plan (input_count past) }
    ensures room { (plan : Plan) (lines : Option control.Input) (inputs : List Input) (stops : Stops)
        → IsValidPlan plan → length inputs ≡ length plan.ports → IsControl lines → All IsInput inputs
        → let rows = joined (replayed plan lines inputs stops) in
        SufficesForReplay plan (input_count rows) (held rows) → length (replayed plan lines inputs stops) ≡ 1 }
    ensures given { (plan : Plan) (lines : Option control.Input) (inputs : List Input) (stops : Stops)
        → let rows = joined (replayed plan lines inputs stops) in
        (input_count rows ≤ given_count (lines_of lines) (arrivals_of inputs))
        × (held rows ≤ given_octets (lines_of lines) (arrivals_of inputs)) }
    ensures enough { (plan : Plan) (lines : Option control.Input) (inputs : List Input) (stops : Stops)
        → IsValidPlan plan → length inputs ≡ length plan.ports → IsControl lines → All IsInput inputs
        → SufficesForReplay plan (given_count (lines_of lines) (arrivals_of inputs)) (given_octets (lines_of lines) (arrivals_of inputs))
        → length (replayed plan lines inputs stops) ≡ 1 }
{}

/// A legal history comes to at most 34 entries, and 256 for each frame, longer frame and line that came in, and for each
/// address that had a state before: ticks, drains and ends among them. With room for so many beside the 4,130 entries that
/// stay free, and for the octets that came in beside those of the longest frame, an input may come as long as its pass is
/// open, and no pass is paused for want of room. All that came in are the lines that the history holds, and what it holds of
/// the plan's ports.
pub fn a_budget_always_suffices()
    ensures entries { (plan : Plan) (base : Base) (past : List Row)
        → IsValidPlan plan → IsWithinLimits plan base → IsLegal plan base past
        → length past ≤ entries_most (causes plan base past) }
    ensures room { (plan : Plan) (base : Base) (past : List Row) (who : Who)
        → IsValidPlan plan → IsWithinLimits plan base → IsLegal plan base past → IsOpen plan base past who
        → Suffices plan (causes plan base past) (held past) → has_room plan past ≡ true }
    ensures ends { (plan : Plan) (base : Base) (past : List Row)
        → IsValidPlan plan → IsWithinLimits plan base → IsLegal plan base past
        → Suffices plan (causes plan base past) (held past) → has_paused_end past ≡ false }
    ensures given { (plan : Plan) (base : Base) (past : List Row) → IsLegal plan base past
        → (input_count past ≤ given_count (entered_lines past) (all_arrived plan past))
        × (held past ≤ given_octets (entered_lines past) (all_arrived plan past)) }
{}

/// The same of the segments of a session: all that came in are the lines that they hold, and what they hold of the plan's
/// ports (`given`). Each is a legal history of its own, for which the budget suffices by what it goes on from
/// (`a_budget_always_suffices`); and with room for all that came in a whole session is of one, and no pass is paused in it
/// (`one`).
pub fn a_budget_suffices_for_one_segment()
    ensures given { (plan : Plan) (segments : List (List Row)) → AreLegal plan segments
        → (input_count (joined segments) ≤ given_count (entered_lines (unbroken segments)) (all_arrived plan (unbroken segments)))
        × (held (joined segments) ≤ given_octets (entered_lines (unbroken segments)) (all_arrived plan (unbroken segments))) }
    ensures one { (plan : Plan) (segments : List (List Row)) → IsValidPlan plan → IsWholeSession plan segments
        → Suffices plan (input_count (joined segments)) (held (joined segments))
        → (length segments ≡ 1) × (has_paused_end (joined segments) ≡ false) }
{}

/// A legal history in which a pass is paused for want of room has an entry with a stamp, or an end that is no pause: so each
/// segment of a session brings it on.
pub fn a_pause_comes_behind_a_step()
    ensures { (plan : Plan) (base : Base) (past : List Row)
        → IsValidPlan plan → IsLegal plan base past → has_paused_end past ≡ true → has_step past ≡ true }
{}
