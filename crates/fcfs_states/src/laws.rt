// What the two tables come to. Each function does nothing: its contract is the law.

ghost use Rattle.std.specs.Prelude.{◌≡◌, ℕ, ◌+◌, ◌<◌, ◌≤◌, ◌^◌, Bool, Option, List, ◌++◌, length};
ghost use Rattle.std.specs.List.{AllByRecursion};
ghost use Rattle.savi_kinds.specs.declared.port.Port.{Port};
ghost use Rattle.fcfs_states.specs.declared.answer.Answer.{Answer};
ghost use Rattle.fcfs_states.specs.declared.answer.Probe.{Probe};
ghost use Rattle.fcfs_states.specs.declared.event.Ev.{Ev};
ghost use Rattle.fcfs_states.specs.declared.state.Fcfs.{Fcfs};
ghost use Rattle.fcfs_states.specs.declared.times.Times.{Times};
ghost use Rattle.fcfs_states.specs.Premises.{AreTimes, IsFcfsEvent, MomentsFit};
ghost use Rattle.fcfs_states.specs.States.{IsSound, IsLive};
ghost use Rattle.fcfs_states.specs.Table.{Row};
ghost use Rattle.fcfs_states.specs.Next.{next};
ghost use Rattle.fcfs_states.specs.TableLaws.{IsOnlyRow};
ghost use Rattle.fcfs_states.specs.Ageing.{AgeRow, IsRested};
ghost use Rattle.fcfs_states.specs.Aged.{aged};
ghost use Rattle.fcfs_states.specs.AgeingLaws.{AreRising, AreRisingAfter, IsOnlyAgeing, joined_ageing};
ghost use Rattle.fcfs_states.specs.FirstCome.{IsLostByTest, IsTestOf, IsHeardAt, TimedEvent, IsTimeline, IsSilentAfter, state_of};

/// Each sound state and event meets exactly one row of the table, and no event of another kind meets one.
pub fn every_event_meets_one_row()
    ensures one { (k : Times) (t : ℕ) (room : Bool) (state : Fcfs) (event : Ev)
        → IsSound state → IsFcfsEvent event → IsOnlyRow k t room state event (next k t room state event) }
    ensures none { (k : Times) (t : ℕ) (room : Bool) (state new : Fcfs) (event : Ev) (answer : Answer)
        → Row k t room state event answer new → IsFcfsEvent event }
{}

/// A state has one ageing to a moment, however much fell due by then.
pub fn ageing_is_one()
    ensures { (k : Times) (t : ℕ) (state : Fcfs) → AreTimes k → IsOnlyAgeing k t state (aged k t state) }
{}

/// Ageing to t and then to u is ageing to u, with the two lists of probes joined. So it doesn't matter how often, or how
/// late, a state is aged.
pub fn ageing_composes()
    ensures { (k : Times) (t u : ℕ) (state : Fcfs) → AreTimes k → t ≤ u
        → aged k u state ≡ joined_ageing (aged k t state) (aged k u (aged k t state).state) }
{}

/// Where a state was aged to t nothing is due in it by then.
pub fn nothing_is_due_after_ageing()
    ensures { (k : Times) (t : ℕ) (state : Fcfs) → AreTimes k → IsRested k t (aged k t state).state }
{}

/// One ageing of an address sends at most three probes, in rising moments, each by t; and above any moment at which
/// nothing was due.
pub fn ageing_sends_few_probes_in_order()
    ensures few { (k : Times) (t : ℕ) (state : Fcfs) → AreTimes k → length (aged k t state).probes ≤ 3 }
    ensures rising { (k : Times) (t : ℕ) (state : Fcfs) → AreTimes k → AreRising (aged k t state).probes }
    ensures above { (k : Times) (t from : ℕ) (state : Fcfs)
        → AreTimes k → IsRested k from state → AreRisingAfter from (aged k t state).probes }
    ensures by { (k : Times) (t : ℕ) (state : Fcfs)
        → AreTimes k → AllByRecursion (λ p. p.0 ≤ t) (aged k t state).probes }
{}

/// Events and ageing keep what an event needs of a state: it is sound, its moments fit, and nothing is due in it.
pub fn states_stay_valid()
    ensures sound_events { (k : Times) (t : ℕ) (room : Bool) (state new : Fcfs) (event : Ev) (answer : Answer)
        → Row k t room state event answer new → IsSound state → IsSound new }
    ensures fits_events { (k : Times) (t : ℕ) (room : Bool) (state new : Fcfs) (event : Ev) (answer : Answer)
        → Row k t room state event answer new → AreTimes k → t ≤ 2 ^ 62 → MomentsFit state → MomentsFit new }
    ensures rested_events { (k : Times) (t : ℕ) (room : Bool) (state new : Fcfs) (event : Ev) (answer : Answer)
        → Row k t room state event answer new → AreTimes k → IsRested k t state → IsRested k t new }
    ensures sound_ageing { (k : Times) (t : ℕ) (state : Fcfs) → AreTimes k → IsSound state → IsSound (aged k t state).state }
    ensures fits_ageing { (k : Times) (t : ℕ) (state : Fcfs)
        → AreTimes k → t ≤ 2 ^ 62 → MomentsFit state → MomentsFit (aged k t state).state }
{}

/// An address that is live at a port leaves it by no event, and by no row of ageing but the end of a test of that port.
pub fn only_a_test_ends_a_binding()
    ensures events { (k : Times) (t : ℕ) (room : Bool) (state new : Fcfs) (event : Ev) (answer : Answer) (port : Port)
        → Row k t room state event answer new → IsLive state port → IsLive new port }
    ensures ageing { (k : Times) (state new : Fcfs) (due : ℕ) (probe : Option Probe) (port : Port)
        → AgeRow k state due new probe → IsLive state port → ¬ IsLive new port
        → (since : ℕ) × IsTestOf port since state × (due ≡ since + k.test) }
{}

/// While a test stands its holder isn't heard: in a run of events that leaves a test, aged to t, no event at a moment above
/// that at which the test began was one of its holder. And an event that finds a test which began before it, and leaves
/// one, leaves it as it is. These runs start from no binding and have the five events of first come alone; `mix_rules` has
/// the law for all nine kinds, from any sound state.
pub fn a_test_stands_in_silence()
    ensures run { (k : Times) (t : ℕ) (marks : List TimedEvent) (port : Port) (since : ℕ)
        → AreTimes k → IsTimeline t marks → IsTestOf port since (aged k t (state_of k marks)).state
        → IsSilentAfter port since marks }
    ensures row { (k : Times) (t : ℕ) (room : Bool) (state new : Fcfs) (event : Ev) (answer : Answer) (port : Port) (since : ℕ)
        → IsSound state → Row k t room state event answer new → IsTestOf port since new → since < t
        → (¬ IsHeardAt port event) × (new ≡ state) }
{}

/// First come, first served. Let an address be live at a port at t0, after the events of `early`, and no longer at t, after
/// those of `late` too (newest first). Then the host at that port wasn't heard for as long as a test takes, up to a moment
/// after t0 and by t. Where the address was bound to the port at t0, the whole of that time lies behind t0. These runs start
/// from no binding and have the five events of first come alone; `mix_rules` has the law for all nine kinds, from any sound
/// state.
pub fn first_come_is_first_served()
    ensures { (k : Times) (t0 t : ℕ) (early late : List TimedEvent) (port : Port)
        → AreTimes k → t0 ≤ t → IsTimeline t0 early → IsTimeline t (late ++ early)
        → AllByRecursion (λ mark. t0 ≤ mark.moment) late
        → IsLive (aged k t0 (state_of k early)).state port
        → ¬ IsLive (aged k t (state_of k (late ++ early))).state port
        → IsLostByTest k port t0 t (aged k t0 (state_of k early)).state (late ++ early) }
{}
