// What the tables of both methods come to. Each function does nothing: its contract is the law.

ghost use Rattle.std.specs.Prelude.{◌≡◌, ℕ, ◌+◌, ◌<◌, ◌≤◌, ◌^◌, ◌↔◌, ◌⊎◌, Bool, true, false, Option, Some, None, List, [], ◌++◌};
ghost use Rattle.savi_kinds.specs.declared.port.Port.{Port};
ghost use Rattle.savi_kinds.specs.declared.plan.Method.{Method};
ghost use Rattle.fcfs_states.specs.declared.answer.Probe.{Probe};
ghost use Rattle.fcfs_states.specs.declared.event.Ev.{Ev};
ghost use Rattle.fcfs_states.specs.declared.event.Ev.TheVariants.{Sent, Na};
ghost use Rattle.fcfs_states.specs.declared.times.Times.{Times};
ghost use Rattle.fcfs_states.specs.Premises.{AreTimes};
ghost use Rattle.fcfs_states.specs.States.{Same};
ghost use Rattle.fcfs_states.specs.Ageing.{IsRested, probes_behind};
ghost use Rattle.fcfs_states.specs.FirstCome.{TimedEvent, IsTestOf, IsHeardAt, IsSilentAfter, event_moment};
ghost use Rattle.mix_rules.specs.declared.state.AddrState.{AddrState};
ghost use Rattle.mix_rules.specs.States.{nobody, has_state, IsSoundFor, IsLiveAt, IsHeldAt};
ghost use Rattle.mix_rules.specs.Holders.{MakesHolder};
ghost use Rattle.mix_rules.specs.Next.{next_state, IsPassing};
ghost use Rattle.mix_rules.specs.TableLaws.{IsOnlyRow};
ghost use Rattle.mix_rules.specs.Ageing.{aged_state, due_next, joined_ageing, IsStill, IsTouched};
ghost use Rattle.mix_rules.specs.Premises.{AllMomentsFit, IsLeaseInRange};
ghost use Rattle.mix_rules.specs.Ends.{IsByOperator, EndsByEvent, EndsByTime, EndsByTest};
ghost use Rattle.savi_kinds.specs.Orders.{AreInTurn};
ghost use Rattle.mix_rules.specs.FirstCome.{state_of, state_at, answer_at, KeepsAddress};

/// An address has no state exactly where its state is that of an address that no port has.
pub fn nobody_alone_has_no_state()
    ensures { (s : AddrState) → ((has_state s ≡ false) ↔ (s ≡ nobody)) }
{}

/// Each sound state and event meets exactly one row of the table, under each method.
pub fn every_event_meets_one_row()
    ensures { (m : Method) (k : Times) (t : ℕ) (room : Bool) (s : AddrState) (event : Ev)
        → IsSoundFor m s → IsOnlyRow m k t room s event (next_state m k t room s event) }
{}

/// Events and ageing keep what an event needs of a state: it is sound for its method, nothing is due in it, and its
/// moments fit. The state of an address that no port has is such a state.
pub fn states_stay_valid()
    ensures sound_start { (m : Method) → IsSoundFor m nobody }
    ensures sound_events { (m : Method) (k : Times) (t : ℕ) (room : Bool) (s : AddrState) (event : Ev)
        → IsSoundFor m s → IsSoundFor m (next_state m k t room s event).1 }
    ensures sound_ageing { (m : Method) (k : Times) (t : ℕ) (s : AddrState)
        → AreTimes k → IsSoundFor m s → IsSoundFor m (aged_state k t s).state }
    ensures still_events { (m : Method) (k : Times) (t : ℕ) (room : Bool) (s : AddrState) (event : Ev)
        → AreTimes k → IsStill k t s → IsStill k t (next_state m k t room s event).1 }
    ensures still_ageing { (k : Times) (t : ℕ) (s : AddrState) → AreTimes k → IsStill k t (aged_state k t s).state }
    ensures fits_events { (m : Method) (k : Times) (t : ℕ) (room : Bool) (s : AddrState) (event : Ev)
        → AreTimes k → t ≤ 2 ^ 62 → IsLeaseInRange event → AllMomentsFit s → AllMomentsFit (next_state m k t room s event).1 }
    ensures fits_ageing { (k : Times) (t : ℕ) (s : AddrState)
        → AreTimes k → t ≤ 2 ^ 62 → AllMomentsFit s → AllMomentsFit (aged_state k t s).state }
{}

/// Ageing to t and then to u is ageing to u, with the two lists of probes joined. So it doesn't matter how often, or how
/// late, a state is aged.
pub fn ageing_composes()
    ensures { (k : Times) (t u : ℕ) (s : AddrState) → AreTimes k → t ≤ u
        → aged_state k u s ≡ joined_ageing (aged_state k t s) (aged_state k u (aged_state k t s).state) }
{}

/// Where nothing is due at t, and only there, ageing to t changes nothing and sends no probe.
pub fn a_still_state_is_not_touched()
    ensures { (k : Times) (t : ℕ) (s : AddrState) → AreTimes k → (IsStill k t s ↔ ¬ IsTouched k t s) }
{}

/// Ageing changes the state or sends a probe from the moment on at which something is due first, and never where nothing
/// is. To age to that very moment sends one probe, or none.
pub fn what_is_due_first_is_the_earliest()
    ensures first { (k : Times) (t due : ℕ) (s : AddrState)
        → AreTimes k → due_next k s ≡ Some due → (IsTouched k t s ↔ (due ≤ t)) }
    ensures never { (k : Times) (t : ℕ) (s : AddrState) → AreTimes k → due_next k s ≡ None → ¬ IsTouched k t s }
    ensures one_probe { (k : Times) (due : ℕ) (s : AddrState) → AreTimes k → due_next k s ≡ Some due
        → (probe : Option Probe) × ((aged_state k due s).probes ≡ probes_behind due probe []) }
{}

/// An address is live at one port at most.
pub fn an_address_is_live_at_one_port()
    ensures { (s : AddrState) (p q : Port) → IsLiveAt s p → IsLiveAt s q → Same p q }
{}

/// A port comes to hold an address by an event of its own where it has room, or by the operator, and never by ageing; and an
/// address that has a state is held somewhere. So the addresses that a port holds never exceed those for which it has room.
pub fn a_port_holds_what_it_has_room_for()
    ensures events { (m : Method) (k : Times) (t : ℕ) (room : Bool) (s : AddrState) (event : Ev) (port : Port)
        → ¬ IsHeldAt s port → IsHeldAt (next_state m k t room s event).1 port → MakesHolder port room event }
    ensures ageing { (k : Times) (t : ℕ) (s : AddrState) (port : Port)
        → AreTimes k → IsHeldAt (aged_state k t s).state port → IsHeldAt s port }
    ensures someone { (s : AddrState) → has_state s ≡ true → (port : Port) × IsHeldAt s port }
{}

/// A packet from the address, or an advertisement of it, passes at a port of a host exactly where the address is live; and
/// a packet leaves it live there.
pub fn passes_are_those_of_live_ports()
    ensures sent { (m : Method) (k : Times) (t : ℕ) (room : Bool) (s : AddrState) (p : Port)
        → IsSoundFor m s → (IsPassing (next_state m k t room s (Sent p)).0 ↔ IsLiveAt s p) }
    ensures na { (m : Method) (k : Times) (t : ℕ) (room : Bool) (s : AddrState) (p : Port)
        → IsSoundFor m s → (IsPassing (next_state m k t room s (Na p)).0 ↔ IsLiveAt s p) }
    ensures stays { (m : Method) (k : Times) (t : ℕ) (room : Bool) (s : AddrState) (p : Port)
        → IsLiveAt s p → IsLiveAt (next_state m k t room s (Sent p)).1 p }
{}

/// An address that is live at a port leaves it by no event but the operator's and one that ends a binding by DHCP there,
/// and by no ageing but the end of such a binding or that of a test of the port. From one moment to the next this is a
/// test that stood, and ends then.
pub fn only_these_end_that_an_address_is_live()
    ensures events { (m : Method) (k : Times) (t : ℕ) (room : Bool) (s : AddrState) (event : Ev) (port : Port)
        → IsLiveAt s port → ¬ IsLiveAt (next_state m k t room s event).1 port
        → IsByOperator event ⊎ EndsByEvent port event s (next_state m k t room s event).1 }
    ensures ageing { (m : Method) (k : Times) (t : ℕ) (s : AddrState) (port : Port)
        → AreTimes k → IsSoundFor m s → IsLiveAt s port → ¬ IsLiveAt (aged_state k t s).state port
        → EndsByTime port t s ⊎ EndsByTest k port t s }
    ensures moment { (m : Method) (k : Times) (t : ℕ) (s : AddrState) (port : Port)
        → AreTimes k → IsSoundFor m s → IsStill k t s → IsLiveAt s port → ¬ IsLiveAt (aged_state k (t + 1) s).state port
        → EndsByTime port (t + 1) s ⊎ ((since : ℕ) × IsTestOf port since s.fcfs × (since + k.test ≡ t + 1)) }
{}

/// While a test stands its holder isn't heard: an event that leaves a test which began before it leaves it as it is, and is
/// none of its holder; a test that ageing leaves stood before it, or began after any moment at which nothing was due; and
/// in a run of events from a sound state that leaves a test, aged to t, no event above the moment at which the test began
/// was one of its holder.
pub fn a_test_stands_in_silence()
    ensures event { (m : Method) (k : Times) (t : ℕ) (room : Bool) (s : AddrState) (event : Ev) (port : Port) (since : ℕ)
        → IsSoundFor m s → IsTestOf port since (next_state m k t room s event).1.fcfs → since < t
        → (¬ IsHeardAt port event) × ((next_state m k t room s event).1.fcfs ≡ s.fcfs) }
    ensures ageing { (k : Times) (t from : ℕ) (s : AddrState) (port : Port) (since : ℕ)
        → AreTimes k → IsRested k from s.fcfs → IsTestOf port since (aged_state k t s).state.fcfs
        → IsTestOf port since s.fcfs ⊎ (from < since) }
    ensures run { (m : Method) (k : Times) (base : AddrState) (from t : ℕ) (past : List TimedEvent) (port : Port) (since : ℕ)
        → AreTimes k → IsSoundFor m base → AreInTurn event_moment from t past → IsTestOf port since (state_at m k base past t).fcfs
        → IsSilentAfter port since past }
{}

/// A run of events may be cut at any moment: the state at it leads on as the whole run does. And the states of a run from a
/// sound one are sound.
pub fn states_are_read_from_any_moment()
    ensures cut { (m : Method) (k : Times) (base : AddrState) (t0 t : ℕ) (early late : List TimedEvent)
        → AreTimes k → AreInTurn event_moment t0 t late
        → state_at m k base (late ++ early) t ≡ state_at m k (state_at m k base early t0) late t }
    ensures sound { (m : Method) (k : Times) (base : AddrState) (past : List TimedEvent)
        → AreTimes k → IsSoundFor m base → IsSoundFor m (state_of m k base past) }
{}

/// First come, first served, over events of all kinds and from any sound state. An address that is live at a port at t0,
/// after the events of `early`, and no longer at t, after those of `late` too (newest first), was lost by one of three
/// causes: its host's silence for as long as a test takes, the operator, or the end of a binding by DHCP there.
pub fn who_has_an_address_keeps_it()
    ensures { (m : Method) (k : Times) (base : AddrState) (from t0 t : ℕ) (early late : List TimedEvent) (port : Port)
        → AreTimes k → IsSoundFor m base → AreInTurn event_moment from t0 early → AreInTurn event_moment t0 t late
        → IsLiveAt (state_at m k base early t0) port
        → ¬ IsLiveAt (state_at m k base (late ++ early) t) port
        → KeepsAddress m k base early t0 late t port }
{}

/// So a packet from it that passes at another port of a host says that one of the three causes was there.
pub fn first_come_is_first_served()
    ensures { (m : Method) (k : Times) (base : AddrState) (from t0 : ℕ) (early late : List TimedEvent) (mark : TimedEvent) (p q : Port)
        → AreTimes k → IsSoundFor m base → AreInTurn event_moment from t0 early → AreInTurn event_moment t0 mark.moment late
        → mark.event ≡ Sent q → ¬ Same q p
        → IsLiveAt (state_at m k base early t0) p
        → IsPassing (answer_at m k base (late ++ early) mark)
        → KeepsAddress m k base early t0 late mark.moment p }
{}
