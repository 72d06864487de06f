// What the states of all addresses come to. Each function does nothing: its contract is the law.

ghost use Rattle.std.specs.Prelude.{◌≡◌, ℕ, ◌+◌, ◌*◌, ◌==◌, ◌<◌, ◌≤◌, ◌^◌, ◌↔◌, ◌≢◌, nat_lt, true, false, Some, length, List, ◌∷◌, ◌++◌, count_by};
ghost use Rattle.std.specs.List.{sum_by};
ghost use Rattle.savi_kinds.specs.Ports.{number_of};
ghost use Rattle.savi_kinds.specs.declared.port.Port.{Port};
ghost use Rattle.savi_kinds.specs.declared.plan.Method.{Method};
ghost use Rattle.fcfs_states.specs.declared.event.Ev.TheVariants.{Sent};
ghost use Rattle.fcfs_states.specs.Premises.{AreTimes};
ghost use Rattle.fcfs_states.specs.States.{Same};
ghost use Rattle.mix_rules.specs.declared.state.AddrState.{AddrState};
ghost use Rattle.mix_rules.specs.States.{IsSoundFor, is_held_at};
ghost use Rattle.mix_rules.specs.Holders.{MakesHolder};
ghost use Rattle.mix_rules.specs.Next.{next_state, IsPassing};
ghost use Rattle.mix_rules.specs.Ageing.{aged_state};
ghost use Rattle.mix_rules.specs.FirstCome.{state_of as run_of};
ghost use Rattle.savi_access.specs.declared.row.Row.{Row};
ghost use Rattle.savi_access.specs.Rows.{IsTable, state_in, with_state, count_at};
ghost use Rattle.savi_access.specs.Ages.{aged_rows};
ghost use Rattle.savi_access.specs.declared.sent.SentProbe.{SentProbe};
ghost use Rattle.savi_access.specs.Sends.{sends};
ghost use Rattle.savi_access.specs.Rooms.{port_of};
ghost use Rattle.savi_access.specs.Bases.{AddrRules, AddrBase, AreTables, no_states};
ghost use Rattle.savi_kinds.specs.Orders.{AreInTurn};
ghost use Rattle.savi_access.specs.NamedMarks.{Named, names, marks_on, last_moment, named_moment};
ghost use Rattle.savi_access.specs.States.{state_of, state_at, answer_at, IsLiveAfter};
ghost use Rattle.savi_access.specs.Tables.{rows_at, held_at, AreDifferent};
ghost use Rattle.savi_access.specs.Probes.{probes_between, HasChanged, IsAmong, AreInOrder};
ghost use Rattle.savi_access.specs.Limits.{base_at, IsAddrBase, MayFollow, IsPast};
ghost use Rattle.savi_access.specs.FirstCome.{IsKeptOn};

/// A table has each state once and in one order: two tables that give each address the same state are one.
pub fn there_is_one_table()
    ensures { (rows others : List Row) → IsTable rows → IsTable others → ((a : ℕ) → state_in rows a ≡ state_in others a)
        → rows ≡ others }
{}

/// The rows of a VLAN are a table, and they are the states of its addresses.
pub fn rows_are_the_states()
    ensures table { (r : AddrRules) (base : AddrBase) (past : List Named) (t vlan : ℕ)
        → AreTables base → IsTable (rows_at r base past t vlan) }
    ensures states { (r : AddrRules) (base : AddrBase) (past : List Named) (t vlan a : ℕ)
        → AreTimes r.times → AreTables base
        → state_in (rows_at r base past t vlan) a ≡ state_at r base past t vlan a }
{}

/// An address sees its own marks alone: its state is that of a run of one address over the marks that name it. So other
/// marks don't change it, and with the same marks an address has the same state and the same answer to what comes next.
pub fn an_address_sees_its_own_marks()
    ensures run { (r : AddrRules) (base : AddrBase) (past : List Named) (vlan a : ℕ) (m : Method)
        → r.method_of vlan a ≡ Some m
        → state_of r base past vlan a ≡ run_of m r.times (state_in (base.rows vlan) a) (marks_on vlan a past) }
    ensures others { (r : AddrRules) (base : AddrBase) (past : List Named) (named : Named) (vlan a : ℕ)
        → names vlan a named ≡ false → state_of r base (named ∷ past) vlan a ≡ state_of r base past vlan a }
    ensures same { (r : AddrRules) (base : AddrBase) (past other : List Named) (vlan a : ℕ)
        → marks_on vlan a past ≡ marks_on vlan a other → state_of r base past vlan a ≡ state_of r base other vlan a }
    ensures answers { (r : AddrRules) (base : AddrBase) (past other : List Named) (named : Named)
        → marks_on named.vlan named.address past ≡ marks_on named.vlan named.address other
        → answer_at r base past named ≡ answer_at r base other named }
{}

/// Ageing in between changes nothing: to age to t and then to u is to age to u.
pub fn later_ageing_is_the_same()
    ensures state { (r : AddrRules) (base : AddrBase) (past : List Named) (t u vlan a : ℕ)
        → AreTimes r.times → t ≤ u
        → state_at r base past u vlan a ≡ (aged_state r.times u (state_at r base past t vlan a)).state }
    ensures rows { (r : AddrRules) (base : AddrBase) (past : List Named) (t u vlan : ℕ)
        → AreTimes r.times → AreTables base → t ≤ u
        → rows_at r base past u vlan ≡ aged_rows r.times u (rows_at r base past t vlan) }
{}

/// A mark gives its address the state and the answer of its row of the tables, and leaves all others as they are at its
/// moment.
pub fn a_mark_moves_one_row()
    ensures own { (r : AddrRules) (base : AddrBase) (past : List Named) (named : Named) (m : Method)
        → AreTimes r.times → AreTables base → r.method_of named.vlan named.address ≡ Some m
        → rows_at r base (named ∷ past) named.moment named.vlan
        ≡ with_state named.address
        (next_state m r.times named.moment named.room
        (state_in (rows_at r base past named.moment named.vlan) named.address) named.event).1
        (rows_at r base past named.moment named.vlan) }
    ensures answer { (r : AddrRules) (base : AddrBase) (past : List Named) (named : Named) (m : Method)
        → AreTimes r.times → AreTables base → r.method_of named.vlan named.address ≡ Some m
        → answer_at r base past named
        ≡ (next_state m r.times named.moment named.room
        (state_in (rows_at r base past named.moment named.vlan) named.address) named.event).0 }
    ensures others { (r : AddrRules) (base : AddrBase) (past : List Named) (named : Named) (t vlan : ℕ)
        → named.vlan ≢ vlan → rows_at r base (named ∷ past) t vlan ≡ rows_at r base past t vlan }
{}

/// Some address has another state at a later moment exactly where the rows are other rows.
pub fn a_change_is_one_of_the_rows()
    ensures { (r : AddrRules) (base : AddrBase) (past : List Named) (from t vlan : ℕ)
        → AreTimes r.times → AreTables base → from ≤ t
        → (HasChanged r base past from t vlan ↔ (rows_at r base past t vlan ≢ rows_at r base past from vlan)) }
{}

/// The states at a moment are a base from which the later marks lead on as the whole list does; and these may come after
/// that base as they may after the list.
pub fn states_are_read_from_any_moment()
    ensures legal { (r : AddrRules) (base : AddrBase) (early late : List Named) (t0 t : ℕ)
        → AreTimes r.times → AreTables base → AreInTurn named_moment t0 t late → last_moment base early ≤ t0
        → (IsPast r base (late ++ early) ↔ IsPast r base early × IsPast r (base_at r base early t0) late) }
    ensures turn { (r : AddrRules) (base : AddrBase) (past : List Named) (t : ℕ)
        → IsPast r base past → last_moment base past ≤ t → AreInTurn named_moment base.moment t past }
    ensures rows { (r : AddrRules) (base : AddrBase) (early late : List Named) (t0 t vlan : ℕ)
        → AreTimes r.times → AreTables base → AreInTurn named_moment t0 t late
        → rows_at r base (late ++ early) t vlan ≡ rows_at r (base_at r base early t0) late t vlan }
    ensures states { (r : AddrRules) (base : AddrBase) (early late : List Named) (t0 t vlan a : ℕ)
        → AreTimes r.times → AreTables base → AreInTurn named_moment t0 t late
        → state_at r base (late ++ early) t vlan a ≡ state_at r (base_at r base early t0) late t vlan a }
{}

/// The states that a list of marks leaves, at a moment from its last mark on, are within the limits as the base was: each is
/// sound for the method of its address, none is due, and no port holds more addresses than it may. So is the start of a
/// switch.
pub fn states_stay_a_base()
    ensures start { (r : AddrRules) → AreTimes r.times → IsAddrBase r no_states }
    ensures kept { (r : AddrRules) (base : AddrBase) (past : List Named) (t : ℕ)
        → IsAddrBase r base → IsPast r base past → last_moment base past ≤ t → t ≤ 2 ^ 62
        → IsAddrBase r (base_at r base past t) }
{}

/// A port holds addresses of its own VLAN and none of another one. So what it holds in the VLANs of any list that has its
/// own once comes to `held_at`, and the room of a mark is whether its port holds fewer addresses in all than it may.
pub fn a_port_holds_addresses_of_its_vlan()
    ensures own { (r : AddrRules) (base : AddrBase) (past : List Named) (t vlan a port : ℕ)
        → IsAddrBase r base → IsPast r base past
        → is_held_at port (state_at r base past t vlan a) ≡ true → r.vlan_of port ≡ Some vlan }
    ensures others { (r : AddrRules) (base : AddrBase) (past : List Named) (t vlan port : ℕ)
        → IsAddrBase r base → IsPast r base past
        → r.vlan_of port ≢ Some vlan → count_at port (rows_at r base past t vlan) ≡ 0 }
    ensures whole { (r : AddrRules) (base : AddrBase) (past : List Named) (t vlan port : ℕ) (vlans : List ℕ)
        → IsAddrBase r base → IsPast r base past
        → r.vlan_of port ≡ Some vlan → count_by (λ v. v == vlan) vlans ≡ 1
        → sum_by (λ v. count_at port (rows_at r base past t v)) vlans ≡ held_at r base past t port }
    ensures room { (r : AddrRules) (base : AddrBase) (past : List Named) (named : Named) (p : Port)
        → MayFollow r base past named → port_of named.event ≡ Some p
        → named.room ≡ nat_lt (held_at r base past named.moment (number_of p)) r.per_port }
{}

/// No port holds more addresses than it may.
pub fn no_port_holds_too_many()
    ensures { (r : AddrRules) (base : AddrBase) (past : List Named) (t : ℕ) (port : Port)
        → IsAddrBase r base → IsPast r base past → last_moment base past ≤ t
        → held_at r base past t (number_of port) ≤ r.per_port }
{}

/// A port comes to hold more addresses only by an event of its own for which it has room, or by the operator, and never by
/// ageing.
pub fn a_port_comes_to_hold_by_its_own_event()
    ensures marks { (r : AddrRules) (base : AddrBase) (past : List Named) (named : Named) (port : Port)
        → AreTimes r.times → AreTables base
        → held_at r base past named.moment (number_of port) < held_at r base (named ∷ past) named.moment (number_of port)
        → MakesHolder port named.room named.event }
    ensures ageing { (r : AddrRules) (base : AddrBase) (past : List Named) (t u : ℕ) (port : Port)
        → AreTimes r.times → AreTables base → t ≤ u
        → held_at r base past u (number_of port) ≤ held_at r base past t (number_of port) }
{}

/// First come, first served, over the marks of many addresses and from any base in which the address is sound. An address
/// that is live at a port at t0, after `early`, and no longer at t, after `late` too, was lost by one of three causes: its
/// host's silence for as long as a test takes, the operator, or the end of a binding by DHCP there. And a packet from it
/// that passes at another port says that one of them was there.
pub fn a_history_keeps_who_came_first()
    ensures kept { (r : AddrRules) (base : AddrBase) (from t0 t : ℕ) (early late : List Named) (vlan a : ℕ) (m : Method)
        (port : Port)
        → AreTimes r.times → r.method_of vlan a ≡ Some m → IsSoundFor m (state_in (base.rows vlan) a)
        → AreInTurn named_moment from t0 early → AreInTurn named_moment t0 t late
        → IsLiveAfter r base early t0 vlan a port
        → ¬ IsLiveAfter r base (late ++ early) t vlan a port
        → IsKeptOn r base m early t0 late t vlan a port }
    ensures packets { (r : AddrRules) (base : AddrBase) (from t0 : ℕ) (early late : List Named) (named : Named) (m : Method)
        (p q : Port)
        → AreTimes r.times → r.method_of named.vlan named.address ≡ Some m
        → IsSoundFor m (state_in (base.rows named.vlan) named.address)
        → AreInTurn named_moment from t0 early → AreInTurn named_moment t0 named.moment late
        → named.event ≡ Sent q → ¬ Same q p
        → IsLiveAfter r base early t0 named.vlan named.address p
        → IsPassing (answer_at r base (late ++ early) named)
        → IsKeptOn r base m early t0 late named.moment named.vlan named.address p }
{}

/// The probes from one moment to another are those that ageing of the states sends and that are due after the first, each
/// once, in order of the moment at which each is due and then of address. The rows as they are at the first moment send
/// them. To look in between changes nothing.
pub fn probes_are_all_in_order()
    ensures members { (r : AddrRules) (base : AddrBase) (past : List Named) (from t vlan : ℕ) (sent : SentProbe)
        → AreTimes r.times → AreTables base
        → (IsAmong sent (probes_between r base past from t vlan)
        ↔ (from < sent.due)
        × IsAmong (sent.due, sent.probe) (aged_state r.times t (state_of r base past vlan sent.address.0)).probes) }
    ensures order { (r : AddrRules) (base : AddrBase) (past : List Named) (from t vlan : ℕ)
        → AreTimes r.times → AreTables base → AreInOrder (probes_between r base past from t vlan) }
    ensures rows { (r : AddrRules) (base : AddrBase) (past : List Named) (from t vlan : ℕ)
        → AreTimes r.times → from ≤ t
        → probes_between r base past from t vlan ≡ sends r.times t (rows_at r base past from vlan) }
    ensures joined { (r : AddrRules) (base : AddrBase) (past : List Named) (from t u vlan : ℕ)
        → AreTimes r.times → AreTables base → from ≤ t → t ≤ u
        → probes_between r base past from u vlan
        ≡ probes_between r base past from t vlan ++ probes_between r base past t u vlan }
{}

/// No address sends more than three probes in one ageing, and there are at most as many addresses with a state as 16 ports
/// may hold: in each VLAN, and over all VLANs too. So no ageing sends more than 48 times what a port may hold at once.
pub fn few_probes_at_once()
    ensures each { (r : AddrRules) (base : AddrBase) (past : List Named) (t vlan a : ℕ)
        → AreTimes r.times → length (aged_state r.times t (state_of r base past vlan a)).probes ≤ 3 }
    ensures addresses { (r : AddrRules) (base : AddrBase) (past : List Named) (t vlan : ℕ)
        → IsAddrBase r base → IsPast r base past → last_moment base past ≤ t
        → length (rows_at r base past t vlan) ≤ 16 * r.per_port }
    ensures all { (r : AddrRules) (base : AddrBase) (past : List Named) (from t vlan : ℕ)
        → IsAddrBase r base → IsPast r base past → last_moment base past ≤ from → from ≤ t
        → length (probes_between r base past from t vlan) ≤ 48 * r.per_port }
    ensures addresses_everywhere { (r : AddrRules) (base : AddrBase) (past : List Named) (t : ℕ) (vlans : List ℕ)
        → IsAddrBase r base → IsPast r base past → last_moment base past ≤ t → AreDifferent vlans
        → sum_by (λ vlan. length (rows_at r base past t vlan)) vlans ≤ 16 * r.per_port }
    ensures everywhere { (r : AddrRules) (base : AddrBase) (past : List Named) (from t : ℕ) (vlans : List ℕ)
        → IsAddrBase r base → IsPast r base past → last_moment base past ≤ from → from ≤ t → AreDifferent vlans
        → sum_by (λ vlan. length (probes_between r base past from t vlan)) vlans ≤ 48 * r.per_port }
{}
