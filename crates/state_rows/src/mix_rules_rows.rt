//! The rows of both methods, written out, and one address over its life.

ghost use Rattle.mix_rules.specs.States.{IsSoundFor};
ghost use Rattle.mix_rules.specs.Premises.{AllMomentsFit};

use crate::plain::{Says, TIMES, plain_verdict, port, port_of};
use fcfs_states::{Answer, Ev, Fcfs, Probe};
use mix_rules::AddrState;
use savi_kinds::{LAST_MOMENT, Method, Rule};
use std::process::Abort;

/// An event, with its port as a number.
#[derive(Clone, Copy, PartialEq, Eq, Debug)]
enum Act {
    Sent(u8),
    Dad(u8),
    Na(u8),
    TpDad,
    TpNa,
    Lease(u8, u32),
    Release(u8),
    Fix(u8),
    Clear,
}

/// A state of first come, with its ports as numbers.
#[derive(Clone, Copy, PartialEq, Eq, Debug)]
enum Plain {
    NoBind,
    Tentative(u8, u64),
    Valid(u8, u64),
    TestLt(u8, u64),
    TestVp(u8, u8, u64),
}

use Act::{Clear, Dad, Fix, Lease, Na, Release, Sent, TpDad, TpNa};
use Method::{Dhcp, Mixed};
use Plain::{NoBind, Tentative, TestLt, TestVp, Valid};
use Rule::{NaTarget, NotAssigned, PortFull, Unverified, WrongPort};
use Says::{All, Drop, Silent, Trusted, TrustedAnd};

/// A binding by DHCP: its port, and the moment (ms) at which it ends, where it does.
type Binding = Option<(u8, Option<u64>)>;

/// A state: the port to which the address is fixed, the state of first come, the binding by DHCP.
type State = (Option<u8>, Plain, Binding);

fn plain_state(state: AddrState) -> State {
    let fcfs = match state.fcfs {
        Fcfs::NoBind => Plain::NoBind,
        Fcfs::Tentative { p, since, .. } => Plain::Tentative(p.get(), since),
        Fcfs::Valid { p, until } => Plain::Valid(p.get(), until),
        Fcfs::TestLt { p, since, .. } => Plain::TestLt(p.get(), since),
        Fcfs::TestVp { p, q, since, .. } => Plain::TestVp(p.get(), q.get(), since),
    };
    let binding = match state.dhcp {
        Some(bound) => Some((bound.p.get(), bound.until)),
        None => None,
    };
    let fixed = match state.fixed {
        Some(f) => Some(f.get()),
        None => None,
    };
    (fixed, fcfs, binding)
}

fn event_of(rt: &impl Abort, act: Act) -> Ev {
    match act {
        Sent(p) => Ev::Sent(port_of(rt, p)),
        Dad(p) => Ev::Dad(port_of(rt, p)),
        Na(p) => Ev::Na(port_of(rt, p)),
        TpDad => Ev::TpDad,
        TpNa => Ev::TpNa,
        Lease(p, valid) => {
            let p = port_of(rt, p);
            Ev::Lease { p, valid }
        }
        Release(p) => Ev::Release(port_of(rt, p)),
        Fix(p) => Ev::Fix(port_of(rt, p)),
        Clear => Ev::Clear,
    }
}

/// Ages the state to this moment, and lets it take the event.
fn happens(
    rt: &impl Abort,
    m: Method,
    state: &mut AddrState,
    event: (u64, Act),
    room: bool,
) -> Answer
    requires sound { IsSoundFor m state.old }
    requires fits { AllMomentsFit state.old }
    ensures sound { IsSoundFor m state.new }
    ensures fits { AllMomentsFit state.new }
{
    let (at, act) = event;
    assert!(rt; at <= LAST_MOMENT);
    state.age(at, &TIMES);
    state.step(m, event_of(rt, act), at, room, &TIMES)
}

/// The moment of each event of the rows.
const NOW: u64 = 2400;

/// A row for a state: the event, whether its port has room, the verdict, the state after it.
type Row = (Act, bool, Says, State);

const ROOM: bool = true;

const FULL: bool = false;

const NOBODY: State = (None, NoBind, None);

const FIXED: State = (Some(1), NoBind, None);

/// Bound to port 1 by a lease of 600 s at 1000, and by one at `NOW`.
const BOUND: State = (None, NoBind, Some((1, Some(721_000))));

const LEASED: State = (None, NoBind, Some((1, Some(722_400))));

const MOVED: State = (None, NoBind, Some((2, Some(722_400))));

const ENDLESS: State = (None, NoBind, Some((1, None)));

/// Claimed at port 1 at 1000, and so bound there by first come; and the same with a lease of 600 s at `NOW`.
const CLAIMED: State = (None, Valid(1, 301_500), None);

const CLAIMED_AND_LEASED: State = (None, Valid(1, 301_500), Some((1, Some(722_400))));

/// The same with a lease of 600 s at 2000, and once the host was heard at `NOW`.
const BOTH: State = (None, Valid(1, 301_500), Some((1, Some(722_000))));

const BOTH_HEARD: State = (None, Valid(1, 302_400), Some((1, Some(722_000))));

/// Claimed at port 1 at 2100, with a lease of 600 s at 2200; and without the claim.
const CLAIMING: State = (None, Tentative(1, 2100), Some((1, Some(722_200))));

const UNCLAIMED: State = (None, NoBind, Some((1, Some(722_200))));

/// Claimed at port 1 at 1000 and at port 2 at 2200.
const CONTESTED: State = (None, TestVp(1, 2, 2200), None);

/// Claimed at port 1 at 1000, and asked for at a trusted port at 2000; and the same with a lease of 600 s at 2200, and with
/// one at `NOW`.
const ASKED: State = (None, TestLt(1, 2000), None);

const ASKED_OF_BOTH: State = (None, TestLt(1, 2000), Some((1, Some(722_200))));

const ASKED_AND_LEASED: State = (None, TestLt(1, 2000), Some((1, Some(722_400))));

/// Nothing but configuration decides.
const IN_FIXED: &[Row] = &[
    (Sent(1), ROOM, All, FIXED),
    (Na(1), ROOM, All, FIXED),
    (Dad(1), ROOM, Trusted, FIXED),
    (Sent(2), ROOM, Drop(WrongPort), FIXED),
    (Dad(2), ROOM, TrustedAnd(1), FIXED),
    (Na(2), ROOM, Drop(NaTarget), FIXED),
    (TpDad, FULL, TrustedAnd(1), FIXED),
    (TpNa, FULL, All, FIXED),
    (Lease(1, 600), ROOM, Silent, FIXED),
    (Lease(2, 600), ROOM, Silent, FIXED),
    (Release(1), ROOM, Silent, FIXED),
    (Fix(2), FULL, Silent, (Some(2), NoBind, None)),
    (Clear, FULL, Silent, NOBODY),
];

const IN_BOUND: &[Row] = &[
    (Sent(1), ROOM, All, BOUND),
    (Na(1), ROOM, All, BOUND),
    (Dad(1), ROOM, Trusted, BOUND),
    (Sent(2), ROOM, Drop(WrongPort), BOUND),
    (Dad(2), ROOM, TrustedAnd(1), BOUND),
    (Na(2), ROOM, Drop(NaTarget), BOUND),
    (TpDad, FULL, TrustedAnd(1), BOUND),
    (TpNa, FULL, All, BOUND),
    (Lease(1, 0), ROOM, Silent, NOBODY),
    (Lease(2, 0), ROOM, Silent, BOUND),
    (Lease(1, 600), FULL, Silent, LEASED),
    (Lease(1, 0xffff_ffff), FULL, Silent, ENDLESS),
    (Lease(2, 600), ROOM, Silent, MOVED),
    (Lease(2, 600), FULL, Silent, BOUND),
    (Release(1), ROOM, Silent, NOBODY),
    (Release(2), ROOM, Silent, BOUND),
    (Fix(1), FULL, Silent, FIXED),
];

/// First come takes what its own port says, and objections.
const IN_CLAIMING: &[Row] = &[
    (Sent(1), ROOM, All, CLAIMING),
    (Dad(1), ROOM, Trusted, CLAIMING),
    (Na(1), ROOM, All, CLAIMING),
    (Dad(2), ROOM, TrustedAnd(1), CLAIMING),
    (TpDad, FULL, TrustedAnd(1), CLAIMING),
    (TpNa, FULL, All, UNCLAIMED),
];

/// The end of one method's binding leaves the other's.
const IN_BOTH: &[Row] = &[
    (Sent(1), ROOM, All, BOTH_HEARD),
    (Na(1), ROOM, All, BOTH_HEARD),
    (Dad(1), ROOM, Trusted, BOTH_HEARD),
    (Sent(2), ROOM, Drop(WrongPort), BOTH),
    (Dad(2), ROOM, TrustedAnd(1), BOTH),
    (Na(2), ROOM, Drop(NaTarget), BOTH),
    (TpDad, FULL, TrustedAnd(1), BOTH),
    (TpNa, FULL, All, BOTH),
    (Lease(1, 600), FULL, Silent, CLAIMED_AND_LEASED),
    (Lease(1, 0), ROOM, Silent, CLAIMED),
    (Lease(2, 600), ROOM, Silent, BOTH),
    (Release(1), ROOM, Silent, CLAIMED),
    (Clear, FULL, Silent, NOBODY),
];

const IN_UNASSIGNED: &[Row] = &[
    (Sent(1), ROOM, Drop(NotAssigned), NOBODY),
    (Dad(1), ROOM, Drop(NotAssigned), NOBODY),
    (Na(1), ROOM, Drop(NaTarget), NOBODY),
    (TpDad, FULL, Trusted, NOBODY),
    (TpNa, FULL, All, NOBODY),
    (Lease(1, 600), ROOM, Silent, LEASED),
    (Lease(1, 600), FULL, Silent, NOBODY),
    (Lease(1, 0), ROOM, Silent, NOBODY),
    (Release(1), ROOM, Silent, NOBODY),
];

/// Without an owner first come has its own table.
const IN_NOBODY: &[Row] = &[
    (
        Sent(1),
        ROOM,
        Drop(Unverified),
        (None, Tentative(1, NOW), None),
    ),
    (Sent(1), FULL, Drop(PortFull), NOBODY),
    (Lease(1, 600), ROOM, Silent, LEASED),
];

const IN_CLAIMED: &[Row] = &[
    (Sent(1), FULL, All, (None, Valid(1, 302_400), None)),
    (Dad(2), FULL, Drop(PortFull), CLAIMED),
    (TpDad, FULL, TrustedAnd(1), (None, TestLt(1, NOW), None)),
    (Lease(1, 600), FULL, Silent, CLAIMED_AND_LEASED),
    (Lease(2, 600), ROOM, Silent, CLAIMED),
    (Lease(1, 0), ROOM, Silent, CLAIMED),
    (Release(1), ROOM, Silent, CLAIMED),
];

const IN_ASKED: &[Row] = &[
    (Lease(1, 600), FULL, Silent, ASKED_AND_LEASED),
    (Lease(2, 600), ROOM, Silent, ASKED),
    (Lease(1, 0), ROOM, Silent, ASKED),
];

const IN_ASKED_OF_BOTH: &[Row] = &[
    (
        Sent(1),
        ROOM,
        All,
        (None, Valid(1, 302_400), Some((1, Some(722_200)))),
    ),
    (Sent(2), ROOM, Drop(WrongPort), ASKED_OF_BOTH),
    (TpDad, FULL, TrustedAnd(1), ASKED_OF_BOTH),
    (TpNa, FULL, All, ASKED_OF_BOTH),
    (Release(1), ROOM, Silent, ASKED),
];

const IN_CONTESTED: &[Row] = &[
    (Lease(1, 600), ROOM, Silent, CONTESTED),
    (Lease(2, 600), ROOM, Silent, CONTESTED),
];

/// The method of a prefix, the events that lead to a state (each with its moment), and the rows for it.
type Start = (Method, &'static [(u64, Act)], &'static [Row]);

static STARTS: [Start; 13] = [
    (Mixed, &[(1000, Lease(2, 600)), (1500, Fix(1))], IN_FIXED),
    (Mixed, &[(1000, Lease(1, 600))], IN_BOUND),
    (Dhcp, &[(1000, Lease(1, 600))], IN_BOUND),
    (Mixed, &[(2100, Dad(1)), (2200, Lease(1, 600))], IN_CLAIMING),
    (Mixed, &[(1000, Dad(1)), (2000, Lease(1, 600))], IN_BOTH),
    (Dhcp, &[], IN_UNASSIGNED),
    (Mixed, &[], IN_NOBODY),
    (Mixed, &[(1000, Dad(1))], IN_CLAIMED),
    (
        Mixed,
        &[(1000, Dad(1)), (2100, Lease(1, 600)), (2300, Release(1))],
        IN_CLAIMED,
    ),
    (Mixed, &[(1000, Dad(1)), (2200, Dad(2))], IN_CONTESTED),
    (Mixed, &[(1000, Dad(1)), (2000, TpDad)], IN_ASKED),
    (
        Mixed,
        &[(1000, Dad(1)), (2000, TpDad), (2200, Lease(1, 600))],
        IN_ASKED_OF_BOTH,
    ),
    (
        Method::Fcfs,
        &[(1000, Lease(1, 600))],
        &[(Dad(1), FULL, Drop(PortFull), NOBODY)],
    ),
];

/// The state that the events lead to.
fn reached(rt: &impl Abort, m: Method, events: &[(u64, Act)]) -> AddrState
    ensures sound { IsSoundFor m result }
    ensures fits { AllMomentsFit result }
{
    let mut state = AddrState::none();
    for event in events {
        happens(rt, m, &mut state, *event, ROOM);
    }
    state
}

#[test]
fn rows_of_both_methods(rt: HostRuntime) {
    for (m, before, rows) in &STARTS {
        for (act, room, verdict, after) in *rows {
            let mut state = reached(&rt, *m, before);
            let answer = happens(&rt, *m, &mut state, (NOW, *act), *room);
            assert_eq!(rt;
                plain_verdict(answer.verdict),
                *verdict,
                "{m:?} {before:?} {act:?} {room}"
            );
            assert_eq!(rt;
                plain_state(state),
                *after,
                "{m:?} {before:?} {act:?} {room}"
            );
        }
    }
}

/// A moment, whether ageing to it changes the state, the moments at which it sends a probe to port 1, the state, and when
/// something is due next.
type Aging = (u64, bool, &'static [u64], State, Option<u64>);

/// Bound to port 1 by both methods, by a lease of 60 s at 2100.
const SHORT: State = (None, Valid(1, 301_500), Some((1, Some(182_100))));

const TESTED: State = (None, TestLt(1, 301_500), None);

/// The ageing of that state.
static AGINGS: [Aging; 6] = [
    (182_099, false, &[], SHORT, Some(182_100)),
    (182_100, true, &[], CLAIMED, Some(301_500)),
    (301_499, false, &[], CLAIMED, Some(301_500)),
    (301_500, true, &[301_500], TESTED, Some(301_750)),
    (301_999, true, &[301_750], TESTED, Some(302_000)),
    (302_000, true, &[], NOBODY, None),
];

#[test]
fn ageing_of_both_methods(rt: HostRuntime) {
    let first = port(1);
    let mut state = AddrState::none();
    happens(&rt, Mixed, &mut state, (1000, Dad(1)), true);
    happens(&rt, Mixed, &mut state, (2100, Lease(1, 60)), true);
    for (at, changed, probes, after, due) in &AGINGS {
        assert!(rt; *at <= LAST_MOMENT);
        assert!(rt;
            state.live(first) && state.holds(first) && !state.is_none(),
            "before {at}"
        );
        let aged = state.age(*at, &TIMES);
        assert_eq!(rt; aged.changed, *changed, "{at}");
        assert_eq!(rt; aged.probes.len(), probes.len(), "{at}");
        for (probe, want) in aged.probes.iter().zip(*probes) {
            assert_eq!(rt; *probe, (*want, Probe::To(first)), "{at}");
        }
        assert_eq!(rt; plain_state(state), *after, "{at}");
        assert_eq!(rt; state.due(&TIMES), *due, "{at}");
    }
    assert!(rt; !state.live(first) && !state.holds(first) && state.is_none());
}
