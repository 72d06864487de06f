//! Worked runs of one address, and the whole table of events, written out.

ghost use Rattle.fcfs_states.specs.Premises.{IsFcfsEvent, MomentsFit};
ghost use Rattle.fcfs_states.specs.States.{IsSound};

use crate::plain::{Says, TIMES, plain_verdict, port_of};
use fcfs_states::{Aged, Ev, Fcfs, Probe};
use savi_kinds::{LAST_MOMENT, Rule};
use std::process::Abort;

/// A state, with its ports as numbers.
#[derive(Clone, Copy, PartialEq, Eq, Debug)]
enum Plain {
    NoBind,
    Tentative(u8, u64, bool),
    Valid(u8, u64),
    TestLt(u8, u64, bool),
    TestVp(u8, u8, u64, bool),
}

/// A kind of event. Those of hosts have a port.
#[derive(Clone, Copy, PartialEq, Eq, Debug)]
enum Act {
    Sent,
    Dad,
    Na,
    TpDad,
    TpNa,
}

/// The number that stands for the trusted ports where a port's number stands.
const TRUSTED: u8 = 0;

fn plain_state(state: Fcfs) -> Plain {
    match state {
        Fcfs::NoBind => Plain::NoBind,
        Fcfs::Tentative { p, since, two } => Plain::Tentative(p.get(), since, two),
        Fcfs::Valid { p, until } => Plain::Valid(p.get(), until),
        Fcfs::TestLt { p, since, two } => Plain::TestLt(p.get(), since, two),
        Fcfs::TestVp { p, q, since, two } => Plain::TestVp(p.get(), q.get(), since, two),
    }
}

fn plain_probe(probe: Probe) -> u8 {
    match probe {
        Probe::Trusted => TRUSTED,
        Probe::To(p) => p.get(),
    }
}

fn event_of(rt: &impl Abort, act: Act, port: u8) -> Ev
    ensures { IsFcfsEvent result }
{
    match act {
        Act::Sent => Ev::Sent(port_of(rt, port)),
        Act::Dad => Ev::Dad(port_of(rt, port)),
        Act::Na => Ev::Na(port_of(rt, port)),
        Act::TpDad => Ev::TpDad,
        Act::TpNa => Ev::TpNa,
    }
}

/// A moment, what happens then (or nothing but ageing), the probes that fell due by then, the verdict, the probe that is
/// sent at once, and the state.
type Step = (
    u64,
    Option<(Act, u8)>,
    &'static [(u64, u8)],
    Says,
    Option<u8>,
    Plain,
);

use Act::{Dad, Na, Sent, TpDad, TpNa};
use Plain::{NoBind, Tentative, TestLt, TestVp, Valid};
use Rule::{Contested, NaTarget, PortFull, Unverified, WrongPort};
use Says::{All, Drop, Silent, Trusted, TrustedAnd};

/// The trusted ports are asked.
const ASK: Option<u8> = Some(TRUSTED);

/// The holder at port 1 is tested.
const TEST: Option<u8> = Some(1);

/// The host at port 1 announces its claim; so the address is bound to it from 1500 to 301500.
const CLAIM: Step = (
    1000,
    Some((Dad, 1)),
    &[],
    Trusted,
    None,
    Tentative(1, 1000, false),
);

/// The host at port 1 claims the address by a packet.
const CLAIM_BY_PACKET: Step = (
    1000,
    Some((Sent, 1)),
    &[],
    Drop(Unverified),
    ASK,
    Tentative(1, 1000, true),
);

/// Behind the claim the host at port 2 sends from the address.
const RIVAL: Step = (
    2000,
    Some((Sent, 2)),
    &[],
    Drop(WrongPort),
    TEST,
    TestVp(1, 2, 2000, true),
);

/// The runs, each from an address that no port has.
static RUNS: [(&str, &[Step]); 9] = [
    (
        "a packet within a claim that was announced",
        &[
            CLAIM,
            (
                1100,
                Some((Sent, 1)),
                &[],
                Drop(Unverified),
                None,
                Tentative(1, 1000, false),
            ),
            (1101, None, &[], Silent, None, Tentative(1, 1000, false)),
        ],
    ),
    (
        "a sender that announces nothing passes when its claim stands",
        &[
            CLAIM_BY_PACKET,
            (
                1499,
                Some((Sent, 1)),
                &[(1250, TRUSTED)],
                Drop(Unverified),
                None,
                Tentative(1, 1000, false),
            ),
            (1500, Some((Sent, 1)), &[], All, None, Valid(1, 301_500)),
        ],
    ),
    (
        "the holder answers the test, by an advertisement",
        &[
            CLAIM,
            RIVAL,
            (
                2400,
                Some((Sent, 1)),
                &[(2250, 1)],
                All,
                None,
                Valid(1, 302_400),
            ),
            (2400, Some((Na, 1)), &[], All, None, Valid(1, 302_400)),
            (2450, None, &[], Silent, None, Valid(1, 302_400)),
        ],
    ),
    (
        "the holder doesn't answer, and the address goes to the rival",
        &[
            CLAIM,
            RIVAL,
            (
                2500,
                Some((Sent, 2)),
                &[(2250, 1)],
                All,
                None,
                Valid(2, 302_500),
            ),
            (2600, None, &[], Silent, None, Valid(2, 302_500)),
        ],
    ),
    (
        "a third port waits while the holder is tested",
        &[
            CLAIM,
            RIVAL,
            (
                2300,
                Some((Sent, 3)),
                &[(2250, 1)],
                Drop(Contested),
                None,
                TestVp(1, 2, 2000, false),
            ),
            (2301, None, &[], Silent, None, TestVp(1, 2, 2000, false)),
        ],
    ),
    (
        "an objection at a trusted port ends a claim",
        &[
            CLAIM,
            (1200, Some((TpNa, TRUSTED)), &[], All, None, NoBind),
            (1201, None, &[], Silent, None, NoBind),
        ],
    ),
    (
        "a holder that was silent for hours",
        &[
            CLAIM,
            (
                4_000_000,
                Some((Sent, 2)),
                &[(301_500, 1), (301_750, 1)],
                Drop(Unverified),
                ASK,
                Tentative(2, 4_000_000, true),
            ),
        ],
    ),
    (
        "the same, aged in between",
        &[
            CLAIM,
            (1500, None, &[], Silent, None, Valid(1, 301_500)),
            (
                301_500,
                None,
                &[(301_500, 1)],
                Silent,
                None,
                TestLt(1, 301_500, true),
            ),
            (302_000, None, &[(301_750, 1)], Silent, None, NoBind),
            (
                4_000_000,
                Some((Sent, 2)),
                &[],
                Drop(Unverified),
                ASK,
                Tentative(2, 4_000_000, true),
            ),
        ],
    ),
    (
        "a sender that is never heard again: three probes in one ageing",
        &[
            CLAIM_BY_PACKET,
            (
                302_000,
                None,
                &[(1250, TRUSTED), (301_500, 1), (301_750, 1)],
                Silent,
                None,
                NoBind,
            ),
        ],
    ),
];

/// Ages a state as a step says, lets it take the step's event, and compares what comes of it.
fn take_step(rt: &impl Abort, name: &str, state: &mut Fcfs, step: &Step)
    requires sound { IsSound state.old }
    requires fits { MomentsFit state.old }
    ensures sound { IsSound state.new }
    ensures fits { MomentsFit state.new }
{
    let (at, happens, probes, verdict, probe, after) = *step;
    assert!(rt; at <= LAST_MOMENT);
    let aged = state.age(at, &TIMES);
    assert!(rt; are_probes(&aged, probes), "{name} at {at}");
    if let Some((act, port)) = happens {
        let answer = state.step(event_of(rt, act, port), at, true, &TIMES);
        assert_eq!(rt; plain_verdict(answer.verdict), verdict, "{name} at {at}");
        assert_eq!(rt; answer.probe.map(plain_probe), probe, "{name} at {at}");
    }
    assert_eq!(rt; plain_state(*state), after, "{name} at {at}");
}

/// Whether these probes fell due.
fn are_probes(aged: &Aged, wanted: &[(u64, u8)]) -> bool {
    let probes = aged.probes.as_slice();
    if probes.len() != wanted.len() {
        return false;
    }
    for ((due, probe), want) in probes.iter().zip(wanted) {
        if (*due, plain_probe(*probe)) != *want {
            return false;
        }
    }
    true
}

#[test]
fn runs_of_one_address(rt: HostRuntime) {
    for (name, steps) in &RUNS {
        let mut state = Fcfs::NoBind;
        for step in *steps {
            take_step(&rt, name, &mut state, step);
        }
    }
}

/// The state after an event at `NOW`, at a port.
#[derive(Clone, Copy, PartialEq, Eq, Debug)]
enum New {
    Same,
    /// No port has the address.
    Freed,
    /// Claimed by the event's port, with the second probe to come or not.
    Claimed(bool),
    /// Bound to port 1 for a whole life.
    Bound,
    /// A test of port 1.
    Tested,
    /// A test of port 1, since the event's port claims the address.
    Rivalled,
}

use New::{Bound, Claimed, Freed, Rivalled, Same, Tested};

/// The moment of each event.
const NOW: u64 = 10_000;

/// A life after `NOW`.
const LIFE_OVER: u64 = 310_000;

/// A line of the table for a state: the event, its ports, whether they have room, the verdict, the probe, the state after
/// it. The holder is port 1, and the claimant while it is tested is port 2.
type Line = (Act, &'static [u8], &'static [bool], Says, Option<u8>, New);

const ANY: &[u8] = &[1, 2, 3];

const HOLDER: &[u8] = &[1];

const CLAIMANT: &[u8] = &[2];

const THIRD: &[u8] = &[3];

const OTHERS: &[u8] = &[2, 3];

const TRUST: &[u8] = &[TRUSTED];

const EITHER: &[bool] = &[true, false];

const ROOM: &[bool] = &[true];

const FULL: &[bool] = &[false];

const IN_NO_BIND: &[Line] = &[
    (Sent, ANY, ROOM, Drop(Unverified), ASK, Claimed(true)),
    (Dad, ANY, ROOM, Trusted, None, Claimed(false)),
    (Sent, ANY, FULL, Drop(PortFull), None, Same),
    (Dad, ANY, FULL, Drop(PortFull), None, Same),
    (Na, ANY, EITHER, Drop(NaTarget), None, Same),
    (TpDad, TRUST, EITHER, Trusted, None, Same),
    (TpNa, TRUST, EITHER, All, None, Same),
];

const IN_TENTATIVE: &[Line] = &[
    (Sent, HOLDER, EITHER, Drop(Unverified), None, Same),
    (Dad, HOLDER, EITHER, Trusted, None, Same),
    (Sent, OTHERS, EITHER, Drop(Contested), None, Same),
    (Dad, OTHERS, EITHER, Drop(Contested), None, Same),
    (Na, ANY, EITHER, Drop(NaTarget), None, Same),
    (TpDad, TRUST, EITHER, TrustedAnd(1), None, Same),
    (TpNa, TRUST, EITHER, All, None, Freed),
];

const IN_VALID: &[Line] = &[
    (Sent, HOLDER, EITHER, All, None, Bound),
    (Na, HOLDER, EITHER, All, None, Bound),
    (Dad, HOLDER, EITHER, Trusted, None, Bound),
    (Sent, OTHERS, ROOM, Drop(WrongPort), TEST, Rivalled),
    (Dad, OTHERS, ROOM, TrustedAnd(1), TEST, Rivalled),
    (Sent, OTHERS, FULL, Drop(PortFull), None, Same),
    (Dad, OTHERS, FULL, Drop(PortFull), None, Same),
    (Na, OTHERS, EITHER, Drop(NaTarget), None, Same),
    (TpDad, TRUST, EITHER, TrustedAnd(1), TEST, Tested),
    (TpNa, TRUST, EITHER, All, None, Same),
];

const IN_TEST_LT: &[Line] = &[
    (Sent, HOLDER, EITHER, All, None, Bound),
    (Na, HOLDER, EITHER, All, None, Bound),
    (Dad, HOLDER, EITHER, Trusted, None, Bound),
    (Sent, OTHERS, EITHER, Drop(Contested), None, Same),
    (Dad, OTHERS, EITHER, Drop(Contested), None, Same),
    (Na, OTHERS, EITHER, Drop(NaTarget), None, Same),
    (TpDad, TRUST, EITHER, TrustedAnd(1), None, Same),
    (TpNa, TRUST, EITHER, All, None, Same),
];

const IN_TEST_VP: &[Line] = &[
    (Sent, HOLDER, EITHER, All, None, Bound),
    (Na, HOLDER, EITHER, All, None, Bound),
    (Dad, HOLDER, EITHER, Trusted, None, Bound),
    (Sent, CLAIMANT, EITHER, Drop(WrongPort), None, Same),
    (Dad, CLAIMANT, EITHER, TrustedAnd(1), None, Same),
    (Sent, THIRD, EITHER, Drop(Contested), None, Same),
    (Dad, THIRD, EITHER, Drop(Contested), None, Same),
    (Na, OTHERS, EITHER, Drop(NaTarget), None, Same),
    (TpDad, TRUST, EITHER, TrustedAnd(1), None, Same),
    (TpNa, TRUST, EITHER, All, None, Same),
];

/// A state at `NOW`, the events (with their moments and ports) that lead to it, and the lines for it.
type Start = (Plain, &'static [(u64, Act, u8)], &'static [Line]);

static STARTS: [Start; 8] = [
    (NoBind, &[], IN_NO_BIND),
    (Tentative(1, 9_900, true), &[(9_900, Sent, 1)], IN_TENTATIVE),
    (Tentative(1, 9_900, false), &[(9_900, Dad, 1)], IN_TENTATIVE),
    (Valid(1, 309_500), &[(9_000, Dad, 1)], IN_VALID),
    (
        TestLt(1, 9_900, true),
        &[(9_000, Dad, 1), (9_900, TpDad, TRUSTED)],
        IN_TEST_LT,
    ),
    (
        TestLt(1, 9_700, false),
        &[(9_000, Dad, 1), (9_700, TpDad, TRUSTED)],
        IN_TEST_LT,
    ),
    (
        TestVp(1, 2, 9_900, true),
        &[(9_000, Dad, 1), (9_900, Sent, 2)],
        IN_TEST_VP,
    ),
    (
        TestVp(1, 2, 9_700, false),
        &[(9_000, Dad, 1), (9_700, Dad, 2)],
        IN_TEST_VP,
    ),
];

/// Each kind of event at each of its ports.
static EVENTS: [(Act, &[u8]); 5] = [
    (Sent, ANY),
    (Dad, ANY),
    (Na, ANY),
    (TpDad, TRUST),
    (TpNa, TRUST),
];

/// The state that the events lead to, aged to `NOW`.
fn reached(rt: &impl Abort, events: &[(u64, Act, u8)]) -> Fcfs
    ensures sound { IsSound result }
    ensures fits { MomentsFit result }
{
    let mut state = Fcfs::NoBind;
    for (at, act, port) in events {
        assert!(rt; *at <= LAST_MOMENT);
        state.age(*at, &TIMES);
        state.step(event_of(rt, *act, *port), *at, true, &TIMES);
    }
    state.age(NOW, &TIMES);
    state
}

/// The state after a line, from this state, at this port.
fn after(new: New, before: Plain, port: u8) -> Plain {
    match new {
        Same => before,
        Freed => NoBind,
        Claimed(two) => Tentative(port, NOW, two),
        Bound => Valid(1, LIFE_OVER),
        Tested => TestLt(1, NOW, true),
        Rivalled => TestVp(1, port, NOW, true),
    }
}

/// What an event came to: the verdict, the probe, the state after it.
type Outcome = (Says, Option<u8>, Plain);

/// Compares what an event came to with the one line for it.
fn compare(
    rt: &impl Abort,
    (before, _, lines): Start,
    act: Act,
    port: u8,
    room: bool,
    got: Outcome,
) {
    let mut met = 0u8;
    for (of, ports, rooms, verdict, probe, new) in lines {
        if *of == act && ports.contains(&port) && rooms.contains(&room) {
            let want = (*verdict, *probe, after(*new, before, port));
            assert_eq!(rt; got, want, "{before:?} {act:?} {port} {room}");
            met = met.saturating_add(1);
        }
    }
    assert_eq!(rt; met, 1, "{before:?} {act:?} {port} {room}");
}

/// Takes an event in this state, with room and without.
fn take_event(rt: &impl Abort, start: Start, state: Fcfs, act: Act, port: u8)
    requires sound { IsSound state }
    requires fits { MomentsFit state }
{
    for room in [true, false] {
        let mut now = state;
        now.age(NOW, &TIMES);
        let answer = now.step(event_of(rt, act, port), NOW, room, &TIMES);
        let probe = answer.probe.map(plain_probe);
        let got = (plain_verdict(answer.verdict), probe, plain_state(now));
        compare(rt, start, act, port, room, got);
    }
}

#[test]
fn whole_table(rt: HostRuntime) {
    for start in &STARTS {
        let state = reached(&rt, start.1);
        assert_eq!(rt; plain_state(state), start.0);
        for (act, ports) in &EVENTS {
            for port in *ports {
                take_event(&rt, *start, state, *act, *port);
            }
        }
    }
}
