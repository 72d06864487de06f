//! One table over scripts of events.

ghost use Rattle.std.specs.Prelude.{◌≤◌, ◌^◌, ℕ, List, Some};
ghost use Rattle.savi_access.specs.declared.row.Row.{Row};
ghost use Rattle.savi_kinds.specs.declared.plan.Method.TheVariants.{Mixed};
ghost use Rattle.savi_access.specs.declared.sent.SentProbe.{SentProbe};
ghost use Rattle.savi_access.specs.Ages.{AllStill};
ghost use Rattle.savi_access.specs.Rooms.{IsFixable};
ghost use Rattle.savi_access.specs.Keeps.{AreSound, StaySound};

use crate::plain::{Says, TIMES, plain_verdict, port, port_of};
use addr_table::{AddrTable, ProbeSink};
use fcfs_states::{Ev, Probe};
use savi_access::SentProbe;
use savi_kinds::{Addr, DEFAULT_VLAN, LAST_MOMENT, Method, Moment, Rule};
use std::process::Abort;
use std::test::Fail;

/// An event, with its port as a number.
#[derive(Clone, Copy, Debug)]
enum Act {
    Sent(u8),
    Na(u8),
    Lease(u8, u32),
}

use Act::{Lease, Na, Sent};
use Rule::{NaTarget, PortFull, Unverified, WrongPort};
use Says::{All, Drop, Silent};

/// A probe: its moment, its address, and its port, 0 for the trusted ports.
type Due = (u64, u128, u8);

/// A name and a moment; the probes that ageing to it sends; an address and an event; the verdict; how many addresses ports 1
/// and 2 hold then.
type Step = (
    &'static str,
    u64,
    &'static [Due],
    (u128, Act),
    Says,
    (u32, u32),
);

/// Two addresses are due in the same millisecond twice, and one of them by both methods.
static TOGETHER: [Step; 9] = [
    (
        "claimed",
        1000,
        &[],
        (0x12, Sent(1)),
        Drop(Unverified),
        (1, 0),
    ),
    (
        "another",
        1000,
        &[],
        (0x11, Sent(1)),
        Drop(Unverified),
        (2, 0),
    ),
    (
        "no room",
        1000,
        &[],
        (0x13, Sent(1)),
        Drop(PortFull),
        (2, 0),
    ),
    (
        "bound",
        1500,
        &[(1250, 0x11, 0), (1250, 0x12, 0)],
        (0x11, Sent(1)),
        All,
        (2, 0),
    ),
    (
        "claimed at 2",
        1600,
        &[],
        (0x12, Sent(2)),
        Drop(WrongPort),
        (2, 1),
    ),
    (
        "taken over",
        2100,
        &[(1850, 0x12, 1)],
        (0x11, Sent(1)),
        All,
        (1, 1),
    ),
    ("leased", 2100, &[], (0x11, Lease(1, 180)), Silent, (1, 1)),
    (
        "tested, and no longer leased",
        302_100,
        &[(302_100, 0x11, 1), (302_100, 0x12, 2)],
        (0x11, Na(2)),
        Drop(NaTarget),
        (1, 1),
    ),
    (
        "both gone",
        302_600,
        &[(302_350, 0x11, 1), (302_350, 0x12, 2)],
        (0x11, Sent(2)),
        Drop(Unverified),
        (0, 1),
    ),
];

/// Two addresses are aged once over all of their lives.
static LATE: [Step; 3] = [
    (
        "claimed",
        1000,
        &[],
        (0x12, Sent(1)),
        Drop(Unverified),
        (1, 0),
    ),
    (
        "another",
        1100,
        &[],
        (0x11, Sent(1)),
        Drop(Unverified),
        (2, 0),
    ),
    (
        "both gone",
        302_100,
        &[
            (1250, 0x12, 0),
            (1350, 0x11, 0),
            (301_500, 0x12, 1),
            (301_600, 0x11, 1),
            (301_750, 0x12, 1),
            (301_850, 0x11, 1),
        ],
        (0x13, Sent(1)),
        Drop(Unverified),
        (1, 0),
    ),
];

fn event_of(rt: &impl Abort, act: Act) -> Ev
    ensures { (per_port a : ℕ) (rows : List Row) → IsFixable per_port rows a result }
{
    match act {
        Sent(p) => Ev::Sent(port_of(rt, p)),
        Na(p) => Ev::Na(port_of(rt, p)),
        Lease(p, valid) => {
            let p = port_of(rt, p);
            Ev::Lease { p, valid }
        }
    }
}

fn probe_of(rt: &impl Abort, (due, address, number): Due) -> SentProbe {
    let probe = if number == 0 {
        Probe::Trusted
    } else {
        Probe::To(port_of(rt, number))
    };
    SentProbe {
        due,
        address: Addr(address),
        probe,
    }
}

/// What keeps the last seven probes that it took.
#[derive(Drop)]
struct LastProbes {
    first: Option<SentProbe>,
    second: Option<SentProbe>,
    third: Option<SentProbe>,
    fourth: Option<SentProbe>,
    fifth: Option<SentProbe>,
    sixth: Option<SentProbe>,
    seventh: Option<SentProbe>,
}

impl LastProbes {
    fn none() -> LastProbes {
        LastProbes {
            first: None,
            second: None,
            third: None,
            fourth: None,
            fifth: None,
            sixth: None,
            seventh: None,
        }
    }
}

impl ProbeSink for LastProbes {
    ghost after = { λ last vlan sent. record { first = last.second; second = last.third; third = last.fourth; fourth = last.fifth; fifth = last.sixth; sixth = last.seventh; seventh = Some sent } };

    fn take(&mut self, _vlan: u16, sent: SentProbe) {
        self.first = self.second;
        self.second = self.third;
        self.third = self.fourth;
        self.fourth = self.fifth;
        self.fifth = self.sixth;
        self.sixth = self.seventh;
        self.seventh = Some(sent);
    }
}

/// Compares the probes that a sink took with these, of which there are at most six.
fn expect_probes(rt: &impl Abort, last: &LastProbes, probes: &[Due], name: &str) {
    let sent = [
        last.first,
        last.second,
        last.third,
        last.fourth,
        last.fifth,
        last.sixth,
        last.seventh,
    ];
    assert!(rt; probes.len() < sent.len(), "{name}");
    let (before, taken) = sent.split_at(sent.len() - probes.len());
    for probe in before {
        assert_eq!(rt; *probe, None, "{name}");
    }
    for (probe, due) in taken.iter().zip(probes) {
        assert_eq!(rt; *probe, Some(probe_of(rt, *due)), "{name}");
    }
}

/// Ages the table, which sends these probes.
fn age(rt: &impl Abort, table: &mut AddrTable, t: Moment, probes: &[Due], name: &str)
    requires { t ≤ 2 ^ 62 }
    ensures still { AllStill table.new.times t table.new.rows }
    ensures sound { StaySound table.old.rows table.new.rows }
{
    let is_due = table.is_due(t);
    assert!(rt; is_due || probes.is_empty(), "{name}");
    assert_eq!(rt; table.first_due(t).is_some(), is_due, "{name}");
    let mut last = LastProbes::none();
    table.age_to(DEFAULT_VLAN, t, &mut last);
    assert!(rt; !table.is_due(t), "{name}");
    expect_probes(rt, &last, probes, name);
}

/// Plays a step, at addresses of a prefix of both methods.
fn play(rt: &impl Abort, table: &mut AddrTable, step: &Step)
    requires { AreSound (λ a. Some Mixed) table.old.rows }
    ensures { AreSound (λ a. Some Mixed) table.new.rows }
{
    let (name, t, probes, (address, act), verdict, (first, second)) = *step;
    assert!(rt; t <= LAST_MOMENT);
    age(rt, table, t, probes, name);
    let ev = event_of(rt, act);
    let answer = table.event(Addr(address), Method::Mixed, ev, t);
    assert_eq!(rt; plain_verdict(answer.verdict), verdict, "{name}");
    assert_eq!(rt; table.count(port(1)), first, "{name}");
    assert_eq!(rt; table.count(port(2)), second, "{name}");
}

#[test]
fn scripts_of_events(rt: HostRuntime) -> Result<(), Fail> {
    let scripts: [&[Step]; 2] = [&TOGETHER, &LATE];
    for steps in scripts {
        let mut table = AddrTable::make(rt.alloc(), TIMES, 2)?;
        for step in steps {
            play(&rt, &mut table, step);
        }
        assert_eq!(rt; table.size(), 1);
    }
    Ok(())
}

#[test]
fn a_sink_takes_the_probes_in_order(rt: HostRuntime) -> Result<(), Fail> {
    let mut table = AddrTable::make(rt.alloc(), TIMES, 2)?;
    for step in &LATE[..2] {
        play(&rt, &mut table, step);
    }
    let mut last = LastProbes::none();
    table.age_to(DEFAULT_VLAN, 302_100, &mut last);
    let wanted = probe_of(&rt, (301_850, 0x11, 1));
    assert_eq!(rt; last.seventh, Some(wanted));
    assert_eq!(rt; table.size(), 0);
    Ok(())
}
