//! The times, ports and verdicts of several tables.

ghost use Rattle.std.specs.Prelude.{◌≡◌, ◌≤◌};
ghost use Rattle.savi_kinds.specs.Ports.{number_of};

use fcfs_states::Times;
use savi_kinds::{Port, Rule, Scope, Verdict};
use std::process::Abort;

/// The times of a plan that says nothing of them.
pub const TIMES: Times = Times {
    gap: 250,
    test: 500,
    life: 300_000,
};

/// The port of a number that a test writes.
pub fn port(number: u8) -> Port
    requires low { 1 ≤ number }
    requires high { number ≤ 16 }
    ensures { number_of result ≡ number }
{
    match Port::new(number) {
        Some(port) => port,
        None => unreachable!(),
    }
}

/// The port of a number in a table.
pub fn port_of(rt: &impl Abort, number: u8) -> Port {
    Port::new(number).expect(rt, "a port's number")
}

/// A verdict, with its port as a number; `Silent` where no frame waits for one.
#[derive(Clone, Copy, PartialEq, Eq, Debug)]
pub enum Says {
    Silent,
    All,
    Trusted,
    TrustedAnd(u8),
    Drop(Rule),
}

pub fn plain_verdict(verdict: Option<Verdict>) -> Says {
    match verdict {
        None => Says::Silent,
        Some(Verdict::Pass(Scope::All)) => Says::All,
        Some(Verdict::Pass(Scope::TrustedOnly)) => Says::Trusted,
        Some(Verdict::Pass(Scope::TrustedAnd(p))) => Says::TrustedAnd(p.get()),
        Some(Verdict::Drop(rule)) => Says::Drop(rule),
    }
}
