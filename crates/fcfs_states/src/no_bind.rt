// Events at an address that no port has.

ghost use Rattle.std.specs.Prelude.{◌≡◌};
ghost use Rattle.fcfs_states.specs.Premises.{IsFcfsEvent};
ghost use Rattle.fcfs_states.specs.Next.{next_no_bind};

use crate::answer::{Answer, Probe, dropping, passing};
use crate::event::Ev;
use crate::state::Fcfs;
use savi_kinds::{Rule, Scope};

/// A first claim is tentative where its port has room; a packet that wasn't announced waits, and the trusted ports are
/// asked.
pub fn outcome(ev: Ev, t: u64, room: bool) -> (Answer, Fcfs)
    requires { IsFcfsEvent ev }
    ensures { result ≡ next_no_bind t room ev }
{
    match ev {
        Ev::Sent(p) if room => (
            dropping(Rule::Unverified, Some(Probe::Trusted)),
            Fcfs::Tentative {
                p,
                since: t,
                two: true,
            },
        ),
        Ev::Dad(p) if room => (
            passing(Scope::TrustedOnly, None),
            Fcfs::Tentative {
                p,
                since: t,
                two: false,
            },
        ),
        Ev::Sent(_) | Ev::Dad(_) => (dropping(Rule::PortFull, None), Fcfs::NoBind),
        Ev::Na(_) => (dropping(Rule::NaTarget, None), Fcfs::NoBind),
        Ev::TpDad => (passing(Scope::TrustedOnly, None), Fcfs::NoBind),
        Ev::TpNa => (passing(Scope::All, None), Fcfs::NoBind),
        Ev::Lease { .. } | Ev::Release(_) | Ev::Fix(_) | Ev::Clear => unreachable!(),
    }
}
