// Events at an address that is bound to a port.

ghost use Rattle.std.specs.Prelude.{◌≡◌, ◌+◌, ◌<◌, ◌≤◌, ◌^◌};
ghost use Rattle.fcfs_states.specs.Premises.{IsFcfsEvent};
ghost use Rattle.fcfs_states.specs.Next.{next_valid};

use crate::answer::{Answer, Probe, dropping, passing};
use crate::event::Ev;
use crate::ports::is_same;
use crate::state::Fcfs;
use crate::test_lt::may_be_gone;
use crate::test_vp::rival;
use crate::times::Times;
use savi_kinds::{Port, Rule, Scope};

/// The address is bound to `p`: its host is heard, or a claim elsewhere makes the switch test whether it is still there.
pub fn outcome(p: Port, state: Fcfs, ev: Ev, t: u64, room: bool, k: &Times) -> (Answer, Fcfs)
    requires kind { IsFcfsEvent ev }
    requires moment { t ≤ 2 ^ 62 }
    requires life { k.now.life < 2 ^ 62 }
    ensures { result ≡ next_valid k.now t room p state ev }
{
    match ev {
        Ev::Sent(r) if is_same(r, p) => (passing(Scope::All, None), heard(p, t, k)),
        Ev::Na(r) if is_same(r, p) => (passing(Scope::All, None), heard(p, t, k)),
        Ev::Dad(r) if is_same(r, p) => (passing(Scope::TrustedOnly, None), heard(p, t, k)),
        Ev::Sent(q) if room => (
            dropping(Rule::WrongPort, Some(Probe::To(p))),
            rival(p, q, t),
        ),
        Ev::Dad(q) if room => (
            passing(Scope::TrustedAnd(p), Some(Probe::To(p))),
            rival(p, q, t),
        ),
        Ev::Sent(_) | Ev::Dad(_) => (dropping(Rule::PortFull, None), state),
        Ev::Na(_) => (dropping(Rule::NaTarget, None), state),
        Ev::TpDad => (
            passing(Scope::TrustedAnd(p), Some(Probe::To(p))),
            may_be_gone(p, t),
        ),
        Ev::TpNa => (passing(Scope::All, None), state),
        Ev::Lease { .. } | Ev::Release(_) | Ev::Fix(_) | Ev::Clear => unreachable!(),
    }
}

/// The holder was heard at `t` (ms), and so the address is bound to it from then on.
pub fn heard(p: Port, t: u64, k: &Times) -> Fcfs
    requires moment { t ≤ 2 ^ 62 }
    requires life { k.now.life < 2 ^ 62 }
    ensures { result ≡ Fcfs.Valid p (t + k.now.life) }
{
    Fcfs::Valid {
        p,
        until: t + k.life,
    }
}
