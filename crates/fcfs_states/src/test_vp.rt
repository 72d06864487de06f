// Events at an address whose holder is tested since another host claims it too.

ghost use Rattle.std.specs.Prelude.{◌≡◌, ◌<◌, ◌≤◌, ◌^◌, true};
ghost use Rattle.fcfs_states.specs.Premises.{IsFcfsEvent};
ghost use Rattle.fcfs_states.specs.Next.{next_test_vp};

use crate::answer::{Answer, dropping, passing};
use crate::event::Ev;
use crate::ports::is_same;
use crate::state::Fcfs;
use crate::times::Times;
use crate::valid::heard;
use savi_kinds::{Port, Rule, Scope};

/// `p` is tested, since the host at `q` claims the address too: `p` answers, or `q` and others wait.
pub fn outcome(p: Port, q: Port, state: Fcfs, ev: Ev, t: u64, k: &Times) -> (Answer, Fcfs)
    requires kind { IsFcfsEvent ev }
    requires moment { t ≤ 2 ^ 62 }
    requires life { k.now.life < 2 ^ 62 }
    ensures { result ≡ next_test_vp k.now t p q state ev }
{
    match ev {
        Ev::Sent(r) if is_same(r, p) => (passing(Scope::All, None), heard(p, t, k)),
        Ev::Na(r) if is_same(r, p) => (passing(Scope::All, None), heard(p, t, k)),
        Ev::Dad(r) if is_same(r, p) => (passing(Scope::TrustedOnly, None), heard(p, t, k)),
        Ev::Sent(r) if is_same(r, q) => (dropping(Rule::WrongPort, None), state),
        Ev::Dad(r) if is_same(r, q) => (passing(Scope::TrustedAnd(p), None), state),
        Ev::Sent(_) | Ev::Dad(_) => (dropping(Rule::Contested, None), state),
        Ev::Na(_) => (dropping(Rule::NaTarget, None), state),
        Ev::TpDad => (passing(Scope::TrustedAnd(p), None), state),
        Ev::TpNa => (passing(Scope::All, None), state),
        Ev::Lease { .. } | Ev::Release(_) | Ev::Fix(_) | Ev::Clear => unreachable!(),
    }
}

/// A test of the holder `p` from `t` (ms) on, since the host at `q` claims the address too.
pub fn rival(p: Port, q: Port, t: u64) -> Fcfs
    ensures { result ≡ Fcfs.TestVp p q t true }
{
    Fcfs::TestVp {
        p,
        q,
        since: t,
        two: true,
    }
}
