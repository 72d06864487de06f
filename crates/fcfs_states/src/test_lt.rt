// Events at an address whose holder may be gone.

ghost use Rattle.std.specs.Prelude.{◌≡◌, ◌<◌, ◌≤◌, ◌^◌, true};
ghost use Rattle.fcfs_states.specs.Premises.{IsFcfsEvent};
ghost use Rattle.fcfs_states.specs.Next.{next_test_lt};

use crate::answer::{Answer, dropping, passing};
use crate::event::Ev;
use crate::ports::is_same;
use crate::state::Fcfs;
use crate::times::Times;
use crate::valid::heard;
use savi_kinds::{Port, Rule, Scope};

/// `p` is tested, since it may be gone: it answers, or others wait.
pub fn outcome(p: Port, state: Fcfs, ev: Ev, t: u64, k: &Times) -> (Answer, Fcfs)
    requires kind { IsFcfsEvent ev }
    requires moment { t ≤ 2 ^ 62 }
    requires life { k.now.life < 2 ^ 62 }
    ensures { result ≡ next_test_lt k.now t p state ev }
{
    match ev {
        Ev::Sent(r) if is_same(r, p) => (passing(Scope::All, None), heard(p, t, k)),
        Ev::Na(r) if is_same(r, p) => (passing(Scope::All, None), heard(p, t, k)),
        Ev::Dad(r) if is_same(r, p) => (passing(Scope::TrustedOnly, None), heard(p, t, k)),
        Ev::Sent(_) | Ev::Dad(_) => (dropping(Rule::Contested, None), state),
        Ev::Na(_) => (dropping(Rule::NaTarget, None), state),
        Ev::TpDad => (passing(Scope::TrustedAnd(p), None), state),
        Ev::TpNa => (passing(Scope::All, None), state),
        Ev::Lease { .. } | Ev::Release(_) | Ev::Fix(_) | Ev::Clear => unreachable!(),
    }
}

/// A test of the holder `p` from `t` (ms) on, since it may be gone.
pub fn may_be_gone(p: Port, t: u64) -> Fcfs
    ensures { result ≡ Fcfs.TestLt p t true }
{
    Fcfs::TestLt {
        p,
        since: t,
        two: true,
    }
}
