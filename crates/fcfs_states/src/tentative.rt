// Events at an address that a host claims.

ghost use Rattle.std.specs.Prelude.{◌≡◌};
ghost use Rattle.fcfs_states.specs.Premises.{IsFcfsEvent};
ghost use Rattle.fcfs_states.specs.Next.{next_tentative};

use crate::answer::{Answer, dropping, passing};
use crate::event::Ev;
use crate::ports::is_same;
use crate::state::Fcfs;
use savi_kinds::{Port, Rule, Scope};

/// `p` claims the address: only an advertisement at a trusted port ends the claim.
pub fn outcome(p: Port, state: Fcfs, ev: Ev) -> (Answer, Fcfs)
    requires { IsFcfsEvent ev }
    ensures { result ≡ next_tentative p state ev }
{
    match ev {
        Ev::Sent(r) if is_same(r, p) => (dropping(Rule::Unverified, None), state),
        Ev::Dad(r) if is_same(r, p) => (passing(Scope::TrustedOnly, None), state),
        Ev::Sent(_) | Ev::Dad(_) => (dropping(Rule::Contested, None), state),
        Ev::Na(_) => (dropping(Rule::NaTarget, None), state),
        Ev::TpDad => (passing(Scope::TrustedAnd(p), None), state),
        Ev::TpNa => (passing(Scope::All, None), Fcfs::NoBind),
        Ev::Lease { .. } | Ev::Release(_) | Ev::Fix(_) | Ev::Clear => unreachable!(),
    }
}
