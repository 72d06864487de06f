// The answers where the table of first come isn't asked.

ghost use Rattle.std.specs.Prelude.{◌≡◌};
ghost use Rattle.fcfs_states.specs.Next.{silence};
ghost use Rattle.mix_rules.specs.Next.{owned, unassigned};

use fcfs_states::{Answer, Ev, dropping, is_same, passing};
use savi_kinds::{Port, Rule, Scope};

/// No verdict and no probe.
pub fn silence() -> Answer
    ensures { result ≡ silence }
{
    Answer {
        verdict: None,
        probe: None,
    }
}

/// The answer where `p` owns the address: only its host sends from it and speaks for it.
pub fn owned(p: Port, ev: Ev) -> Answer
    ensures { result ≡ owned p ev }
{
    match ev {
        Ev::Sent(r) if is_same(r, p) => passing(Scope::All, None),
        Ev::Na(r) if is_same(r, p) => passing(Scope::All, None),
        Ev::Dad(r) if is_same(r, p) => passing(Scope::TrustedOnly, None),
        Ev::Sent(_) => dropping(Rule::WrongPort, None),
        Ev::Na(_) => dropping(Rule::NaTarget, None),
        Ev::Dad(_) | Ev::TpDad => passing(Scope::TrustedAnd(p), None),
        Ev::TpNa => passing(Scope::All, None),
        Ev::Lease { .. } | Ev::Release(_) | Ev::Fix(_) | Ev::Clear => silence(),
    }
}

/// The answer where DHCP alone assigns the address, and hasn't.
pub fn unassigned(ev: Ev) -> Answer
    ensures { result ≡ unassigned ev }
{
    match ev {
        Ev::Sent(_) | Ev::Dad(_) => dropping(Rule::NotAssigned, None),
        Ev::Na(_) => dropping(Rule::NaTarget, None),
        Ev::TpDad => passing(Scope::TrustedOnly, None),
        Ev::TpNa => passing(Scope::All, None),
        Ev::Lease { .. } | Ev::Release(_) | Ev::Fix(_) | Ev::Clear => silence(),
    }
}
