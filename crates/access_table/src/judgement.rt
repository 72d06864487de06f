// What becomes of a frame.

ghost use Rattle.std.specs.Prelude.{◌≡◌, None, unwrap_or};
ghost use Rattle.std.specs.Option.{option_map};
ghost use Rattle.savi_kinds.specs.declared.verdict.Rule.TheVariants.{Unverified};
ghost use Rattle.savi_kinds.specs.declared.verdict.Verdict.TheVariants.{Pass};
ghost use Rattle.savi_kinds.specs.declared.verdict.Scope.TheVariants.{All};

use fcfs_states::Answer;
use savi_access::SentProbe;
use savi_kinds::{Addr, Moment, Rule, Scope, Verdict};

/// What becomes of a frame.
#[derive(Clone, Copy, PartialEq, Eq, Debug)]
pub struct Judgement {
    /// Where it goes, or the rule that stops it.
    pub verdict: Verdict,
    /// The probe with which the switch answers it at once.
    pub probe: Option<SentProbe>,
}

impl Judgement {
    /// This verdict, and no probe.
    pub(crate) fn of(verdict: Verdict) -> Judgement
        ensures { result ≡ record { verdict = verdict; probe = None } }
    {
        Judgement {
            verdict,
            probe: None,
        }
    }

    /// The frame goes to all ports.
    pub(crate) fn passed() -> Judgement
        ensures { result ≡ record { verdict = Pass All; probe = None } }
    {
        Judgement::of(Verdict::Pass(Scope::All))
    }

    /// This rule stops the frame.
    pub(crate) fn dropped(rule: Rule) -> Judgement
        ensures { result ≡ record { verdict = Verdict.Drop rule; probe = None } }
    {
        Judgement::of(Verdict::Drop(rule))
    }

    /// The answer to an event on an address at moment `t` (ms). Each event of a frame is answered with a verdict; without
    /// one the frame would be dropped.
    pub(crate) fn answered(answer: Answer, a: Addr, t: Moment) -> Judgement
        ensures verdict { result.verdict ≡ unwrap_or answer.verdict (Verdict.Drop Unverified) }
        ensures probe { result.probe ≡ option_map (λ probe. record { due = t; address = a; probe = probe }) answer.probe }
    {
        Judgement {
            verdict: answer.verdict.unwrap_or(Verdict::Drop(Rule::Unverified)),
            probe: answer.probe.map(|probe| SentProbe {
                due: t,
                address: a,
                probe,
            }),
        }
    }
}
