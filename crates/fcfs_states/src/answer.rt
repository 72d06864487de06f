// What the switch answers to an event.

ghost use Rattle.std.specs.Prelude.{◌≡◌};
ghost use Rattle.fcfs_states.specs.Table.{passes, drops};

use savi_kinds::{Port, Rule, Scope, Verdict};

/// Where a probe goes: a solicitation for duplicate address detection of the address, by the switch.
#[derive(Clone, Copy, PartialEq, Eq, Debug, Default)]
pub enum Probe {
    /// To the trusted ports, to ask for an earlier holder.
    #[default]
    Trusted,
    /// To the port of the holder that is tested.
    To(Port),
}

/// What an event comes to.
#[derive(Clone, Copy, PartialEq, Eq, Debug)]
pub struct Answer {
    /// The verdict on the frame that made the event; none where no frame waits for one.
    pub verdict: Option<Verdict>,
    /// The probe that is sent at once.
    pub probe: Option<Probe>,
}

/// The frame goes to these ports.
pub fn passing(scope: Scope, probe: Option<Probe>) -> Answer
    ensures { result ≡ passes scope probe }
{
    Answer {
        verdict: Some(Verdict::Pass(scope)),
        probe,
    }
}

/// The frame is dropped by this rule.
pub fn dropping(rule: Rule, probe: Option<Probe>) -> Answer
    ensures { result ≡ drops rule probe }
{
    Answer {
        verdict: Some(Verdict::Drop(rule)),
        probe,
    }
}
