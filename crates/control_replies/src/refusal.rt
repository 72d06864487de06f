//! Why a command is refused.

ghost use Rattle.std.specs.Prelude.{◌≡◌, ◌≤◌, length};
ghost use Rattle.control_replies.specs.Replies.{refusal_words};

/// Why a command is refused. Nothing is changed then.
#[derive(Clone, Copy, PartialEq, Eq, Debug)]
pub enum Refusal {
    /// The line isn't a command.
    UnknownCommand,
    /// The address can't be read.
    BadAddress,
    /// The port isn't a number from 1 to 16.
    BadPort,
    /// The plan has no such port.
    NoSuchPort,
    /// An address can't be fixed to a trusted port.
    TrustedPort,
    /// The address isn't on-link.
    OffLink,
    /// The port holds as many addresses as it may.
    PortFull,
    /// The address has no state that could be cleared.
    NoBinding,
}

impl Refusal {
    // The words behind `error: `.
    pub(crate) fn words(self) -> &'static str
        ensures words { result.now ≡ refusal_words self }
        ensures short { length result.now ≤ 15 }
    {
        match self {
            Refusal::UnknownCommand => "unknown command",
            Refusal::BadAddress => "bad address",
            Refusal::BadPort => "bad port",
            Refusal::NoSuchPort => "no such port",
            Refusal::TrustedPort => "trusted port",
            Refusal::OffLink => "off-link",
            Refusal::PortFull => "port full",
            Refusal::NoBinding => "no binding",
        }
    }
}
