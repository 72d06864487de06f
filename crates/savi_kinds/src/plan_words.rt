//! The words for the parts of a plan, in a configuration and in a journal.

ghost use Rattle.std.specs.Prelude.{◌≡◌, ◌≤◌, length};
ghost use Rattle.savi_kinds.specs.PlanWords as words;

use crate::plan::{Format, Method, Role};

impl Role {
    /// The role's word: `host`, `server` or `trusted`.
    pub fn word(self) -> &'static str
        ensures word { result.now ≡ words.role_word self }
        ensures short { length result.now ≤ 7 }
    {
        match self {
            Role::Host => "host",
            Role::Server => "server",
            Role::Trusted => "trusted",
        }
    }
}

impl Method {
    /// The method's word: `fcfs`, `dhcp` or `mixed`.
    pub fn word(self) -> &'static str
        ensures word { result.now ≡ words.method_word self }
        ensures short { length result.now ≤ 5 }
    {
        match self {
            Method::Fcfs => "fcfs",
            Method::Dhcp => "dhcp",
            Method::Mixed => "mixed",
        }
    }
}

impl Format {
    /// The format's word: `pcap` or `stream`.
    pub fn word(self) -> &'static str
        ensures word { result.now ≡ words.format_word self }
        ensures short { length result.now ≤ 6 }
    {
        match self {
            Format::Pcap => "pcap",
            Format::Stream => "stream",
        }
    }
}

/// The word that says whether sources are validated: `on` or `off`.
pub fn savi_word(savi: bool) -> &'static str
    ensures word { result.now ≡ words.savi_word savi }
    ensures short { length result.now ≤ 3 }
{
    if savi { "on" } else { "off" }
}

/// The word that says whether packets with an unknown next header are dropped: `drop` or `pass`.
pub fn unknown_word(drop_unknown: bool) -> &'static str
    ensures word { result.now ≡ words.unknown_word drop_unknown }
    ensures short { length result.now ≤ 4 }
{
    if drop_unknown { "drop" } else { "pass" }
}
