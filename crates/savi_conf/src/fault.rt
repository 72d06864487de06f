//! What may be wrong with a configuration.
ghost use Rattle.std.specs.Prelude.{◌≡◌};

use std::fmt;

/// A requirement that a configuration doesn't meet.
#[derive(Clone, Copy, PartialEq, Eq, Debug)]
pub enum Fault {
    /// 2: a key that isn't known.
    UnknownKey,
    /// 3: a value of another kind than its key's.
    WrongKind,
    /// 4: a required key is missing, or one of `control` and `control_out`.
    MissingKey,
    /// 5: `mac` isn't the text of a MAC address, or has the group bit.
    SwitchMac,
    /// 6: `savi` is neither `on` nor `off`.
    SaviWord,
    /// 7: `unknown` is neither `drop` nor `pass`.
    NextHeaderWord,
    /// 8: `per_port` isn't from 1 to 64.
    PerPort,
    /// 9: `depth` isn't from 1 to 256.
    Depth,
    /// 10: `entries` isn't from 4,131 to 1,000,000.
    Entries,
    /// 11: `bytes` isn't from 1,518 to 1,073,741,824.
    Bytes,
    /// 12: a time is out of its range, or the gap isn't below the test.
    Times,
    /// 13: no port, or more than 16.
    PortCount,
    /// 14: a port number that isn't from 1 to 16, or stands twice.
    PortNumbers,
    /// 15: a role that isn't known.
    RoleWord,
    /// 16: a format that isn't known.
    FormatWord,
    /// 17: more than 32 prefixes, or a text that isn't a prefix's.
    PrefixTexts,
    /// 18: two prefixes of one VLAN overlap, or one isn't one that a plan may name: it overlaps fe80::/64 or ff00::/8, or
    /// holds `::` or `::1`.
    PrefixRanges,
    /// 19: a method that isn't known.
    MethodWord,
    /// 20: a port with the format of streams, in a replay.
    StreamInReplay,
    /// 22: the number of a VLAN that isn't from 1 to 4,094; a trunk that lists none, or one twice; a port with both `vlan` and
    /// `trunk`.
    VlanNumbers,
    /// 23: a trunk that isn't trusted.
    TrunkRole,
    /// 24: more than 8 VLANs over all ports.
    VlanCount,
}

impl Fault {
    ghost use Rattle.savi_conf.specs.Faults.{fault_number};

    /// The number of the fault, from 2 to 20 or from 22 to 24.
    pub fn number(self) -> u8
        ensures { result ≡ fault_number self }
    {
        match self {
            Fault::UnknownKey => 2,
            Fault::WrongKind => 3,
            Fault::MissingKey => 4,
            Fault::SwitchMac => 5,
            Fault::SaviWord => 6,
            Fault::NextHeaderWord => 7,
            Fault::PerPort => 8,
            Fault::Depth => 9,
            Fault::Entries => 10,
            Fault::Bytes => 11,
            Fault::Times => 12,
            Fault::PortCount => 13,
            Fault::PortNumbers => 14,
            Fault::RoleWord => 15,
            Fault::FormatWord => 16,
            Fault::PrefixTexts => 17,
            Fault::PrefixRanges => 18,
            Fault::MethodWord => 19,
            Fault::StreamInReplay => 20,
            Fault::VlanNumbers => 22,
            Fault::TrunkRole => 23,
            Fault::VlanCount => 24,
        }
    }
}

/// Why a configuration gives no plan.
#[derive(Clone, Copy, PartialEq, Eq, Debug)]
pub enum ConfFault {
    /// There was no memory.
    NoMemory,
    /// The text isn't TOML, or isn't UTF-8.
    NotToml,
    /// The least number of a fault that applies: 1 for a text of more than 65,536 octets, else `Fault::number`.
    Bad(u8),
}

impl fmt::Display for ConfFault {
    ghost use Rattle.std.specs.Prelude.{Some};
    ghost use Rattle.savi_conf.specs.FaultTexts.{fault_text};

    ghost output = { λ fault. Some (fault_text fault) };

    fn fmt<W: fmt::Write>(&self, f: &mut fmt::Formatter<W>) -> fmt::Result {
        match self {
            ConfFault::NoMemory => f.write_str("out of memory"),
            ConfFault::NotToml => f.write_str("config is not TOML"),
            ConfFault::Bad(number) => write!(f, "config fault {number}"),
        }
    }
}

impl std::error::Error for ConfFault {}
