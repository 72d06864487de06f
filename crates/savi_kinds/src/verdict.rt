ghost use Rattle.std.specs.Prelude.{◌≡◌};

use crate::port::Port;

/// Why a frame is dropped, in the order in which the rules are tried.
#[derive(Clone, Copy, PartialEq, Eq, Debug)]
pub enum Rule {
    /// The ingress port is shut.
    PortDown = 1,
    /// The frame has fewer than 14 octets or more than 1,518.
    Malformed = 2,
    /// The destination is one of 01-80-C2-00-00-00 to 01-80-C2-00-00-0F, which no bridge forwards (IEEE 802.1Q
    /// table 8-1).
    ReservedGroup = 3,
    /// The source MAC address has the group bit.
    SourceMac = 4,
    /// The frame has no VLAN at its port (IEEE 802.1Q): a tag at an access port; at a trunk none, or that of a VLAN that the
    /// trunk doesn't list; or a tag that names no VLAN, or another tag behind its tag.
    Tagged = 5,
    /// The IPv6 header or the chain of its extension headers is at fault (RFC 8200).
    BadIpv6 = 6,
    /// A first fragment doesn't hold its whole header chain (RFC 7112 section 5).
    HiddenUpper = 7,
    /// A next header that isn't known, where the plan drops such packets.
    UnknownNextHeader = 8,
    /// A router advertisement (RFC 6105, RFC 7113).
    RouterAdvert = 9,
    /// A fragmented message of neighbor discovery (RFC 6980 section 5).
    FragmentedNd = 10,
    /// A message of neighbor discovery that fails its validation (RFC 4861 sections 6.1 and 7.1).
    BadNd = 11,
    /// A redirect (RFC 4861 section 8).
    Redirect = 12,
    /// A DHCPv6 message that only a server or a relay sends (RFC 7610).
    DhcpServer = 13,
    /// The unspecified address as source, where no exception permits it.
    UnspecifiedSource = 14,
    /// The source, or the target of a duplicate address detection, isn't on-link.
    OffLink = 15,
    /// The address of a DHCP prefix isn't assigned.
    NotAssigned = 16,
    /// A new claim at a port that holds as many addresses as it may.
    PortFull = 17,
    /// The address is live at another port.
    WrongPort = 18,
    /// The address is tentative at this port.
    Unverified = 19,
    /// The address is tentative at another port, or under a test that this port has no part in.
    Contested = 20,
    /// The advertised target isn't live at this port.
    NaTarget = 21,
    /// The port has as many open DHCPv6 requests as it may.
    PendingFull = 22,
    /// Another port has an open DHCPv6 request with the same transaction id and client identifier.
    DhcpContested = 23,
}

impl Rule {
    ghost use Rattle.savi_kinds.specs.Rules.{rule_number};

    /// The rule's number, from 1 to 23: of several rules that apply the one with the least number is given.
    pub fn number(self) -> u8
        ensures { result ≡ rule_number self }
    {
        self as u8
    }
}

/// The ports to which a frame may go, the ingress port excepted.
#[derive(Clone, Copy, PartialEq, Eq, Debug)]
pub enum Scope {
    /// Each port.
    All,
    /// The trusted ports.
    TrustedOnly,
    /// The trusted ports and this one.
    TrustedAnd(Port),
}

/// What becomes of a frame.
#[derive(Clone, Copy, PartialEq, Eq, Debug)]
pub enum Verdict {
    Pass(Scope),
    Drop(Rule),
}
