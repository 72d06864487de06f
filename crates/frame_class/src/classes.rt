//! What a frame is.

ghost use Rattle.std.specs.Prelude.{◌≡◌};
ghost use Rattle.eth_frame.specs.declared.vlan_tag.Tag.TheVariants as tags;
ghost use Rattle.frame_class.specs.declared.classes.Class.TheVariants as classes;
ghost use Rattle.frame_class.specs.Classes.{eth_of};

use dhcp6_read::Dhcp;
use eth_frame::{Eth, Tag};
use nd_read::Nd;
use v6_chain::Ip;

/// What is seen of a frame of at most 1,518 octets.
#[derive(PartialEq, Eq, Debug, Drop)]
pub struct Seen {
    /// Its VLAN tag (IEEE 802.1Q section 9).
    pub tag: Tag,
    /// What its inner frame is: the frame without a tag that names a VLAN.
    pub class: Class,
}

/// What a frame of at most 1,518 octets is. It takes 1,952 octets in memory, as much as the longest message of DHCPv6 may
/// say: so it is read once, and then lent.
#[derive(PartialEq, Eq, Debug, Drop)]
pub enum Class {
    /// Fewer than 14 octets: no frame (IEEE 802.3 section 3.1.1).
    Runt,
    /// A frame with a VLAN tag (EtherType 0x8100 or 0x88A8, IEEE 802.1Q), behind which nothing is read. An inner frame is
    /// one of these where the tag names no VLAN.
    Tagged {
        eth: Eth,
    },
    /// A frame with another EtherType than these and that of IPv6.
    Other {
        eth: Eth,
    },
    /// A frame that should carry IPv6 (EtherType 0x86DD, RFC 2464 section 3) and whose packet has a fault in its fixed
    /// header.
    BadIp {
        eth: Eth,
    },
    /// A frame that carries an IPv6 packet.
    Ip6 {
        eth: Eth,
        ip: Ip,
        /// What the packet shows behind its fixed header.
        read: Read,
    },
}

/// What an IPv6 packet shows behind its fixed header.
#[derive(PartialEq, Eq, Debug, Drop)]
pub enum Read {
    /// A header chain that breaks a rule of its format (RFC 8200 section 4).
    Bad,
    /// A first fragment whose header chain or upper header isn't whole (RFC 7112).
    Hidden,
    /// A header chain that ends at a next-header value that isn't known.
    Unknown,
    /// A fragment behind the first (RFC 8200 section 4.5).
    Later,
    /// An ICMPv6 message (RFC 4443).
    Icmp {
        /// The type of the message.
        kind: u8,
        /// A fragment header stands before it.
        fragmented: bool,
        /// What the message says for neighbor discovery. `None` where it is refused, and where it is behind a fragment
        /// header, since then its octets may not be all here.
        nd: Option<Nd>,
    },
    /// A UDP datagram (RFC 768).
    Udp {
        /// The destination port.
        to: u16,
        /// The first octet behind the UDP header, if there is one, whatever the length field says.
        first: Option<u8>,
        /// A fragment header stands before it.
        fragmented: bool,
        /// The message of DHCPv6 in it. `None` where it is refused, where the port is neither 546 nor 547, where the
        /// datagram isn't as long as its header says, and behind a fragment header, since then its octets may not be all
        /// here.
        dhcp: Option<Dhcp>,
    },
    /// Another upper header that is known.
    Plain,
}

impl Seen {
    /// What is seen of no octets: room for what is seen of a frame.
    pub fn nothing() -> Seen
        ensures tag { result.tag ≡ tags.None }
        ensures class { result.class ≡ classes.Runt }
    {
        Seen {
            tag: Tag::None,
            class: Class::Runt,
        }
    }
}

impl Class {
    /// The Ethernet header, which all but a runt have. O(1).
    pub fn eth(&self) -> Option<Eth>
        ensures { result ≡ eth_of self.now }
    {
        match self {
            Class::Runt => None,
            Class::Tagged { eth }
            | Class::Other { eth }
            | Class::BadIp { eth }
            | Class::Ip6 { eth, .. } => Some(*eth),
        }
    }
}
