// The messages of neighbor discovery and their faults.

use savi_kinds::Addr;

/// ICMPv6 type of a router solicitation (RFC 4861 section 4.1).
pub const ROUTER_SOLICITATION: u8 = 133;
/// ICMPv6 type of a router advertisement (RFC 4861 section 4.2).
pub const ROUTER_ADVERTISEMENT: u8 = 134;
/// ICMPv6 type of a neighbor solicitation (RFC 4861 section 4.3).
pub const NEIGHBOR_SOLICITATION: u8 = 135;
/// ICMPv6 type of a neighbor advertisement (RFC 4861 section 4.4).
pub const NEIGHBOR_ADVERTISEMENT: u8 = 136;
/// ICMPv6 type of a redirect (RFC 4861 section 4.5).
pub const REDIRECT: u8 = 137;

/// The S flag of a neighbor advertisement: it answers a solicitation (RFC 4861 section 4.4).
pub const SOLICITED_FLAG: u8 = 0x40;

/// Hop limit of a message that no router has forwarded (RFC 4861 sections 4.3, 6.1.1 and 6.1.2).
pub const ON_LINK_HOP_LIMIT: u8 = 255;

/// ff02::1:ff00:0, the first of the solicited-node addresses (RFC 4291 section 2.7.1).
pub const SOLICITED_NODE_FIRST: u128 = 0xff02_0000_0000_0000_0000_0001_ff00_0000;

/// An ICMPv6 message by what neighbor discovery sees in it (RFC 4861 section 4).
#[derive(Clone, Copy, PartialEq, Eq, Debug)]
pub enum Nd {
    /// A router solicitation.
    Rs,
    /// A router advertisement, which isn't tested.
    Ra,
    /// A neighbor solicitation. `dad` says that its source is the unspecified address, so that it
    /// asks for duplicate address detection (RFC 4862 section 5.4.2).
    Ns { target: Addr, dad: bool },
    /// A neighbor advertisement, with the octet that holds its flags.
    Na { target: Addr, flags: u8 },
    /// A redirect, which isn't tested.
    Redirect,
    /// A message of another ICMPv6 type.
    Other,
}

/// Why a router solicitation, a neighbor solicitation or a neighbor advertisement is refused: the first
/// test, in this order, that it fails (RFC 4861 sections 6.1.1, 7.1.1 and 7.1.2).
#[derive(Clone, Copy, PartialEq, Eq, Debug)]
pub enum NdFault {
    /// The hop limit isn't 255.
    HopLimit,
    /// The ICMPv6 code isn't 0.
    Code,
    /// It has fewer octets than its fixed part.
    Short,
    /// The checksum is wrong.
    Checksum,
    /// The target is a multicast address.
    Target,
    /// What stands behind the fixed part isn't a row of whole options.
    Options,
    /// The source is the unspecified address, and an option of a solicitation names the source's
    /// link-layer address, or a neighbor solicitation isn't sent to a solicited-node address.
    Unspecified,
    /// An advertisement to a group has the S flag.
    Solicited,
}
