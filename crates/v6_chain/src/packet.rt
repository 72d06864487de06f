//! A packet as it is read: its fixed header.

use savi_kinds::Addr;

/// The fixed header of a packet (RFC 8200 section 3).
#[derive(Clone, Copy, PartialEq, Eq, Debug)]
pub struct Ip {
    pub src: Addr,
    pub dst: Addr,
    /// The next-header value, which names what stands behind this header.
    pub next: u8,
    /// The hop limit.
    pub hop: u8,
    /// The payload length: how many octets of the packet stand behind this header.
    pub len: u16,
}

/// Why octets are no packet.
#[derive(Clone, Copy, PartialEq, Eq, Debug)]
pub enum IpFault {
    /// There are fewer octets than the fixed header has.
    Short,
    /// The version isn't 6.
    Version,
    /// There are fewer octets than the payload length says.
    Truncated,
    /// The source is a multicast address (RFC 4291 section 2.7).
    Multicast,
}
