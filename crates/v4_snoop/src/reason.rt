//! The reasons.

/// Why a frame that passed is reported.
#[derive(Clone, Copy, PartialEq, Eq, Debug)]
pub enum Reason {
    /// What should be an ARP packet isn't one, or its sender isn't who sent the frame.
    ArpBad,
    /// The sender of an ARP packet claims an address that isn't leased there to it.
    ArpSource,
    /// What should be an IPv4 packet has no readable header.
    IpBad,
    /// A server of DHCP speaks at a host's port.
    Server,
    /// The source of a packet isn't leased there.
    IpSource,
    /// A client's request found 16 others open at its port.
    RequestFull,
    /// The port of a client that a server granted a lease to has as many as it may.
    PortFull,
}
