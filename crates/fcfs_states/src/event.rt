// What happens to an address.

use savi_kinds::Port;

/// What happens to an address. The first five kinds are those that move the state of first come, first served.
#[derive(Clone, Copy, PartialEq, Eq, Debug)]
pub enum Ev {
    /// A packet came with the address as its source, at this port of a host.
    Sent(Port),
    /// A solicitation for duplicate address detection of the address, at this port of a host (RFC 4862 section 5.4.2).
    Dad(Port),
    /// An advertisement of the address, at this port of a host (RFC 4861 section 7.2.5).
    Na(Port),
    /// A solicitation for duplicate address detection of the address, at a trusted port.
    TpDad,
    /// An advertisement of the address, at a trusted port.
    TpNa,
    /// A DHCPv6 server leased the address to the host at this port, for this many seconds (RFC 8415 section 21.6).
    Lease { p: Port, valid: u32 },
    /// The host at this port released or declined the address (RFC 8415 sections 18.2.7 and 18.2.8).
    Release(Port),
    /// The address was bound to this port by configuration.
    Fix(Port),
    /// Each binding of the address was taken away.
    Clear,
}
