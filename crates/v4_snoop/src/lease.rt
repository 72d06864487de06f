//! One lease.

ghost use Rattle.std.specs.Prelude.{◌≡◌, ◌≤◌, ◌^◌, ◌&&◌, if◌then◌else◌};
ghost use Rattle.savi_kinds.specs.Ports.{number_of};
ghost use Rattle.v4_snoop.specs.Leased.{v4_key, is_live_lease, is_lease_at, lease_until, lease_of};

use crate::told::Granted;
use savi_kinds::{Moment, Port};

/// How many ms a second has.
const MS_PER_SECOND: u64 = 1_000;

/// The time that stands for infinity (RFC 2131 section 3.3).
const INFINITE_TIME: u32 = 0xffff_ffff;

/// Which client has an address at which port.
#[derive(Clone, Copy)]
pub(crate) struct Lease {
    /// The VLAN in the upper 32 bits, the address in the lower ones.
    pub key: u64,
    /// The port at which the client asked.
    pub port: Port,
    /// Its hardware address, as a number of 48 bits.
    pub mac: u64,
    /// The moment (ms) before which the lease is live; None where it doesn't end.
    pub until: Option<Moment>,
}

impl Lease {
    // The lease that is granted at t to the client that asked at a port of a VLAN.
    pub(crate) fn new(vlan: u16, port: Port, mac: u64, t: Moment, granted: Granted) -> Lease
        requires { t ≤ 2 ^ 62 }
        ensures { result ≡ lease_of vlan port mac t granted }
    {
        Lease {
            key: key_of(vlan, granted.address),
            port,
            mac,
            until: lease_until(t, granted.seconds),
        }
    }

    // Whether it is live at t.
    pub(crate) fn is_live(&self, t: Moment) -> bool
        ensures { result ≡ is_live_lease t self.now }
    {
        match self.until {
            Some(until) => t < until,
            None => true,
        }
    }

    // Whether the client asked at this port.
    pub(crate) fn is_at(&self, p: Port) -> bool
        ensures { result ≡ is_lease_at (number_of p) self.now }
    {
        self.port.get() == p.get()
    }

    // The client's hardware address, where the lease is live at t and of this port.
    pub(crate) fn client_at(&self, p: Port, t: Moment) -> Option<u64>
        ensures { result ≡ (if is_live_lease t self.now && is_lease_at (number_of p) self.now then Some self.now.mac else None) }
    {
        if self.is_live(t) && self.is_at(p) {
            Some(self.mac)
        } else {
            None
        }
    }
}

/// The key of an address in a VLAN. O(1).
pub(crate) fn key_of(vlan: u16, address: u32) -> u64
    ensures { result ≡ v4_key vlan address }
{
    u64::from(vlan) * (1 << 32) + u64::from(address)
}

// The moment at which a lease of so many seconds ends that is granted at t.
fn lease_until(t: Moment, seconds: u32) -> Option<Moment>
    requires { t ≤ 2 ^ 62 }
    ensures { result ≡ lease_until t seconds }
{
    if seconds == INFINITE_TIME {
        None
    } else {
        Some(t + MS_PER_SECOND * u64::from(seconds))
    }
}
