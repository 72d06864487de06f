//! Bindings by DHCPv6.

ghost use Rattle.std.specs.Prelude.{◌≡◌, ◌≤◌, ◌^◌};
ghost use Rattle.dhcp_states.specs.Bindings.{lease_end};

use crate::request::MAX_DHCP_RESPONSE_TIME_MS;
use savi_kinds::{Moment, Port};

/// The valid lifetime that stands for infinity (RFC 8415 section 7.7).
pub const INFINITE_LIFETIME: u32 = 0xffff_ffff;

/// How many ms a second has.
const MS_PER_SECOND: u64 = 1_000;

/// An address is bound to the port whose client asked for it (RFC 7513 section 5).
#[derive(Clone, Copy, PartialEq, Eq, Debug)]
pub struct Bound {
    /// The port.
    pub p: Port,
    /// The moment (ms) at which the binding ends, or none where it doesn't end.
    pub until: Option<Moment>,
}

impl Bound {
    ghost use Rattle.savi_kinds.specs.Ports.{number_of};
    ghost use Rattle.dhcp_states.specs.Bindings.{binding_at, released_at};

    /// What stands of the binding at moment `t` (ms): None exactly where it has ended, as it has at `until` itself. O(1).
    pub fn aged(self, t: Moment) -> Option<Bound>
        ensures { result ≡ binding_at t self }
    {
        match self.until {
            Some(until) if until <= t => None,
            Some(_) | None => Some(self),
        }
    }

    /// What stands of the binding when the client at port `p` releases the address: None exactly where it is bound
    /// there. O(1).
    pub fn released(self, p: Port) -> Option<Bound>
        ensures { result ≡ released_at (number_of p) self }
    {
        if self.p.get() == p.get() {
            None
        } else {
            Some(self)
        }
    }
}

/// The moment (ms) at which a binding ends that a lease of `valid` seconds makes at moment `t` (ms): none for the
/// infinite lifetime, and else MAX_DHCP_RESPONSE_TIME after the lease (RFC 7513 section 6.4.2). O(1).
pub fn lease_end(valid: u32, t: Moment) -> Option<Moment>
    requires { t ≤ 2 ^ 62 }
    ensures { result ≡ lease_end valid t }
{
    if valid == INFINITE_LIFETIME {
        None
    } else {
        Some(t + MS_PER_SECOND * u64::from(valid) + MAX_DHCP_RESPONSE_TIME_MS)
    }
}
