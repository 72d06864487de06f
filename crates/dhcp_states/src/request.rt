//! One request of a client.

ghost use Rattle.std.specs.Prelude.{◌≡◌, ◌≤◌, length};

use arrayvec::ArrayVec;
use savi_kinds::{Moment, Port};

/// The octets of the longest DUID: a type of 2 octets and at most 128 more (RFC 8415 section 11.1).
pub const DUID_OCTETS_MOST: usize = 130;

/// How long a request stays open, in ms: MAX_DHCP_RESPONSE_TIME (RFC 7513 section 10).
pub const MAX_DHCP_RESPONSE_TIME_MS: u64 = 120_000;

/// A request of a DHCPv6 client: who may be given a Reply (RFC 7513 section 6).
#[derive(Drop, Debug)]
pub struct Request {
    /// The port at which it was asked.
    pub port: Port,
    /// Its transaction id (RFC 8415 section 16.1).
    pub tid: u32,
    /// The client's DUID (RFC 8415 section 11).
    pub duid: ArrayVec<u8, DUID_OCTETS_MOST>,
    /// The moment (ms) at which it was opened, or renewed last.
    pub opened: Moment,
}

impl Request {
    ghost use Rattle.savi_kinds.specs.Ports.{number_of};
    ghost use Rattle.dhcp_states.specs.Requests.{request_of, is_open, is_at, has_pair};

    // The request that is opened or renewed at t.
    pub(crate) fn new(port: Port, tid: u32, duid: &[u8], t: Moment) -> Request
        requires { length duid.now ≤ 130 }
        ensures { result ≡ request_of port tid duid.now t }
    {
        let mut octets = ArrayVec::new();
        match octets.try_extend_from_slice(duid) {
            Ok(()) => {}
            Err(_) => unreachable!(),
        }
        Request {
            port,
            tid,
            duid: octets,
            opened: t,
        }
    }

    /// Whether the request is open at moment `t` (ms). O(1).
    pub fn is_open(&self, t: Moment) -> bool
        ensures { result ≡ is_open t self.now }
    {
        t.saturating_sub(self.opened) < MAX_DHCP_RESPONSE_TIME_MS
    }

    // Whether it was asked at this port.
    pub(crate) fn is_at(&self, p: Port) -> bool
        ensures { result ≡ is_at (number_of p) self.now }
    {
        self.port.get() == p.get()
    }

    // Whether it has this transaction id and DUID.
    pub(crate) fn has_pair(&self, tid: u32, duid: &[u8]) -> bool
        ensures { result ≡ has_pair tid duid.now self.now }
    {
        self.tid == tid && self.duid.as_slice() == duid
    }
}
