//! Reading the fixed header of a packet.

ghost use Rattle.std.specs.Prelude.{◌≡◌, ◌↔◌, Result, IsTrue};
ghost use Rattle.savi_kinds.specs.Prefixes.{LiesIn, multicast};
ghost use Rattle.v6_chain.specs.Packet.{Reads};

use crate::packet::{Ip, IpFault};
use byteorder::{BigEndian, ByteOrder};
use savi_kinds::{Addr, Prefix};

/// The octets of the fixed header (RFC 8200 section 3).
pub const HEADER_LEN: usize = 40;

/// The version, in the first four bits (RFC 8200 section 3).
const VERSION: u8 = 6;

/// Where the payload length begins.
const LEN_AT: usize = 4;

/// Where the next-header value is.
const NEXT_AT: usize = 6;

/// Where the hop limit is.
const HOP_AT: usize = 7;

/// Where the source begins.
const SRC_AT: usize = 8;

/// Where the destination begins.
const DST_AT: usize = 24;

/// The fixed header of the packet that a frame carries, or the first of the four faults, in their order. Octets past the
/// payload length are padding of the frame. O(1).
pub fn ip(payload: &[u8]) -> Result<Ip, IpFault>
    ensures reading { Reads payload.now result }
    ensures only { (other : Result Ip IpFault) → Reads payload.now other → other ≡ result }
{
    if payload.len() < HEADER_LEN {
        return Err(IpFault::Short);
    }
    if payload[0] >> 4 != VERSION {
        return Err(IpFault::Version);
    }
    let len = BigEndian::read_u16(&payload[LEN_AT..]);
    if payload.len() < HEADER_LEN + usize::from(len) {
        return Err(IpFault::Truncated);
    }
    let src = Addr(BigEndian::read_u128(&payload[SRC_AT..]));
    if is_multicast(src) {
        return Err(IpFault::Multicast);
    }
    Ok(Ip {
        src,
        dst: Addr(BigEndian::read_u128(&payload[DST_AT..])),
        next: payload[NEXT_AT],
        hop: payload[HOP_AT],
        len,
    })
}

/// Whether an address is in ff00::/8 (RFC 4291 section 2.7).
pub fn is_multicast(address: Addr) -> bool
    ensures { IsTrue result ↔ LiesIn address.0 multicast }
{
    address.0 >= Prefix::MULTICAST.net.0
}
