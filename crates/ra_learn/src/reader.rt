//! Reading a router advertisement.

ghost use Rattle.std.specs.Prelude.{◌≡◌, ◌≤◌, length, IsTrue};
ghost use Rattle.nd_read.specs.InPrefix.{lies_in};
ghost use Rattle.savi_kinds.specs.Prefixes.{link_local};
ghost use Rattle.ra_learn.specs.RouterAdverts.{advert_of, is_advert_header};

use crate::advert::Ra;
use crate::options::read_prefixes;
use byteorder::{BigEndian, ByteOrder};
use nd_read::{ON_LINK_HOP_LIMIT, ROUTER_ADVERTISEMENT};
use savi_kinds::{Addr, Prefix};
use v6_chain::{ICMPV6, Ip};
use v6_sum::sum_ok;

/// Where the type stands (RFC 4443 section 2.1).
const TYPE_AT: usize = 0;
/// Where the code stands (RFC 4443 section 2.1).
const CODE_AT: usize = 1;
/// Where the router lifetime stands (RFC 4861 section 4.2).
const LIFE_AT: usize = 6;
/// Octets of a router advertisement before its options (RFC 4861 section 4.2).
const ROUTER_FIXED_LEN: usize = 16;

/// fe80::ffff:ffff:ffff:ffff, the last of the link-local addresses (RFC 4291 section 2.5.6).
const LINK_LOCAL_LAST: u128 = 0xfe80_0000_0000_0000_ffff_ffff_ffff_ffff;

/// What a message says where it is a good router advertisement, one that a host takes (RFC 4861 section 6.1.2): None
/// exactly where it isn't one. The message, from its type octet on, has at most 1,464 octets. O(n).
pub fn read_ra(ip: &Ip, message: &[u8]) -> Option<Ra>
    requires { length message.now ≤ 1464 }
    ensures { result ≡ advert_of ip.now message.now }
{
    if !is_advert_header(ip, message) {
        return None;
    }
    match read_prefixes(&message[ROUTER_FIXED_LEN..]) {
        Some(prefixes) => Some(Ra {
            life: BigEndian::read_u16(&message[LIFE_AT..]),
            prefixes,
        }),
        None => None,
    }
}

/// The tests of a good advertisement, but for that of its options.
fn is_advert_header(ip: &Ip, message: &[u8]) -> bool
    requires { length message.now ≤ 1464 }
    ensures value { result ≡ is_advert_header ip.now message.now }
    ensures long { IsTrue result → 16 ≤ length message.now }
{
    message.len() >= ROUTER_FIXED_LEN
        && message[TYPE_AT] == ROUTER_ADVERTISEMENT
        && message[CODE_AT] == 0
        && is_link_local(ip.src)
        && ip.hop == ON_LINK_HOP_LIMIT
        && sum_ok(ip.src, ip.dst, ICMPV6, message)
}

/// Whether an address is in fe80::/64 (RFC 4291 section 2.5.6).
fn is_link_local(address: Addr) -> bool
    ensures { result ≡ lies_in address.0 link_local }
{
    address.0 >= Prefix::LINK_LOCAL.net.0 && address.0 <= LINK_LOCAL_LAST
}
