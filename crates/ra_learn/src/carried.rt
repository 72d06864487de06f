//! The router advertisement that a frame carries.

ghost use Rattle.std.specs.Prelude.{◌≡◌, ◌+◌, ◌≤◌, Some, None, length, MatchOption};
ghost use Rattle.v6_chain.specs.Packet.{IsPacket};
ghost use Rattle.ra_learn.specs.Carried.{Carried, carried, carried_in, upper_advert};

use frame_class::IPV6_TYPE;
use nd_read::ROUTER_ADVERTISEMENT;
use savi_kinds::{FRAME_OCTETS_LEAST, FRAME_OCTETS_MOST};
use v6_chain::{Chain, HEADER_LEN, ICMPV6, Ip, chain, ip};

/// The message of type 134 that a frame carries, with the fixed header of its packet; None exactly where it carries none,
/// or one behind a fragment header. The frame has at most 1,518 octets. O(headers).
pub fn carried(frame: &[u8]) -> Option<(Ip, &[u8])>
    requires { length frame.now ≤ FRAME_OCTETS_MOST }
    ensures value { MatchOption result (carried frame.now ≡ None) (λ found. carried frame.now ≡ Some (record { ip = found.0; message = found.1.now })) }
    ensures most { MatchOption result (Unit {0}) (λ found. length found.1.now ≤ 1464) }
{
    let Ok(eth) = eth_frame::read(frame) else {
        return None;
    };
    if eth.kind != IPV6_TYPE {
        return None;
    }
    carried_in(&frame[FRAME_OCTETS_LEAST..])
}

/// The same of what a frame carries.
fn carried_in(payload: &[u8]) -> Option<(Ip, &[u8])>
    requires { length payload.now ≤ 1504 }
    ensures value { MatchOption result (carried_in payload.now ≡ None) (λ found. carried_in payload.now ≡ Some (record { ip = found.0; message = found.1.now })) }
    ensures most { MatchOption result (Unit {0}) (λ found. length found.1.now ≤ 1464) }
{
    let Ok(ip) = ip(payload) else {
        return None;
    };
    match chain(&ip, payload) {
        Chain::Upper {
            proto,
            at,
            fragmented,
        } => {
            let body = &payload[HEADER_LEN..HEADER_LEN + usize::from(ip.len)];
            upper_advert(ip, proto, &body[usize::from(at)..], fragmented)
        }
        Chain::Bad(_) => None,
        Chain::Hidden => None,
        Chain::Unknown(_) => None,
        Chain::Later => None,
    }
}

/// The message of an upper header, where it is a router advertisement.
fn upper_advert(ip: Ip, proto: u8, message: &[u8], fragmented: bool) -> Option<(Ip, &[u8])>
    ensures value { MatchOption result (upper_advert ip proto message.now fragmented ≡ None) (λ found. upper_advert ip proto message.now fragmented ≡ Some (record { ip = found.0; message = found.1.now })) }
    ensures most { MatchOption result (Unit {0}) (λ found. length found.1.now ≤ length message.now) }
{
    match message {
        [ROUTER_ADVERTISEMENT, ..] if proto == ICMPV6 && !fragmented => Some((ip, message)),
        _ => None,
    }
}
