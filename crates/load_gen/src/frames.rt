//! The frames of the hosts.

ghost use Rattle.std.specs.Prelude.{◌≡◌, ◌+◌, ◌≤◌, ◌++◌, length};
ghost use Rattle.arrayvec.specs.ArrayVec.{array_vec_len};
ghost use Rattle.load_gen.specs.Frames.{mac_of, host_address, data_of};

use arrayvec::ArrayVec;
use savi_kinds::{Addr, Mac, Prefix};

/// Octets of a packet's frame: an Ethernet header and an IPv6 header.
pub(crate) const DATA_LEN: usize = 54;

/// How many hosts there are. They have the numbers from 1 on.
pub(crate) const HOSTS: u8 = 3;

const ROUTER_MAC: Mac = Mac([0x02, 0, 0, 0, 0, 0xfe]);

const ROUTER: Addr = Addr((0xfe80 << 112) + 0xfe);

/// The type of IPv6 in an Ethernet header (RFC 2464 section 3).
const ETHERTYPE_IPV6: u16 = 0x86dd;
/// Version 6, traffic class 0, flow label 0, payload length 0 (RFC 8200 section 3).
const VERSION_TO_LENGTH: [u8; 6] = [0x60, 0, 0, 0, 0, 0];
/// No next header (RFC 8200 section 4.7), and a hop limit of 64.
const NEXT_AND_HOP_LIMIT: [u8; 2] = [59, 64];

// The MAC address of a host, 02:00:00:00:00:11 for host 1.
pub(crate) fn mac_of(host: u8) -> Mac
    requires { host ≤ 3 }
    ensures { result ≡ mac_of host }
{
    Mac([0x02, 0, 0, 0, 0, 0x11 * host])
}

// The address of a host, fe80::11 for host 1.
pub(crate) fn address_of(host: u8) -> Addr
    requires { host ≤ 3 }
    ensures { result ≡ host_address host }
{
    Addr(Prefix::LINK_LOCAL.net.0 + u128::from(0x11 * host))
}

// The frame of a packet from this MAC address and this source to the router.
pub(crate) fn data(mac: Mac, source: Addr) -> [u8; DATA_LEN]
    ensures { result ≡ data_of mac source }
{
    let mut frame = ArrayVec::new();
    append(&mut frame, &ROUTER_MAC.0);
    append(&mut frame, &mac.0);
    append(&mut frame, &ETHERTYPE_IPV6.to_be_bytes());
    append(&mut frame, &VERSION_TO_LENGTH);
    append(&mut frame, &NEXT_AND_HOP_LIMIT);
    append(&mut frame, &source.0.to_be_bytes());
    append(&mut frame, &ROUTER.0.to_be_bytes());
    frame.into_inner().unwrap()
}

// Puts octets at the end of a frame that has room for them.
fn append(frame: &mut ArrayVec<u8, DATA_LEN>, octets: &[u8])
    requires { array_vec_len frame.old + length octets.now ≤ 54 }
    ensures items { frame.new.items ≡ frame.old.items ++ octets.now }
    ensures len { array_vec_len frame.new ≡ array_vec_len frame.old + length octets.now }
{
    frame.try_extend_from_slice(octets).unwrap();
}
