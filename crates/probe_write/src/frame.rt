// The frame of a probe.

ghost use Rattle.std.specs.Prelude.{◌≡◌, ◌+◌, ◌≤◌, ◌++◌, length, drop};
ghost use Rattle.arrayvec.specs.ArrayVec.{array_vec_len};
ghost use Rattle.v6_sum.specs.InternetChecksum.{checksum};
ghost use Rattle.probe_write.specs.ProbeFrame.{no_address, solicited_node_of, probe_of};

use crate::solicitation::{SOLICITATION_LEN, solicitation, solicited_node};
use arrayvec::ArrayVec;
use nd_read::ON_LINK_HOP_LIMIT;
use savi_kinds::{Addr, Mac};
use v6_chain::ICMPV6;

/// Octets of a probe.
pub const PROBE_LEN: usize = 78;

/// The type of IPv6 in an Ethernet header (RFC 2464 section 3).
const ETHERTYPE_IPV6: u16 = 0x86dd;
/// The first two octets of the MAC address of an IPv6 group (RFC 2464 section 7).
const GROUP_MAC: [u8; 2] = [0x33, 0x33];
/// Version 6, traffic class 0, flow label 0 (RFC 8200 section 3).
const VERSION_CLASS_FLOW: [u8; 4] = [0x60, 0, 0, 0];

/// The frame of a probe: a neighbor solicitation for duplicate address detection of the target
/// (RFC 4861 section 4.3, RFC 4862 section 5.4.2), from the unspecified address to the target's
/// solicited-node address, without options. `mac` is the frame's source. O(1).
pub fn probe(mac: Mac, target: Addr) -> [u8; PROBE_LEN]
    ensures octets { result ≡ probe_of mac target }
    ensures ok { checksum no_address (solicited_node_of target) ICMPV6 (drop 54 result) ≡ 0 }
{
    let group = solicited_node(target).0.to_be_bytes();
    let mut frame = ArrayVec::new();
    append(&mut frame, &GROUP_MAC);
    append(&mut frame, &group[12..]);
    append(&mut frame, &mac.0);
    append(&mut frame, &ETHERTYPE_IPV6.to_be_bytes());
    append(&mut frame, &VERSION_CLASS_FLOW);
    append(&mut frame, &(SOLICITATION_LEN as u16).to_be_bytes());
    append(&mut frame, &[ICMPV6, ON_LINK_HOP_LIMIT]);
    append(&mut frame, &Addr::UNSPECIFIED.0.to_be_bytes());
    append(&mut frame, &group);
    append(&mut frame, &solicitation(target));
    frame.into_inner().unwrap()
}

/// Puts octets at the end of a frame that has room for them.
fn append(frame: &mut ArrayVec<u8, PROBE_LEN>, octets: &[u8])
    requires { array_vec_len frame.old + length octets.now ≤ 78 }
    ensures items { frame.new.items ≡ frame.old.items ++ octets.now }
    ensures len { array_vec_len frame.new ≡ array_vec_len frame.old + length octets.now }
{
    frame.try_extend_from_slice(octets).unwrap();
}
