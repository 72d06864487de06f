//! What the inner frame of a frame carries.

ghost use Rattle.std.specs.Prelude.{◌≡◌, ◌≤◌, length};
ghost use Rattle.eth_frame.specs.Frame.{header_of};
ghost use Rattle.eth_frame.specs.Tags.{inner, tag_of};
ghost use Rattle.audit_run.specs.PassedFrames.{carries_ipv4_or_arp};

use eth_frame::{Tag, untagged_header};

/// The EtherType of IPv4 (RFC 894).
const IPV4_TYPE: u16 = 0x0800;

/// The EtherType of ARP (RFC 826).
const ARP_TYPE: u16 = 0x0806;

/// Whether the inner frame of a frame of 14 to 1,518 octets carries IPv4 or ARP. O(1).
pub(crate) fn carries_ipv4_or_arp(frame: &[u8]) -> bool
    requires least { 14 ≤ length frame.now }
    requires most { length frame.now ≤ 1518 }
    ensures { result ≡ carries_ipv4_or_arp (header_of (inner frame.now)).kind }
{
    let kind = inner_kind(frame, eth_frame::tag(frame));
    kind == IPV4_TYPE || kind == ARP_TYPE
}

// The EtherType of the inner frame of a frame with this tag.
fn inner_kind(frame: &[u8], tag: Tag) -> u16
    requires least { 14 ≤ length frame.now }
    requires most { length frame.now ≤ 1518 }
    requires tag { tag ≡ tag_of frame.now }
    ensures { result ≡ (header_of (inner frame.now)).kind }
{
    match tag {
        Tag::None => outer_kind(frame),
        Tag::Vid(_) => untagged_header(frame).kind,
        Tag::Bad => outer_kind(frame),
    }
}

// The EtherType of a frame, whatever tag it has.
fn outer_kind(frame: &[u8]) -> u16
    requires least { 14 ≤ length frame.now }
    requires most { length frame.now ≤ 1518 }
    ensures { result ≡ (header_of frame.now).kind }
{
    match eth_frame::read(frame) {
        Ok(eth) => eth.kind,
        Err(_) => unreachable!(),
    }
}
