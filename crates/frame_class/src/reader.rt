//! Reading a frame, layer by layer.

ghost use Rattle.std.specs.Prelude.{◌≡◌, ◌+◌, ◌≤◌, ◌↔◌, IsTrue, length};
ghost use Rattle.eth_frame.specs.Tags.{inner, tag_of, without_tag};
ghost use Rattle.v6_chain.specs.Packet.{IsPacket};
ghost use Rattle.v6_chain.specs.Outcome.{IsWholeUpper};
ghost use Rattle.v6_chain.specs.Kinds.{kind_of};
ghost use Rattle.frame_class.specs.declared.classes.Class.{Class};
ghost use Rattle.frame_class.specs.declared.classes.Seen.{Seen};
ghost use Rattle.frame_class.specs.Reading.{IsClassOf, IsTypedClass, IsPacketClass, IsUpperClass, IsNdOf, IsDhcpOf, IsForDhcp};
ghost use Rattle.frame_class.specs.Seen.{IsSeen};

use crate::classes::{Class, Read, Seen};
use byteorder::{BigEndian, ByteOrder};
use dhcp6_read::{Dhcp, MESSAGE_LEN_MOST, dhcp};
use eth_frame::{CUSTOMER_TAG, Eth, SERVICE_TAG, TAGGED_OCTETS_LEAST, Tag, tag, untagged_header};
use nd_read::{Nd, nd};
use savi_kinds::{FRAME_OCTETS_LEAST, FRAME_OCTETS_MOST};
use v6_chain::{Chain, HEADER_LEN, ICMPV6, Ip, UDP, chain, ip};

/// The EtherType of IPv6 (RFC 2464 section 3).
pub const IPV6_TYPE: u16 = 0x86dd;

/// Where the type stands in an ICMPv6 message (RFC 4443 section 2.1).
const TYPE_AT: usize = 0;

/// Where the destination port begins in a UDP header (RFC 768).
const DESTINATION_PORT_AT: usize = 2;

/// Where the length of header and payload begins in a UDP header (RFC 768).
const UDP_LENGTH_AT: usize = 4;

/// The octets of a UDP header (RFC 768).
const UDP_HEADER_LEN: usize = 8;

/// The UDP port at which DHCPv6 clients listen (RFC 8415 section 7.2).
const DHCP6_CLIENT_PORT: u16 = 546;

/// The UDP port at which DHCPv6 servers and relays listen (RFC 8415 section 7.2).
const DHCP6_SERVER_PORT: u16 = 547;

/// What a frame is, whatever tag it has. Its octets, without the check sequence, are at most 1,518. O(n), as `seen`.
pub fn class(frame: &[u8]) -> Class
    requires { length frame.now ≤ FRAME_OCTETS_MOST }
    ensures reading { IsClassOf frame.now result }
    ensures only { (other : Class) → IsClassOf frame.now other → other ≡ result }
{
    let mut class = Class::Runt;
    put_class(frame, &mut class);
    class
}

/// What is seen of a frame, as `see` puts it. O(n), as `see`, and it is copied.
pub fn seen(frame: &[u8]) -> Seen
    requires { length frame.now ≤ FRAME_OCTETS_MOST }
    ensures reading { IsSeen frame.now result }
    ensures only { (other : Seen) → IsSeen frame.now other → other ≡ result }
{
    let mut seen = Seen::nothing();
    see(frame, &mut seen);
    seen
}

/// Puts what is seen of a frame in the place of `into`: its VLAN tag, and what its inner frame is. A frame of fewer than 14
/// octets has no tag. The octets, without the check sequence, are at most 1,518. O(n): the headers are gone through once,
/// the octets of a message of neighbor discovery also for their checksum, and those of a message of DHCPv6 for its options.
/// Behind a tag all is read where it stands.
pub fn see(frame: &[u8], into: &mut Seen)
    requires { length frame.now ≤ FRAME_OCTETS_MOST }
    ensures reading { IsSeen frame.now into.new }
    ensures only { (other : Seen) → IsSeen frame.now other → other ≡ into.new }
{
    let tag = tag_if_whole(frame);
    into.tag = tag;
    put_inner_class(frame, tag, &mut into.class);
}

/// The tag of a frame, which is none where the frame has fewer than 14 octets.
fn tag_if_whole(frame: &[u8]) -> Tag
    ensures { result ≡ tag_of frame.now }
{
    if frame.len() < FRAME_OCTETS_LEAST {
        return Tag::None;
    }
    tag(frame)
}

/// Puts what the inner frame of a frame with this tag is.
fn put_inner_class(frame: &[u8], tag: Tag, class: &mut Class)
    requires most { length frame.now ≤ FRAME_OCTETS_MOST }
    requires tag { tag ≡ tag_of frame.now }
    ensures { IsClassOf (inner frame.now) class.new }
{
    match tag {
        Tag::None => put_class(frame, class),
        Tag::Vid(_) => put_untagged_class(frame, class),
        Tag::Bad => put_class(frame, class),
    }
}

/// Puts what a frame is without its tag: the EtherType behind the tag says what stands from octet 18 on.
fn put_untagged_class(frame: &[u8], class: &mut Class)
    requires whole { TAGGED_OCTETS_LEAST ≤ length frame.now }
    requires most { length frame.now ≤ FRAME_OCTETS_MOST }
    ensures { IsClassOf (without_tag frame.now) class.new }
{
    let eth = untagged_header(frame);
    put_class_by(eth, &frame[TAGGED_OCTETS_LEAST..], class);
}

/// Puts what a frame is, whatever tag it has, in the place of `class`. A class is large: so it is made where it stays, and
/// not handed on from layer to layer.
fn put_class(frame: &[u8], class: &mut Class)
    requires { length frame.now ≤ FRAME_OCTETS_MOST }
    ensures { IsClassOf frame.now class.new }
{
    let Ok(eth) = eth_frame::read(frame) else {
        *class = Class::Runt;
        return;
    };
    put_class_by(eth, &frame[FRAME_OCTETS_LEAST..], class);
}

/// Puts what a frame is by its header and what stands behind it.
fn put_class_by(eth: Eth, payload: &[u8], class: &mut Class)
    requires { FRAME_OCTETS_LEAST + length payload.now ≤ FRAME_OCTETS_MOST }
    ensures { IsTypedClass eth payload.now class.new }
{
    match eth.kind {
        CUSTOMER_TAG | SERVICE_TAG => *class = Class::Tagged { eth },
        IPV6_TYPE => put_packet(eth, payload, class),
        _ => *class = Class::Other { eth },
    }
}

/// Puts what a frame is by what it carries, where that should be an IPv6 packet.
fn put_packet(eth: Eth, payload: &[u8], class: &mut Class)
    requires { FRAME_OCTETS_LEAST + length payload.now ≤ FRAME_OCTETS_MOST }
    ensures { IsPacketClass eth payload.now class.new }
{
    match ip(payload) {
        Ok(ip) => put_chain(eth, ip, payload, class),
        Err(_) => *class = Class::BadIp { eth },
    }
}

/// Puts what a frame is by the header chain of its packet.
fn put_chain(eth: Eth, ip: Ip, payload: &[u8], class: &mut Class)
    requires packet { IsPacket payload.now ip }
    requires most { FRAME_OCTETS_LEAST + length payload.now ≤ FRAME_OCTETS_MOST }
    ensures { IsPacketClass eth payload.now class.new }
{
    match chain(&ip, payload) {
        Chain::Bad(_) => {
            *class = Class::Ip6 {
                eth,
                ip,
                read: Read::Bad,
            }
        }
        Chain::Hidden => {
            *class = Class::Ip6 {
                eth,
                ip,
                read: Read::Hidden,
            }
        }
        Chain::Unknown(_) => {
            *class = Class::Ip6 {
                eth,
                ip,
                read: Read::Unknown,
            }
        }
        Chain::Later => {
            *class = Class::Ip6 {
                eth,
                ip,
                read: Read::Later,
            }
        }
        Chain::Upper {
            proto,
            at,
            fragmented,
        } => {
            let body = &payload[HEADER_LEN..HEADER_LEN + usize::from(ip.len)];
            put_upper(eth, ip, proto, &body[usize::from(at)..], fragmented, class);
        }
    }
}

/// Puts what a frame is whose packet has a message of this protocol.
fn put_upper(eth: Eth, ip: Ip, proto: u8, message: &[u8], fragmented: bool, class: &mut Class)
    requires whole { IsWholeUpper (kind_of proto) message.now }
    requires most { length message.now ≤ UDP_HEADER_LEN + MESSAGE_LEN_MOST }
    ensures { IsUpperClass eth ip proto message.now fragmented class.new }
{
    match proto {
        ICMPV6 => put_icmp(eth, ip, message, fragmented, class),
        UDP => put_udp(eth, ip, message, fragmented, class),
        _ => {
            *class = Class::Ip6 {
                eth,
                ip,
                read: Read::Plain,
            }
        }
    }
}

/// Puts what a frame with an ICMPv6 message is (RFC 4443 section 2.1, RFC 4861 section 4).
fn put_icmp(eth: Eth, ip: Ip, message: &[u8], fragmented: bool, class: &mut Class)
    requires least { 4 ≤ length message.now }
    requires most { length message.now ≤ 65535 }
    ensures { IsUpperClass eth ip 58 message.now fragmented class.new }
{
    let nd = nd_of(&ip, message, fragmented);
    *class = Class::Ip6 {
        eth,
        ip,
        read: Read::Icmp {
            kind: message[TYPE_AT],
            fragmented,
            nd,
        },
    };
}

/// Puts what a frame with a UDP datagram is (RFC 768).
fn put_udp(eth: Eth, ip: Ip, message: &[u8], fragmented: bool, class: &mut Class)
    requires least { UDP_HEADER_LEN ≤ length message.now }
    requires most { length message.now ≤ UDP_HEADER_LEN + MESSAGE_LEN_MOST }
    ensures { IsUpperClass eth ip 17 message.now fragmented class.new }
{
    let to = BigEndian::read_u16(&message[DESTINATION_PORT_AT..]);
    let first = message.get(UDP_HEADER_LEN).copied();
    *class = Class::Ip6 {
        eth,
        ip,
        read: Read::Udp {
            to,
            first,
            fragmented,
            dhcp: dhcp_of(message, fragmented),
        },
    };
}

/// What an ICMPv6 message says for neighbor discovery.
fn nd_of(ip: &Ip, message: &[u8], fragmented: bool) -> Option<Nd>
    requires least { 4 ≤ length message.now }
    requires most { length message.now ≤ 65535 }
    ensures { IsNdOf ip.now message.now fragmented result }
{
    if fragmented {
        return None;
    }
    nd(ip, message).ok()
}

/// What a UDP datagram says for DHCPv6 (RFC 8415).
fn dhcp_of(message: &[u8], fragmented: bool) -> Option<Dhcp>
    requires least { UDP_HEADER_LEN ≤ length message.now }
    requires most { length message.now ≤ UDP_HEADER_LEN + MESSAGE_LEN_MOST }
    ensures { IsDhcpOf message.now fragmented result }
{
    if !is_for_dhcp(message, fragmented) {
        return None;
    }
    dhcp(&message[UDP_HEADER_LEN..]).ok()
}

/// Whether a UDP datagram is a whole one for DHCPv6: to one of its ports, and as long as its header says. O(1).
fn is_for_dhcp(message: &[u8], fragmented: bool) -> bool
    requires { UDP_HEADER_LEN ≤ length message.now }
    ensures { IsTrue result ↔ IsForDhcp message.now fragmented }
{
    let to = BigEndian::read_u16(&message[DESTINATION_PORT_AT..]);
    let len = BigEndian::read_u16(&message[UDP_LENGTH_AT..]);
    !fragmented
        && matches!(to, DHCP6_CLIENT_PORT | DHCP6_SERVER_PORT)
        && usize::from(len) == message.len()
}
