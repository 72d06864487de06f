//! IPv4 packets, and the datagrams of UDP in them.

ghost use Rattle.std.specs.Prelude.{◌≡◌, ◌≤◌, true, length, IsTrue};
ghost use Rattle.v4_snoop.specs.Packets.{IsReadableIp, is_readable, header_len, total_len, is_ip_fragment, source_of, ip_body, has_datagram, udp_ports, datagram_payload};

use byteorder::{BigEndian, ByteOrder};

/// The version of IPv4 (RFC 791 section 3.1).
const IP_VERSION: u8 = 4;

/// Octets of a header without options (RFC 791 section 3.1).
const HEADER_LEN_LEAST: usize = 20;

/// Where the fields of a header stand (RFC 791 section 3.1).
const VERSION_AT: usize = 0;

const TOTAL_LEN_AT: usize = 2;

const FRAGMENT_AT: usize = 6;

const PROTOCOL_AT: usize = 9;

const SOURCE_AT: usize = 12;

/// How many values the flag of more fragments and the fragment offset have together (RFC 791 section 3.1).
const FRAGMENT_VALUES: u16 = 1 << 14;

/// The protocol number of UDP (RFC 768).
const UDP: u8 = 17;

/// Octets of a UDP header (RFC 768).
const UDP_HEADER_LEN: usize = 8;

/// Where the destination port stands (RFC 768).
const UDP_TO_AT: usize = 2;

/// The ports of a datagram.
#[derive(Clone, Copy)]
pub(crate) struct UdpPorts {
    pub from: u16,
    pub to: u16,
}

/// Whether these octets begin with a readable IPv4 header, and all that it speaks of is there. O(1).
pub(crate) fn is_readable(packet: &[u8]) -> bool
    ensures value { result ≡ is_readable packet.now }
    ensures parts { IsTrue result → IsReadableIp packet.now }
{
    packet.len() >= HEADER_LEN_LEAST
        && packet[VERSION_AT] / 16 == IP_VERSION
        && header_len(packet) >= HEADER_LEN_LEAST
        && header_len(packet) <= total_len(packet)
        && total_len(packet) <= packet.len()
}

// The octets of the header.
fn header_len(packet: &[u8]) -> usize
    requires { 20 ≤ length packet.now }
    ensures { result ≡ header_len packet.now }
{
    4 * usize::from(packet[VERSION_AT] % 16)
}

// The octets of the packet.
fn total_len(packet: &[u8]) -> usize
    requires { 20 ≤ length packet.now }
    ensures { result ≡ total_len packet.now }
{
    usize::from(BigEndian::read_u16(&packet[TOTAL_LEN_AT..]))
}

/// The source address. O(1).
pub(crate) fn source_of(packet: &[u8]) -> u32
    requires { IsReadableIp packet.now }
    ensures { result ≡ source_of packet.now }
{
    BigEndian::read_u32(&packet[SOURCE_AT..])
}

// Whether the packet is a fragment.
fn is_fragment(packet: &[u8]) -> bool
    requires { IsReadableIp packet.now }
    ensures { result ≡ is_ip_fragment packet.now }
{
    BigEndian::read_u16(&packet[FRAGMENT_AT..]) % FRAGMENT_VALUES != 0
}

// What stands behind the header.
fn body_of(packet: &[u8]) -> &[u8]
    requires { IsReadableIp packet.now }
    ensures { result.now ≡ ip_body packet.now }
{
    &packet[header_len(packet)..total_len(packet)]
}

/// The ports of the unfragmented datagram in a packet: None exactly where it has none. O(1).
pub(crate) fn udp_ports(packet: &[u8]) -> Option<UdpPorts>
    requires { IsReadableIp packet.now }
    ensures { result ≡ udp_ports packet.now }
{
    let body = body_of(packet);
    if is_fragment(packet) || packet[PROTOCOL_AT] != UDP || body.len() < UDP_HEADER_LEN {
        return None;
    }
    Some(UdpPorts {
        from: BigEndian::read_u16(body),
        to: BigEndian::read_u16(&body[UDP_TO_AT..]),
    })
}

/// What the datagram carries, up to the end of the packet. O(1).
pub(crate) fn udp_payload(packet: &[u8]) -> &[u8]
    requires readable { IsReadableIp packet.now }
    requires udp { has_datagram packet.now ≡ true }
    ensures { result.now ≡ datagram_payload packet.now }
{
    &body_of(packet)[UDP_HEADER_LEN..]
}
