//! ARP for IPv4.

ghost use Rattle.std.specs.Prelude.{◌≡◌, ◌≤◌, length, IsTrue};
ghost use Rattle.v4_snoop.specs.ArpPackets.{is_arp_packet, is_for_ipv4, asks_or_replies, sender_mac, sender_address};

use byteorder::{BigEndian, ByteOrder};

/// Octets of an ARP packet for IPv4 over Ethernet (RFC 826).
const ARP_LEN: usize = 28;

/// Where the fields of an ARP packet stand (RFC 826).
const PROTOCOL_AT: usize = 2;

const HARDWARE_LEN_AT: usize = 4;

const PROTOCOL_LEN_AT: usize = 5;

const OPERATION_AT: usize = 6;

const SENDER_MAC_AT: usize = 8;

const SENDER_ADDRESS_AT: usize = 14;

/// The address space of Ethernet (RFC 826).
const ETHERNET: u16 = 1;

/// The EtherType of IPv4, which is also its address space in ARP (RFC 826, RFC 894).
pub(crate) const IPV4_TYPE: u16 = 0x0800;

/// Octets of an address of Ethernet, and of IPv4.
const MAC_LEN: u8 = 6;

const ADDRESS_LEN: u8 = 4;

/// The operations (RFC 826).
const REQUEST: u16 = 1;

const REPLY: u16 = 2;

/// Whether these octets begin with a whole ARP request or reply for IPv4. O(1).
pub(crate) fn is_arp_packet(arp: &[u8]) -> bool
    ensures value { result ≡ is_arp_packet arp.now }
    ensures long { IsTrue result → 28 ≤ length arp.now }
{
    arp.len() >= ARP_LEN && is_for_ipv4(arp) && asks_or_replies(arp)
}

// Whether it is for addresses of Ethernet and IPv4.
fn is_for_ipv4(arp: &[u8]) -> bool
    requires { 28 ≤ length arp.now }
    ensures { result ≡ is_for_ipv4 arp.now }
{
    BigEndian::read_u16(arp) == ETHERNET
        && BigEndian::read_u16(&arp[PROTOCOL_AT..]) == IPV4_TYPE
        && arp[HARDWARE_LEN_AT] == MAC_LEN
        && arp[PROTOCOL_LEN_AT] == ADDRESS_LEN
}

// Whether it is a request or a reply.
fn asks_or_replies(arp: &[u8]) -> bool
    requires { 28 ≤ length arp.now }
    ensures { result ≡ asks_or_replies arp.now }
{
    let operation = BigEndian::read_u16(&arp[OPERATION_AT..]);
    operation == REQUEST || operation == REPLY
}

/// The hardware address of the sender. O(1).
pub(crate) fn sender_mac(arp: &[u8]) -> u64
    requires { 28 ≤ length arp.now }
    ensures { result ≡ sender_mac arp.now }
{
    BigEndian::read_u48(&arp[SENDER_MAC_AT..])
}

/// The IPv4 address of the sender. O(1).
pub(crate) fn sender_address(arp: &[u8]) -> u32
    requires { 28 ≤ length arp.now }
    ensures { result ≡ sender_address arp.now }
{
    BigEndian::read_u32(&arp[SENDER_ADDRESS_AT..])
}
