//! What messages tell of clients.

ghost use Rattle.std.specs.Prelude.{◌≡◌, true};
ghost use Rattle.v4_snoop.specs.Packets.{IsReadableIp, has_datagram, datagram_payload};
ghost use Rattle.v4_snoop.specs.DhcpMessages.{message_of};
ghost use Rattle.v4_snoop.specs.Tellings.{told_in, told_if, told_to_port, told_by_client, told_by_server, is_from_client, is_to_client, ends_if, granted, granted_for};

use crate::message::{Message, read_message};
use crate::packet::{UdpPorts, is_readable, udp_payload, udp_ports};

/// The port at which servers of DHCP listen (RFC 2131 section 4.1).
pub(crate) const SERVER_PORT: u16 = 67;

/// The port at which its clients listen (RFC 2131 section 4.1).
pub(crate) const CLIENT_PORT: u16 = 68;

/// A message from a client, and one to a client (RFC 2131 section 2).
const BOOTREQUEST: u8 = 1;

const BOOTREPLY: u8 = 2;

/// Octets of a hardware address of Ethernet.
const ETHERNET_HLEN: u8 = 6;

/// Types of messages (RFC 2132 section 9.6).
const DHCPREQUEST: u8 = 3;

const DHCPDECLINE: u8 = 4;

const DHCPACK: u8 = 5;

const DHCPNAK: u8 = 6;

const DHCPRELEASE: u8 = 7;

/// A lease that an acknowledgement grants.
#[derive(Clone, Copy)]
pub(crate) struct Granted {
    pub address: u32,
    /// 0xffff_ffff stands for infinity (RFC 2131 section 3.3).
    pub seconds: u32,
}

/// What a message tells.
#[derive(Clone, Copy)]
pub(crate) enum Told {
    Nothing,
    /// The client with this hardware address asks.
    Asks {
        xid: u32,
        mac: u64,
    },
    /// The lease on this address ends.
    Ends {
        address: u32,
    },
    /// A server refuses what the client with this hardware address asked.
    Refuses {
        xid: u32,
        mac: u64,
    },
    /// A server grants what it asked, where it asked for a lease.
    Grants {
        xid: u32,
        mac: u64,
        granted: Option<Granted>,
    },
}

/// What a packet tells that came in at a port whose sources are validated or not, and that is a host's or not. O(n) for a
/// message of DHCP, else O(1).
pub(crate) fn told_in(is_validating: bool, is_host: bool, packet: &[u8]) -> Told
    ensures { result ≡ told_in is_validating is_host packet.now }
{
    if !is_readable(packet) {
        return Told::Nothing;
    }
    match udp_ports(packet) {
        Some(ports) => told_if_heard(is_validating, is_host, ports, packet),
        None => Told::Nothing,
    }
}

// The same of a packet with a datagram between these ports: none but messages to servers or clients are read.
fn told_if_heard(is_validating: bool, is_host: bool, ports: UdpPorts, packet: &[u8]) -> Told
    requires readable { IsReadableIp packet.now }
    requires udp { has_datagram packet.now ≡ true }
    ensures { result ≡ told_if is_validating is_host (Some ports) (message_of (datagram_payload packet.now)) }
{
    if ports.to != SERVER_PORT && ports.to != CLIENT_PORT {
        return Told::Nothing;
    }
    match read_message(udp_payload(packet)) {
        Some(message) => told_at(is_validating, is_host, ports.to, &message),
        None => Told::Nothing,
    }
}

// What a message to this port of UDP tells.
fn told_at(is_validating: bool, is_host: bool, to: u16, message: &Message) -> Told
    ensures { result ≡ told_to_port is_validating is_host to message.now }
{
    if is_validating && to == SERVER_PORT {
        if is_from_client(message) {
            told_by_client(message)
        } else {
            Told::Nothing
        }
    } else if !is_host && to == CLIENT_PORT {
        if is_to_client(message) {
            told_by_server(message)
        } else {
            Told::Nothing
        }
    } else {
        Told::Nothing
    }
}

fn is_from_client(message: &Message) -> bool
    ensures { result ≡ is_from_client message.now }
{
    message.op == BOOTREQUEST && message.hlen == ETHERNET_HLEN
}

fn is_to_client(message: &Message) -> bool
    ensures { result ≡ is_to_client message.now }
{
    message.op == BOOTREPLY && message.hlen == ETHERNET_HLEN
}

fn told_by_client(message: &Message) -> Told
    ensures { result ≡ told_by_client message.now }
{
    match message.kind {
        DHCPREQUEST => Told::Asks {
            xid: message.xid,
            mac: message.chaddr,
        },
        DHCPRELEASE => Told::Ends {
            address: message.ciaddr,
        },
        DHCPDECLINE => ends_if(message.requested),
        _ => Told::Nothing,
    }
}

// The end of the lease on an address, where one is named.
fn ends_if(address: Option<u32>) -> Told
    ensures { result ≡ ends_if address }
{
    match address {
        Some(address) => Told::Ends { address },
        None => Told::Nothing,
    }
}

fn told_by_server(message: &Message) -> Told
    ensures { result ≡ told_by_server message.now }
{
    match message.kind {
        DHCPACK => Told::Grants {
            xid: message.xid,
            mac: message.chaddr,
            granted: lease_granted(message.yiaddr, message.seconds),
        },
        DHCPNAK => Told::Refuses {
            xid: message.xid,
            mac: message.chaddr,
        },
        _ => Told::Nothing,
    }
}

// The lease that is granted, where a time is named.
fn lease_granted(address: u32, seconds: Option<u32>) -> Option<Granted>
    ensures { result ≡ granted address seconds }
{
    match seconds {
        Some(seconds) => granted_for(address, seconds),
        None => None,
    }
}

// The lease of an address for a time, neither of them 0.
fn granted_for(address: u32, seconds: u32) -> Option<Granted>
    ensures { result ≡ granted_for address seconds }
{
    if address == 0 || seconds == 0 {
        None
    } else {
        Some(Granted { address, seconds })
    }
}
