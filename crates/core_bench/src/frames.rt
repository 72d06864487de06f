//! Frames of stations, and the addresses from which they come.

ghost use Rattle.std.specs.Prelude.{◌≡◌, ◌≤◌, length};
ghost use Rattle.frame_class.specs.Seen.{seen_of};

use crate::load::Load;
use frame_class::{Seen, a_frame_is_seen_once, seen};
use probe_write::probe;
use savi_kinds::{Addr, Mac, PORTS_MOST, Port, Prefix};
use std::alloc::{AllocError, Global};

/// So many packets are made, and so many requests of a flood.
pub const PACKETS: u64 = 1_024;

/// A port may have so many requests of DHCPv6 open.
pub const REQUESTS_A_PORT: u64 = 16;

/// The destination of all packets.
const DESTINATION: Addr = Addr(Prefix::LINK_LOCAL.net.0 + 0xfe);

/// EtherType of IPv6; version 6, traffic class 0, flow label 0; payload length 0; next header 59, no upper header; hop
/// limit 64 (RFC 2464 section 3, RFC 8200 section 3).
const BEFORE_SOURCE: [u8; 10] = [0x86, 0xdd, 0x60, 0, 0, 0, 0, 0, 59, 64];

/// The MAC address of the group of DHCPv6 servers and relays (RFC 2464 section 7).
const SERVERS_MAC: [u8; 6] = [0x33, 0x33, 0, 1, 0, 2];

/// As before a source, but with a payload of 26 octets of UDP.
const BEFORE_CLIENT: [u8; 10] = [0x86, 0xdd, 0x60, 0, 0, 0, 0, 26, 17, 64];

/// The address of this group, ff02::1:2 (RFC 8415 section 7.1).
const SERVERS: Addr = Addr(0xff02_0000_0000_0000_0000_0000_0001_0002);

/// From port 546 to port 547, 26 octets, no checksum; a request (RFC 768, RFC 8415 sections 7.2 and 7.3).
const BEFORE_ID: [u8; 9] = [0x02, 0x22, 0x02, 0x23, 0, 26, 0, 0, 3];

/// A client identifier of 10 octets, which ends with a MAC address (RFC 8415 sections 11.4 and 21.2).
const BEFORE_CLIENT_MAC: [u8; 8] = [0, 1, 0, 10, 0, 3, 0, 1];

/// A frame, what is seen of it, and the port at which it comes in.
#[derive(Drop)]
pub struct Frame {
    pub port: Port,
    pub octets: Vec<u8>,
    pub seen: Seen,
    ghost short: { length octets.items ≤ 1518 },
    ghost read: { seen ≡ seen_of octets.items },
}

// Reads what is seen of these octets.
fn read_frame(port: Port, octets: Vec<u8>) -> Frame
    requires { length octets.items ≤ 1518 }
{
    let seen = seen(octets.as_slice());
    a_frame_is_seen_once();
    Frame { port, octets, seen }
}

// The n-th number of a row in no order (the finalizer of MurmurHash3).
fn stirred(n: u64) -> u64 {
    let first = (n ^ (n >> 33)).wrapping_mul(0xff51_afd7_ed55_8ccd);
    let second = (first ^ (first >> 33)).wrapping_mul(0xc4ce_b9fe_1a85_ec53);
    second ^ (second >> 33)
}

// The n-th address.
fn address(n: u64) -> Addr {
    Addr(Prefix::LINK_LOCAL.net.0 + u128::from(stirred(n)))
}

/// The n-th port of all sixteen, and round again.
pub fn port(n: u64) -> Port {
    match Port::new((n % PORTS_MOST as u64) as u8 + 1) {
        Some(port) => port,
        None => unreachable!(),
    }
}

/// The port at which the n-th address is bound: those of so many hosts in turn.
pub fn port_of(n: u64, hosts: u8) -> Port {
    port(n % u64::from(hosts).max(1))
}

// The n-th station of a port.
fn station(port: Port, n: u64) -> Mac {
    let [_, _, _, _, _, _, high, low] = n.to_be_bytes();
    Mac([2, 0, 0, port.get(), high, low])
}

/// A packet of 54 octets of the n-th address, from the first of these stations of ports to the second.
pub fn packet(
    alloc: Global,
    n: u64,
    from: (Port, u64),
    to: (Port, u64),
) -> Result<Frame, AllocError> {
    let mut octets = Vec::new(alloc);
    octets.extend_from_slice(&station(to.0, to.1).0)?;
    octets.extend_from_slice(&station(from.0, from.1).0)?;
    octets.extend_from_slice(&BEFORE_SOURCE)?;
    octets.extend_from_slice(&address(n).0.to_be_bytes())?;
    octets.extend_from_slice(&DESTINATION.0.to_be_bytes())?;
    Ok(read_frame(from.0, octets))
}

// Another port of the same VLAN, one of them for each n.
fn port_beside(at: Port, n: u64, vlans: u8) -> Port {
    let apart = u64::from(vlans).max(1);
    let others = (PORTS_MOST as u64 / apart).saturating_sub(1).max(1);
    let first = u64::from(at.get()).wrapping_sub(1).wrapping_add(apart);
    port(first.wrapping_add(apart.wrapping_mul(n % others)))
}

/// Packets of `count` addresses from the first one on, in no order, each from a station of the port where its address is
/// bound to a station of another port.
pub fn packets(
    alloc: Global,
    load: Load,
    first: u64,
    count: u64,
) -> Result<Vec<Frame>, AllocError> {
    let stations = load.stations_a_port.max(1);
    let mut frames = Vec::new(alloc);
    for k in 0..PACKETS {
        let n = first.wrapping_add(stirred(k) % count.max(1));
        let at = port_of(n, load.hosts);
        let other = port_beside(at, stirred(!k), load.vlans);
        let from = (stirred(k) >> 32) % stations;
        let to = (stirred(!k) >> 32) % stations;
        frames.push(packet(alloc, n, (at, from), (other, to))?)?;
    }
    Ok(frames)
}

/// Solicitations for duplicate address detection, 78 octets, of `count` addresses from the first one on, at the ports where
/// these are bound.
pub fn claims(alloc: Global, load: Load, first: u64, count: u64) -> Result<Vec<Frame>, AllocError> {
    let mut frames = Vec::new(alloc);
    for k in 0..count {
        let n = first.wrapping_add(k);
        let at = port_of(n, load.hosts);
        let octets = probe(station(at, 0), address(n)).to_vec(alloc)?;
        frames.push(read_frame(at, octets))?;
    }
    Ok(frames)
}

/// The n-th request of DHCPv6, 80 octets, as far as a switch reads it: from the address that is bound first at the port.
/// Sixteen come from each of so many ports in turn.
pub fn request(alloc: Global, n: u64, ports: u64) -> Result<Frame, AllocError> {
    let place = n / REQUESTS_A_PORT % ports.max(1);
    let at = port(place);
    let [_, _, _, _, _, high, middle, low] = n.to_be_bytes();
    let mut octets = Vec::new(alloc);
    octets.extend_from_slice(&SERVERS_MAC)?;
    octets.extend_from_slice(&station(at, 0).0)?;
    octets.extend_from_slice(&BEFORE_CLIENT)?;
    octets.extend_from_slice(&address(place).0.to_be_bytes())?;
    octets.extend_from_slice(&SERVERS.0.to_be_bytes())?;
    octets.extend_from_slice(&BEFORE_ID)?;
    octets.extend_from_slice(&[high, middle, low])?;
    octets.extend_from_slice(&BEFORE_CLIENT_MAC)?;
    octets.extend_from_slice(&station(at, 0).0)?;
    Ok(read_frame(at, octets))
}

/// `count` requests from the first one on, from so many ports.
pub fn requests(
    alloc: Global,
    first: u64,
    count: u64,
    ports: u64,
) -> Result<Vec<Frame>, AllocError> {
    let mut frames = Vec::new(alloc);
    for k in 0..count {
        frames.push(request(alloc, first.wrapping_add(k), ports)?)?;
    }
    Ok(frames)
}
