// The lines for messages of neighbor discovery.

ghost use Rattle.std.specs.Prelude.{◌≤◌, length};

use crate::capture::frames_of;
use nd_read::{
    NEIGHBOR_ADVERTISEMENT, NEIGHBOR_SOLICITATION, Nd, REDIRECT, ROUTER_ADVERTISEMENT,
    ROUTER_SOLICITATION, nd,
};
use savi_kinds::Addr;
use std::alloc::{AllocError, Global};
use std::io;
use std::net::Ipv6Addr;
use std::rt::Files;
use v6_chain::{Chain, HEADER_LEN, ICMPV6, Ip, chain, ip};

/// The EtherType of IPv6 (RFC 2464 section 3).
const ETHERTYPE_IPV6: u16 = 0x86dd;
/// Octets of an Ethernet header.
const ETHERNET_LEN: usize = 14;

/// Prints a line for each frame of a capture.
pub fn print_messages<R: Files + AllocGlobal + Print>(rt: &R, name: &str) -> io::Result<()> {
    let frames = frames_of(rt, name)?;
    for (number, frame) in (1..).zip(&frames) {
        let line = line(rt.alloc(), number, &frame.octets)?;
        println!(rt; "{line}")?;
    }
    Ok(())
}

/// The line for a frame, or why there is no message of neighbor discovery in it.
fn line(alloc: Global, number: u64, frame: &[u8]) -> Result<String, AllocError> {
    let packet = match eth_frame::read(frame) {
        Ok(eth) if eth.kind == ETHERTYPE_IPV6 => &frame[ETHERNET_LEN..],
        Ok(eth) => return format!(in alloc; "{number}\tEtherType {:04x}", eth.kind),
        Err(fault) => return format!(in alloc; "{number}\t{fault:?}"),
    };
    let header = match ip(packet) {
        Ok(header) => header,
        Err(fault) => return format!(in alloc; "{number}\t{fault:?}"),
    };
    let chain = chain(&header, packet);
    let Chain::Upper {
        proto: ICMPV6,
        at,
        fragmented: false,
    } = chain
    else {
        return format!(in alloc; "{number}\t{chain:?}");
    };
    let start = HEADER_LEN + usize::from(at);
    let end = HEADER_LEN + usize::from(header.len);
    match packet.get(start..end) {
        Some(message) if message.len() >= 4 && message.len() <= 65_535 => {
            message_line(alloc, number, &header, message)
        }
        _ => format!(in alloc; "{number}\tno message"),
    }
}

/// The line for a message: number, type, addresses and target.
fn message_line(
    alloc: Global,
    number: u64,
    header: &Ip,
    message: &[u8],
) -> Result<String, AllocError>
    requires least { 4 ≤ length message.now }
    requires most { length message.now ≤ 65535 }
{
    let (kind, solicited, advertised) = match nd(header, message) {
        Ok(Nd::Rs) => (ROUTER_SOLICITATION, None, None),
        Ok(Nd::Ra) => (ROUTER_ADVERTISEMENT, None, None),
        Ok(Nd::Ns { target, .. }) => (NEIGHBOR_SOLICITATION, Some(target), None),
        Ok(Nd::Na { target, .. }) => (NEIGHBOR_ADVERTISEMENT, None, Some(target)),
        Ok(Nd::Redirect) => (REDIRECT, None, None),
        Ok(Nd::Other) => return format!(in alloc; "{number}\tother type"),
        Err(fault) => return format!(in alloc; "{number}\t{fault:?}"),
    };
    let src = text(header.src);
    let dst = text(header.dst);
    let solicited = target_text(alloc, solicited)?;
    let advertised = target_text(alloc, advertised)?;
    format!(in alloc; "{number}\t{kind}\t{src}\t{dst}\t{solicited}\t{advertised}")
}

/// A target's text, which is empty where there is none.
fn target_text(alloc: Global, target: Option<Addr>) -> Result<String, AllocError> {
    match target {
        Some(target) => format!(in alloc; "{}", text(target)),
        None => Ok(String::new(alloc)),
    }
}

/// The address, which prints as RFC 5952 says.
pub fn text(address: Addr) -> Ipv6Addr {
    Ipv6Addr::from_bits(address.0)
}
