//! Packets: their fixed header, and the chain of headers behind it.

use anyhow::bail;
use savi_kinds::put_addr;
use std::alloc::Global;
use v6_chain::{Chain, Ip, chain, ip};

/// Prints the fixed header of a packet, or why it is none.
pub fn print_ip(rt: &impl Print, packet: &[u8]) -> anyhow::Result<()> {
    match ip(packet) {
        Ok(header) => {
            print_header(rt, &header)?;
            println!(rt; "")?;
        }
        Err(fault) => println!(rt; " {fault:?}")?,
    }
    Ok(())
}

/// Prints the fields of a fixed header: source, destination, next header, hop limit and length.
pub fn print_header(rt: &impl Print, ip: &Ip) -> anyhow::Result<()> {
    print!(rt; " {} {}", put_addr(ip.src), put_addr(ip.dst))?;
    print!(rt; " {} {} {}", ip.next, ip.hop, ip.len)?;
    Ok(())
}

/// Prints what the chain of a packet comes to.
pub fn print_chain(rt: &impl Print, packet: &[u8]) -> anyhow::Result<()> {
    let Ok(header) = ip(packet) else {
        bail!("no packet");
    };
    match chain(&header, packet) {
        Chain::Bad(fault) => println!(rt; " bad {fault:?}")?,
        Chain::Hidden => println!(rt; " hidden")?,
        Chain::Unknown(value) => println!(rt; " unknown {value}")?,
        Chain::Later => println!(rt; " later")?,
        Chain::Upper {
            proto,
            at,
            fragmented,
        } => println!(rt; " upper {proto} {at} {fragmented}")?,
    }
    Ok(())
}

/// Prints the same of a packet from :: to :: with hop limit 64, with this next header and this body.
pub fn print_body(rt: &impl Print, alloc: Global, body: &[u8], next: &str) -> anyhow::Result<()> {
    let len = body.len();
    let digits = hex::encode(alloc, body)?;
    let next = next.parse::<u8>()?;
    let packet = format!(in alloc; "60000000{len:04x}{next:02x}40{:064x}{digits}", 0)?;
    let octets = hex::decode(alloc, packet.as_str())?;
    print_chain(rt, octets.as_slice())
}
