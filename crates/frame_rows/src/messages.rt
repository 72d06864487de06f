//! Messages of neighbor discovery and of DHCPv6.

use crate::octets::{addr_of, word_of};
use anyhow::bail;
use dhcp6_read::{Dhcp, MESSAGE_LEN_MOST, dhcp};
use nd_read::{Nd, nd};
use savi_kinds::put_addr;
use std::alloc::Global;
use v6_chain::{ICMPV6, Ip};

/// The octets that each message of ICMPv6 has (RFC 4443 section 2.1).
const MESSAGE_OCTETS_LEAST: usize = 4;

/// The most octets that the length of a packet counts.
const MESSAGE_OCTETS_MOST: usize = 65_535;

/// Prints what a message of ICMPv6 says: the hop limit, the source and the destination of its packet.
pub fn print_message(rt: &impl Print, message: &[u8], rest: &str) -> anyhow::Result<()> {
    let (hop, rest) = word_of(rest);
    let (src, dst) = word_of(rest);
    let ip = Ip {
        src: addr_of(src)?,
        dst: addr_of(dst)?,
        next: ICMPV6,
        hop: hop.parse::<u8>()?,
        len: 0,
    };
    if message.len() < MESSAGE_OCTETS_LEAST || message.len() > MESSAGE_OCTETS_MOST {
        bail!("no message");
    }
    match nd(&ip, message) {
        Ok(nd) => print_nd(rt, nd)?,
        Err(fault) => print!(rt; " refused {fault:?}")?,
    }
    println!(rt; "")?;
    Ok(())
}

/// Prints what a message says for neighbor discovery.
pub fn print_nd(rt: &impl Print, nd: Nd) -> anyhow::Result<()> {
    match nd {
        Nd::Rs => print!(rt; " router solicitation")?,
        Nd::Ra => print!(rt; " router advertisement")?,
        Nd::Ns { target, dad } => print!(rt; " solicitation {} {dad}", put_addr(target))?,
        Nd::Na { target, flags } => {
            print!(rt; " advertisement {} {flags:02x}", put_addr(target))?
        }
        Nd::Redirect => print!(rt; " redirect")?,
        Nd::Other => print!(rt; " other")?,
    }
    Ok(())
}

/// Prints what a message of DHCPv6 says.
pub fn print_datagram(rt: &impl Print, alloc: Global, message: &[u8]) -> anyhow::Result<()> {
    if message.len() > MESSAGE_LEN_MOST {
        bail!("too long a message");
    }
    match dhcp(message) {
        Ok(read) => print_dhcp(rt, alloc, &read)?,
        Err(fault) => print!(rt; " refused {fault:?}")?,
    }
    println!(rt; "")?;
    Ok(())
}

/// Prints the fields of a message of DHCPv6: its type, its transaction id, the client's DUID, whether it has a rapid commit,
/// and its addresses with their valid lifetimes.
pub fn print_dhcp(rt: &impl Print, alloc: Global, read: &Dhcp) -> anyhow::Result<()> {
    print!(rt; " type {} {:06x}", read.kind, read.tid)?;
    match &read.duid {
        Some(duid) => print!(rt; " {}", hex::encode(alloc, duid.as_slice())?)?,
        None => print!(rt; " none")?,
    }
    print!(rt; " {}", read.rapid)?;
    for lease in read.leases.as_slice() {
        print!(rt; " [{} {}]", put_addr(lease.address), lease.valid)?;
    }
    Ok(())
}
