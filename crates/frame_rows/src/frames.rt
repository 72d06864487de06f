//! Frames: their header, their tag and their class, and the rule that stops them.

use crate::messages::{print_dhcp, print_nd};
use crate::octets::word_of;
use crate::packets::print_header;
use anyhow::bail;
use eth_frame::{Eth, EthFault, Tag, read};
use frame_class::{Class, Read, seen};
use ra_guard::guard;
use savi_kinds::{FRAME_OCTETS_MOST, Role, put_mac};
use std::alloc::Global;

/// Prints the header of a frame, or why it is none.
pub fn print_eth(rt: &impl Print, frame: &[u8]) -> anyhow::Result<()> {
    match read(frame) {
        Ok(eth) => {
            print_fields(rt, eth)?;
            println!(rt; "")?;
        }
        Err(EthFault::Runt) => println!(rt; " runt")?,
        Err(EthFault::Long) => println!(rt; " long")?,
    }
    Ok(())
}

// Prints the fields of a frame's header: destination, source and EtherType.
fn print_fields(rt: &impl Print, eth: Eth) -> anyhow::Result<()> {
    print!(rt;
        " {} {} {:04x}",
        put_mac(eth.dst),
        put_mac(eth.src),
        eth.kind
    )?;
    Ok(())
}

/// Prints the VLAN of a frame's tag, and the class of its inner frame.
pub fn print_class(rt: &impl Print, alloc: Global, frame: &[u8]) -> anyhow::Result<()> {
    if frame.len() > FRAME_OCTETS_MOST {
        bail!("longer than a frame");
    }
    let seen = seen(frame);
    match seen.tag {
        Tag::None => {}
        Tag::Vid(vid) => print!(rt; " VLAN {vid}")?,
        Tag::Bad => print!(rt; " bad tag")?,
    }
    if let Some(eth) = seen.class.eth() {
        print_fields(rt, eth)?;
    }
    match &seen.class {
        Class::Runt => print!(rt; " runt")?,
        Class::Tagged { .. } => print!(rt; " tagged")?,
        Class::Other { .. } => print!(rt; " other")?,
        Class::BadIp { .. } => print!(rt; " bad IPv6")?,
        Class::Ip6 { ip, read, .. } => {
            print_header(rt, ip)?;
            print_read(rt, alloc, read)?;
        }
    }
    println!(rt; "")?;
    Ok(())
}

// Prints what a packet shows behind its fixed header.
fn print_read(rt: &impl Print, alloc: Global, read: &Read) -> anyhow::Result<()> {
    match read {
        Read::Bad => print!(rt; ", bad")?,
        Read::Hidden => print!(rt; ", hidden")?,
        Read::Unknown => print!(rt; ", unknown")?,
        Read::Later => print!(rt; ", later")?,
        Read::Icmp {
            kind,
            fragmented,
            nd,
        } => {
            print!(rt; ", ICMPv6 {kind} {fragmented}")?;
            match nd {
                Some(nd) => print_nd(rt, *nd)?,
                None => print!(rt; " none")?,
            }
        }
        Read::Udp {
            to,
            first,
            fragmented,
            dhcp,
        } => {
            print!(rt; ", UDP {to} {first:?} {fragmented}")?;
            match dhcp {
                Some(dhcp) => print_dhcp(rt, alloc, dhcp)?,
                None => print!(rt; " none")?,
            }
        }
        Read::Plain => print!(rt; ", plain")?,
    }
    Ok(())
}

/// Prints the rule that stops a frame, by its inner frame: the role of its port, and whether a next header that isn't known
/// is dropped.
pub fn print_rule(rt: &impl Print, frame: &[u8], rest: &str) -> anyhow::Result<()> {
    if frame.len() > FRAME_OCTETS_MOST {
        bail!("longer than a frame");
    }
    let (role, unknown) = word_of(rest);
    let role = match role {
        "host" => Role::Host,
        "server" => Role::Server,
        "trusted" => Role::Trusted,
        _ => bail!("no role: {role}"),
    };
    match guard(role, unknown == "drop", &seen(frame).class) {
        Some(rule) => println!(rt; " {rule:?}")?,
        None => println!(rt; " none")?,
    }
    Ok(())
}
