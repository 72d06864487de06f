// The lines for messages of DHCPv6, as the class of their inner frame has them.

use crate::capture::frames_of;
use crate::discovery::text;
use dhcp6_read::Dhcp;
use eth_frame::Tag;
use frame_class::{Class, Read, seen};
use savi_kinds::FRAME_OCTETS_MOST;
use std::alloc::{AllocError, Global};
use std::io;
use std::rt::Files;

/// Code of rapid commit (RFC 8415 section 21.14).
const RAPID_COMMIT: &str = "14";

/// Prints a line for each frame of a capture.
pub fn print_messages<R: Files + AllocGlobal + Print>(rt: &R, name: &str) -> io::Result<()> {
    let frames = frames_of(rt, name)?;
    for (number, frame) in (1..).zip(&frames) {
        let line = line(rt.alloc(), number, &frame.octets)?;
        println!(rt; "{line}")?;
    }
    Ok(())
}

/// The line for a frame, by the message of DHCPv6 that the class of its inner frame has. Where the frame has a tag, its VLAN
/// stands behind the number.
fn line(alloc: Global, number: u64, frame: &[u8]) -> Result<String, AllocError> {
    if frame.len() > FRAME_OCTETS_MOST {
        return format!(in alloc; "{number}\tlong");
    }
    let seen = seen(frame);
    let head = match seen.tag {
        Tag::None => format!(in alloc; "{number}")?,
        Tag::Vid(vid) => format!(in alloc; "{number}\t{vid}")?,
        Tag::Bad => return format!(in alloc; "{number}\tbad tag"),
    };
    let Class::Ip6 {
        read: Read::Udp {
            dhcp: Some(message),
            ..
        },
        ..
    } = &seen.class
    else {
        return format!(in alloc; "{head}\tno message");
    };
    message_line(alloc, &head, message)
}

/// The line for a message behind its head: type, transaction id, client's DUID, addresses, valid lifetimes, and 14 where it
/// has a rapid commit.
fn message_line(alloc: Global, head: &str, read: &Dhcp) -> Result<String, AllocError> {
    let duid = match &read.duid {
        Some(duid) => hex::encode(alloc, duid.as_slice())?,
        None => String::new(alloc),
    };
    let mut addresses = String::new(alloc);
    let mut lifetimes = String::new(alloc);
    let mut separator = "";
    for lease in read.leases.iter() {
        addresses.push_str(&format!(in alloc; "{separator}{}", text(lease.address))?)?;
        lifetimes.push_str(&format!(in alloc; "{separator}{}", lease.valid)?)?;
        separator = ",";
    }
    let rapid = if read.rapid { RAPID_COMMIT } else { "" };
    let (kind, tid) = (read.kind, read.tid);
    format!(in alloc; "{head}\t{kind}\t0x{tid:06x}\t{duid}\t{addresses}\t{lifetimes}\t{rapid}")
}
