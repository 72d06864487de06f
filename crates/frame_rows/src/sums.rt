//! Checksums of messages.

use crate::octets::{addr_of, word_of};
use anyhow::bail;
use savi_kinds::Addr;
use std::alloc::Global;
use v6_sum::{fill_sum, sum_of, sum_ok};

/// The most octets of a message.
const OCTETS_MOST: usize = 65_535;

// A message's addresses, its next-header value, and the place of its checksum.
#[derive(Clone, Copy)]
struct Place {
    src: Addr,
    dst: Addr,
    next: u8,
    at: usize,
}

impl Place {
    // The place that a text says.
    fn new(text: &str) -> anyhow::Result<Place> {
        let (src, rest) = word_of(text);
        let (dst, rest) = word_of(rest);
        let (next, at) = word_of(rest);
        Ok(Place {
            src: addr_of(src)?,
            dst: addr_of(dst)?,
            next: next.parse::<u8>()?,
            at: at.parse::<usize>()?,
        })
    }

    // Fills the checksum in.
    fn fill(self, message: &mut Vec<u8>) -> anyhow::Result<()> {
        let len = message.len();
        if len > OCTETS_MOST || self.at % 2 != 0 || len < 2 || self.at > len - 2 {
            bail!("no place of a checksum");
        }
        fill_sum(
            self.src,
            self.dst,
            self.next,
            message.as_mut_slice(),
            self.at,
        );
        Ok(())
    }
}

/// Fills a message's checksum in: its source and destination, its next-header value, and the place of the field.
pub fn fill(message: &mut Vec<u8>, text: &str) -> anyhow::Result<()> {
    Place::new(text)?.fill(message)
}

/// Prints the checksum of a message, which has zeros in the field; then its octets with it, and whether it is right.
pub fn print_sum(
    rt: &impl Print,
    alloc: Global,
    message: &mut Vec<u8>,
    text: &str,
) -> anyhow::Result<()> {
    let place = Place::new(text)?;
    if message.len() > OCTETS_MOST {
        bail!("too long a message");
    }
    let sum = sum_of(place.src, place.dst, place.next, message.as_slice());
    place.fill(message)?;
    let digits = hex::encode(alloc, message.as_slice())?;
    print!(rt; " {sum:04x} {digits}")?;
    print_right(rt, message.as_slice(), text)
}

/// Prints whether the checksum of a message is right.
pub fn print_right(rt: &impl Print, message: &[u8], text: &str) -> anyhow::Result<()> {
    let place = Place::new(text)?;
    if message.len() > OCTETS_MOST {
        bail!("too long a message");
    }
    let is_right = sum_ok(place.src, place.dst, place.next, message);
    println!(rt; " {is_right}")?;
    Ok(())
}
