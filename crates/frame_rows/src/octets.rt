//! The octets of a frame, a packet or a message, made of named parts.

use anyhow::bail;
use savi_kinds::{Addr, Mac, read_addr, read_mac};
use std::alloc::Global;

/// Parts by their names, and the octets that are read.
#[derive(Drop)]
pub struct Octets {
    parts: Vec<(String, Vec<u8>)>,
    pub now: Vec<u8>,
}

impl Octets {
    /// No part has a name, and there are no octets.
    pub fn new(alloc: Global) -> Octets {
        Octets {
            parts: Vec::new(alloc),
            now: Vec::new(alloc),
        }
    }

    /// Gives a part its name, which stands before its digits.
    pub fn name(&mut self, alloc: Global, rest: &str) -> anyhow::Result<()> {
        let (name, digits) = word_of(rest);
        let octets = hex::decode(alloc, digits)?;
        self.parts.push((String::from_str(alloc, name)?, octets))?;
        Ok(())
    }

    /// The octets are those of these parts.
    pub fn set(&mut self, alloc: Global, parts: &str) -> anyhow::Result<()> {
        let mut octets = Vec::new(alloc);
        for part in parts.split_whitespace() {
            self.add_part(alloc, part, &mut octets)?;
        }
        self.now = octets;
        Ok(())
    }

    // Adds the octets of a part: of its name, or of digits, which may come several times.
    fn add_part(&self, alloc: Global, part: &str, octets: &mut Vec<u8>) -> anyhow::Result<()> {
        for (known, named) in &self.parts {
            if known.as_str() == part {
                octets.extend_from_slice(named.as_slice())?;
                return Ok(());
            }
        }
        let (digits, count) = part.split_once('*').unwrap_or((part, "1"));
        let piece = hex::decode(alloc, digits)?;
        for _ in 0..count.parse::<u32>()? {
            octets.extend_from_slice(piece.as_slice())?;
        }
        Ok(())
    }

    /// The octet at a place becomes another one, or its last bit turns where nothing stands behind the place.
    pub fn change(&mut self, alloc: Global, rest: &str) -> anyhow::Result<()> {
        let (place, digits) = word_of(rest);
        let octets = hex::decode(alloc, digits)?;
        let Some(octet) = self.now.get_mut(place.parse::<usize>()?) else {
            bail!("no such place: {rest}");
        };
        *octet = match octets.first() {
            Some(other) => *other,
            None => *octet ^ 1,
        };
        Ok(())
    }

    /// The octets end before a place.
    pub fn cut(&mut self, place: &str) -> anyhow::Result<()> {
        self.now.truncate(place.parse::<usize>()?);
        Ok(())
    }
}

/// The word at the front of a text, and what stands behind it.
pub fn word_of(text: &str) -> (&str, &str) {
    text.split_once(' ').unwrap_or((text, ""))
}

/// The address that a text is.
pub fn addr_of(text: &str) -> anyhow::Result<Addr> {
    match read_addr(text.as_bytes()) {
        Some(addr) => Ok(addr),
        None => bail!("no address: {text}"),
    }
}

/// The MAC address that a text is.
pub fn mac_of(text: &str) -> anyhow::Result<Mac> {
    match read_mac(text.as_bytes()) {
        Some(mac) => Ok(mac),
        None => bail!("no MAC address: {text}"),
    }
}
