//! The input of readers, made of named parts.

use anyhow::bail;
use savi_kinds::Port;
use std::alloc::{AllocError, Global};

/// Parts by their names, and the octets of the input.
#[derive(Drop)]
pub struct Input {
    parts: Vec<(String, Vec<u8>)>,
    octets: Vec<u8>,
}

impl Input {
    /// No part has a name, and the input has no octets.
    pub fn new(alloc: Global) -> Input {
        Input {
            parts: Vec::new(alloc),
            octets: Vec::new(alloc),
        }
    }

    /// Gives a part its name, which stands before its digits.
    pub fn name(&mut self, alloc: Global, rest: &str) -> anyhow::Result<()> {
        let Some((name, digits)) = rest.split_once(' ') else {
            bail!("no name and digits: {rest}");
        };
        let octets = hex::decode(alloc, digits)?;
        self.parts.push((String::from_str(alloc, name)?, octets))?;
        Ok(())
    }

    /// The input is a text.
    pub fn set_text(&mut self, alloc: Global, written: &str) -> Result<(), AllocError> {
        let text = text_of(alloc, written)?;
        self.octets = text.as_bytes().to_vec(alloc)?;
        Ok(())
    }

    /// The input is these parts.
    pub fn set(&mut self, alloc: Global, parts: &str) -> anyhow::Result<()> {
        self.octets = Vec::new(alloc);
        self.add(alloc, parts)
    }

    /// The input has these parts behind what it was.
    pub fn add(&mut self, alloc: Global, parts: &str) -> anyhow::Result<()> {
        for part in parts.split_whitespace() {
            let octets = self.part(alloc, part)?;
            self.octets.extend_from_slice(octets.as_slice())?;
        }
        Ok(())
    }

    /// The octets of the input.
    pub fn octets(&self) -> &[u8] {
        self.octets.as_slice()
    }

    // The octets of a part: its name, or digits that come so many times.
    fn part(&self, alloc: Global, part: &str) -> anyhow::Result<Vec<u8>> {
        if let Some((digits, count)) = part.split_once('*') {
            return repeated(alloc, digits, count);
        }
        for (known, octets) in &self.parts {
            if known.as_str() == part {
                return Ok(octets.clone()?);
            }
        }
        bail!("no part: {part}")
    }
}

// Octets that come so many times.
fn repeated(alloc: Global, digits: &str, count: &str) -> anyhow::Result<Vec<u8>> {
    let piece = hex::decode(alloc, digits)?;
    let mut octets = Vec::new(alloc);
    for _ in 0..count.parse::<u32>()? {
        octets.extend_from_slice(piece.as_slice())?;
    }
    Ok(octets)
}

/// A text as it is meant, in which `\n`, `\t` and `\s` are a line feed, a tab and a space.
pub fn text_of(alloc: Global, written: &str) -> Result<String, AllocError> {
    let text = written.replace(alloc, "\\n", "\n")?;
    let text = text.replace(alloc, "\\t", "\t")?;
    text.replace(alloc, "\\s", " ")
}

/// The number at the front of a text, and what stands behind it.
pub fn number_of(text: &str) -> anyhow::Result<(u64, &str)> {
    let (digits, rest) = text.split_once(' ').unwrap_or((text, ""));
    Ok((digits.parse::<u64>()?, rest))
}

/// The port of this number.
pub fn port_of(number: u64) -> anyhow::Result<Port> {
    match Port::new(number.min(255) as u8) {
        Some(port) => Ok(port),
        None => bail!("no port: {number}"),
    }
}
