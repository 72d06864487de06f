//! What words of a line mean.

use anyhow::bail;
use savi_kinds::Port;
use std::alloc::{AllocError, Global};

/// A text as it is meant, in which `\n`, `\t` and `\s` are a line feed, a tab and a space.
pub fn text_of(alloc: Global, written: &str) -> Result<String, AllocError> {
    let text = written.replace(alloc, "\\n", "\n")?;
    let text = text.replace(alloc, "\\t", "\t")?;
    text.replace(alloc, "\\s", " ")
}

/// The number at the front of a text, and what stands behind it.
pub fn number_of(text: &str) -> anyhow::Result<(u64, &str)> {
    let (digits, rest) = text.split_once(' ').unwrap_or((text, ""));
    Ok((digits.parse::<u64>()?, rest))
}

/// The port of this number.
pub fn port_of(number: u64) -> anyhow::Result<Port> {
    match Port::new(number.min(255) as u8) {
        Some(port) => Ok(port),
        None => bail!("no port: {number}"),
    }
}
