//! The octets of probes.

use crate::octets::{addr_of, mac_of, word_of};
use probe_write::probe;
use std::alloc::Global;

/// Prints the octets of a probe: its source MAC address, and its target.
pub fn print_probe(rt: &impl Print, alloc: Global, text: &str) -> anyhow::Result<()> {
    let (mac, target) = word_of(text);
    let octets = probe(mac_of(mac)?, addr_of(target)?);
    println!(rt; " {}", hex::encode(alloc, &octets)?)?;
    Ok(())
}
