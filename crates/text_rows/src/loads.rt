//! What a load is, octet for octet.

use crate::input::number_of;
use anyhow::bail;
use load_gen::load;
use sha2::{Digest, Sha256};
use std::alloc::Global;

/// Prints the SHA-256 digests of the captures of a load in the order of the ports: its seed, and its packets.
pub fn print_load(rt: &impl Print, alloc: Global, rest: &str) -> anyhow::Result<()> {
    let (seed, rest) = rest.split_once(' ').unwrap_or((rest, ""));
    let made = load(alloc, seed.parse::<u32>()?, rest.parse::<u32>()?)?;
    println!(rt; "")?;
    for capture in &made.captures {
        let digest = Sha256::digest(capture.as_slice());
        println!(rt; "  {}", hex::encode(alloc, &digest)?)?;
    }
    Ok(())
}
