//! Reads the lines of the journal that the first word names, and prints how many are those of entries, and how many octets
//! these have. Without a word it prints nothing.
#![tactic(auto)]

use arrayvec::ArrayVec;
use hist_store::read_line;
use std::{env, fs, io};

fn main(rt: HostRuntime) -> io::Result<()> {
    let Some(name) = env::args(&rt)?.nth(1) else {
        return Ok(());
    };
    let text = fs::read(&rt, name.as_str())?;
    let (entries, octets) = count(text.as_slice());
    println!(rt; "{entries} entries, {octets} octets")
}

// How many of the lines are those of entries, and how many octets these have.
fn count(text: &[u8]) -> (u64, u64) {
    let mut octets = ArrayVec::new();
    let mut entries: u64 = 0;
    let mut total: u64 = 0;
    for line in text.split(|c| *c == b'\n') {
        if read_line(line, &mut octets).is_some() {
            entries = entries.wrapping_add(1);
            total = total.wrapping_add(octets.len() as u64);
        }
    }
    (entries, total)
}
