//! What a reader of captures of several interfaces answers.

use crate::input::number_of;
use pcapng_io::{NgNext, NgReader};
use savi_ends::MemSource;
use std::alloc::Global;

/// How many answers are printed.
const ANSWERS: u32 = 4;

/// Prints the first answers to a reader of these octets: how many a read gives at most, and which read fails.
pub fn print_blocks(
    rt: &impl Print,
    alloc: Global,
    octets: &[u8],
    rest: &str,
) -> anyhow::Result<()> {
    let (most, rest) = number_of(rest)?;
    let (read, _) = number_of(rest)?;
    let fails = [read].to_vec(alloc)?;
    let mut source = MemSource::new(octets.to_vec(alloc)?, most.max(1) as usize, fails);
    let mut reader = NgReader::new();
    let mut buf = [0; 1518];
    for _ in 0..ANSWERS {
        print_answer(rt, reader.next(&mut source, &mut buf))?;
    }
    println!(rt; "")?;
    Ok(())
}

// Prints an answer.
fn print_answer(rt: &impl Print, answer: NgNext) -> anyhow::Result<()> {
    match answer {
        NgNext::Interface { link } => print!(rt; " [interface of {link}]")?,
        NgNext::Frame {
            interface,
            stamp,
            len,
        } => print!(rt; " [frame of {interface} at {stamp}, {len} octets]")?,
        NgNext::Long { interface } => print!(rt; " [long of {interface}]")?,
        NgNext::End => print!(rt; " [end]")?,
        NgNext::Malformed { at } => print!(rt; " [malformed at {at}]")?,
        NgNext::Failed => print!(rt; " [failed]")?,
    }
    Ok(())
}
