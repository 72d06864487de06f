//! The lines of entries.

use arrayvec::ArrayVec;
use hist_store::{JournalLine, put_line, read_line};
use std::alloc::Global;

/// Prints the number, the entry and the octets that a line says, and whether the line is the one that is written of them;
/// or `none`, where it is no line of an entry.
pub fn print_entry(rt: &impl Print, alloc: Global, text: &str) -> anyhow::Result<()> {
    let mut octets = ArrayVec::new();
    let Some(read) = read_line(text.as_bytes(), &mut octets) else {
        println!(rt; "  none")?;
        return Ok(());
    };
    let (number, entry) = read;
    println!(rt; "  {number} {entry:?}")?;
    let digits = hex::encode(alloc, octets.as_slice())?;
    println!(rt; "  octets [{digits}]")?;
    let mut line = JournalLine::new();
    put_line(number, &entry, octets.as_slice(), &mut line);
    let same = line.as_slice() == text.as_bytes();
    println!(rt; "  written again: {same}")?;
    Ok(())
}
