//! Lines of control.

use crate::input::number_of;
use cli_lang::{LineGot, Lines};
use savi_ends::{MemClock, MemSource};
use std::alloc::Global;

/// How many answers of a reader are printed.
const ANSWERS: u32 = 6;

/// Prints the first answers to a reader of control lines over these octets: how many a read gives at most, and which read
/// fails. The clock of live lines reads 10, 20 and 30 ms.
pub fn print_lines(
    rt: &impl Print,
    alloc: Global,
    octets: &[u8],
    live: bool,
    rest: &str,
) -> anyhow::Result<()> {
    let (most, rest) = number_of(rest)?;
    let (read, _) = number_of(rest)?;
    let fails = [read].to_vec(alloc)?;
    let mut source = MemSource::new(octets.to_vec(alloc)?, most.max(1) as usize, fails);
    let mut clock = MemClock::new([10, 20, 30].to_vec(alloc)?);
    let mut reader = Lines::new();
    let mut buf = [0; 120];
    for _ in 0..ANSWERS {
        let got = reader.next(&mut source, &mut clock, live, &mut buf);
        print_line(rt, got, &buf)?;
    }
    println!(rt; "")?;
    Ok(())
}

// Prints an answer: of a line its stamp, its length and its command.
fn print_line(rt: &impl Print, got: LineGot, buf: &[u8]) -> anyhow::Result<()> {
    match got {
        LineGot::Line { stamp, len } => {
            let octets = buf.get(..len as usize).unwrap_or(&[]);
            print!(rt; " [{stamp} {len} {}]", str::from_utf8(octets)?)?;
        }
        LineGot::End => print!(rt; " [end]")?,
        LineGot::Malformed { at } => print!(rt; " [malformed at {at}]")?,
        LineGot::Overlong { at } => print!(rt; " [overlong at {at}]")?,
        LineGot::Failed => print!(rt; " [failed]")?,
    }
    Ok(())
}
