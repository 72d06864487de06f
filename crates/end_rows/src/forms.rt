//! An input in either form.

use crate::readers::answer_text;
use anyhow::bail;
use input_read::PortInput;
use savi_ends::{MemClock, MemSource};
use savi_kinds::{FRAME_OCTETS_MOST, Format, Next};
use std::alloc::Global;

/// How many answers are printed.
const ANSWERS: u32 = 3;

/// Prints the first answers to a reader of an input, and the octets of its frames: its form, and how many octets a read
/// gives at most. The clock reads 10 and 20 ms.
pub fn print_input(
    rt: &impl Print,
    alloc: Global,
    octets: &[u8],
    rest: &str,
) -> anyhow::Result<()> {
    let (word, most) = rest.split_once(' ').unwrap_or((rest, ""));
    let format = match word {
        "pcap" => Format::Pcap,
        "stream" => Format::Stream,
        _ => bail!("no form: {word}"),
    };
    let most = most.parse::<u64>()?.max(1) as usize;
    let source = MemSource::new(octets.to_vec(alloc)?, most, Vec::new(alloc));
    let clock = MemClock::new([10, 20].to_vec(alloc)?);
    let mut input = PortInput::new(format, source, clock);
    for _ in 0..ANSWERS {
        let next = input.read();
        print!(rt; "{}", answer_text(alloc, next)?)?;
        if let Next::Frame { len, .. } = next
            && len as usize <= FRAME_OCTETS_MOST
        {
            print!(rt; " {}", hex::encode(alloc, input.frame(len))?)?;
        }
    }
    let (_source, _clock) = input.into_ends();
    println!(rt; "")?;
    Ok(())
}
