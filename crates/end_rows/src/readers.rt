//! Captures and streams, read whole and cut anywhere.

use crate::input::number_of;
use anyhow::bail;
use pcap_io::{ByteOrder, HeaderKind, PcapReader, TimeUnit};
use savi_ends::{MemClock, MemSource};
use savi_kinds::Next;
use std::alloc::{AllocError, Global};
use stream_io::StreamReader;

/// How many answers of a reader are told.
const ANSWERS: u32 = 4;

// A reader of either form.
#[derive(Drop)]
enum Reader {
    Capture(PcapReader),
    Stream(StreamReader),
}

impl Reader {
    // The reader of this name: of captures, of those that are little-endian in microseconds alone, or of streams.
    fn new(name: &str) -> anyhow::Result<Reader> {
        match name {
            "capture" => Ok(Reader::Capture(PcapReader::new())),
            "little" => Ok(Reader::Capture(PcapReader::of_kind(HeaderKind {
                order: ByteOrder::Little,
                unit: TimeUnit::Microseconds,
            }))),
            "stream" => Ok(Reader::Stream(StreamReader::new())),
            _ => bail!("no reader: {name}"),
        }
    }

    // The next answer.
    fn next(&mut self, source: &mut MemSource, clock: &mut MemClock, buf: &mut [u8; 1518]) -> Next {
        match self {
            Reader::Capture(reader) => reader.next(source, clock, buf),
            Reader::Stream(reader) => reader.next(source, clock, buf),
        }
    }
}

/// Prints the first answers to a reader: its name, how many octets a read gives at most, and which read fails. The clock
/// reads 10, 20 and 30 ms.
pub fn print_answers(
    rt: &impl Print,
    alloc: Global,
    octets: &[u8],
    rest: &str,
) -> anyhow::Result<()> {
    let (name, rest) = rest.split_once(' ').unwrap_or((rest, ""));
    let (most, rest) = number_of(rest)?;
    let (read, _) = number_of(rest)?;
    println!(rt; "{}", answers(alloc, name, octets, most, read)?)?;
    Ok(())
}

/// Prints the first answers to a reader of each front of these octets, once for fronts that follow each other and come to
/// the same. Where the last is `fails` the read behind the octets of each front fails.
pub fn print_cuts(rt: &impl Print, alloc: Global, octets: &[u8], rest: &str) -> anyhow::Result<()> {
    let (name, rest) = rest.split_once(' ').unwrap_or((rest, ""));
    let (most, rest) = number_of(rest)?;
    println!(rt; "")?;
    let mut from = 0;
    let mut last = String::new(alloc);
    for cut in 0..=octets.len() {
        let read = match rest {
            "fails" => (cut as u64).div_ceil(most.max(1)).saturating_add(1),
            _ => 0,
        };
        let front = octets.get(..cut).unwrap_or(&[]);
        let told = answers(alloc, name, front, most, read)?;
        if cut > 0 && told.as_str() != last.as_str() {
            println!(rt; "  {from} to {}:{last}", cut - 1)?;
            from = cut;
        }
        last = told;
    }
    println!(rt; "  {from} to {}:{last}", octets.len())?;
    Ok(())
}

/// The first answers to a reader of this name: how many octets a read gives at most, and which read fails. The clock reads
/// 10, 20 and 30 ms.
pub fn answers(
    alloc: Global,
    name: &str,
    octets: &[u8],
    most: u64,
    read: u64,
) -> anyhow::Result<String> {
    let fails = [read].to_vec(alloc)?;
    let mut source = MemSource::new(octets.to_vec(alloc)?, most.max(1) as usize, fails);
    let mut clock = MemClock::new([10, 20, 30].to_vec(alloc)?);
    let mut reader = Reader::new(name)?;
    let mut buf = [0; 1518];
    let mut told = String::new(alloc);
    for _ in 0..ANSWERS {
        let next = reader.next(&mut source, &mut clock, &mut buf);
        told.push_str(answer_text(alloc, next)?.as_str())?;
    }
    Ok(told)
}

/// The text of an answer.
pub fn answer_text(alloc: Global, next: Next) -> Result<String, AllocError> {
    match next {
        Next::Frame { stamp, len } => format!(in alloc; " [frame of {len} octets at {stamp}]"),
        Next::Long { stamp, len } => format!(in alloc; " [long of {len} octets at {stamp}]"),
        Next::End => String::from_str(alloc, " [end]"),
        Next::Malformed { at } => format!(in alloc; " [malformed at {at}]"),
        Next::Failed => String::from_str(alloc, " [failed]"),
    }
}
