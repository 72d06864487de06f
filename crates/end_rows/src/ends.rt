//! Sources, sinks and clocks in memory, used by way of their traits alone.

use crate::input::number_of;
use crate::writers::put_word;
use savi_ends::{
    Clock, CountSink, Filled, Got, MemClock, MemSink, MemSource, Sink, Source, SureSource, fill,
};
use std::alloc::Global;

/// How many reads of a source are tried.
const READS: u32 = 6;

/// Prints the reads of a source of these octets, into a buffer of four: how many it gives at most, and which read fails.
pub fn print_source(
    rt: &impl Print,
    alloc: Global,
    octets: &[u8],
    rest: &str,
) -> anyhow::Result<()> {
    print_reads(rt, alloc, source_of(alloc, octets, rest)?)
}

/// Prints the same of a source that gives all at once.
pub fn print_sure(rt: &impl Print, alloc: Global, octets: &[u8]) -> anyhow::Result<()> {
    print_reads(rt, alloc, SureSource::new(octets.to_vec(alloc)?))
}

// Prints the reads of a source, what is in the buffer behind them, and how many failed.
fn print_reads<S: Source + Drop>(
    rt: &impl Print,
    alloc: Global,
    mut source: S,
) -> anyhow::Result<()> {
    let mut buf = [0; 4];
    for _ in 0..READS {
        match source.read(&mut buf) {
            Got::Bytes(count) => {
                let octets = buf.get(..count).unwrap_or(&[]);
                print!(rt; " {}", hex::encode(alloc, octets)?)?;
            }
            Got::End => print!(rt; " end")?,
            Got::Failed => print!(rt; " failed")?,
        }
    }
    println!(rt; " [{}] {}", hex::encode(alloc, &buf)?, source.faults())?;
    Ok(())
}

/// Prints how a buffer of five is filled by a source of these octets: how many it gives at most, and which read fails.
pub fn print_filled(
    rt: &impl Print,
    alloc: Global,
    octets: &[u8],
    rest: &str,
) -> anyhow::Result<()> {
    let mut source = source_of(alloc, octets, rest)?;
    let mut buf = [0; 5];
    match fill(&mut source, &mut buf) {
        Filled::Whole => println!(rt; " whole")?,
        Filled::Short(count) => println!(rt; " short: {count}")?,
        Filled::Failed => println!(rt; " failed")?,
    }
    Ok(())
}

// A source of these octets: how many it gives at most, and which read fails.
fn source_of(alloc: Global, octets: &[u8], rest: &str) -> anyhow::Result<MemSource> {
    let (most, rest) = number_of(rest)?;
    let (read, _) = number_of(rest)?;
    let fails = [read].to_vec(alloc)?;
    Ok(MemSource::new(octets.to_vec(alloc)?, most.max(1) as usize, fails))
}

/// Prints what a sink takes: its room, which write fails, and pieces.
pub fn print_sink(rt: &impl Print, alloc: Global, rest: &str) -> anyhow::Result<()> {
    let (room, rest) = number_of(rest)?;
    let (write, pieces) = number_of(rest)?;
    let mut sink = MemSink::make(alloc, room as usize, [write].to_vec(alloc)?)?;
    print_writes(rt, alloc, &mut sink, pieces)?;
    println!(rt;
        " [{}] {}",
        hex::encode(alloc, sink.written())?,
        sink.faults()
    )?;
    Ok(())
}

/// Prints how much a sink that counts has taken behind these pieces.
pub fn print_count(rt: &impl Print, alloc: Global, pieces: &str) -> anyhow::Result<()> {
    let mut sink = CountSink::new();
    print_writes(rt, alloc, &mut sink, pieces)?;
    println!(rt; " [{}] {}", sink.count(), sink.faults())?;
    Ok(())
}

// Prints what the writes of pieces come to, each of which is digits, or `-` for none.
fn print_writes<K: Sink>(
    rt: &impl Print,
    alloc: Global,
    sink: &mut K,
    pieces: &str,
) -> anyhow::Result<()> {
    for piece in pieces.split_whitespace() {
        let digits = if piece == "-" { "" } else { piece };
        let octets = hex::decode(alloc, digits)?;
        print!(rt; " {}", put_word(sink.write(octets.as_slice())))?;
    }
    Ok(())
}

/// Prints what a clock over these readings tells, in turn without and with waiting, twice.
pub fn print_clock(rt: &impl Print, alloc: Global, rest: &str) -> anyhow::Result<()> {
    let mut readings = Vec::new(alloc);
    for reading in rest.split_whitespace() {
        readings.push(reading.parse::<u64>()?)?;
    }
    let mut clock = MemClock::new(readings);
    print_readings(rt, &mut clock)?;
    print_readings(rt, &mut clock)?;
    println!(rt; "")?;
    Ok(())
}

// Prints a reading, and one of a wait.
fn print_readings<C: Clock>(rt: &impl Print, clock: &mut C) -> anyhow::Result<()> {
    let (reading, later) = (clock.now(), clock.wait());
    print!(rt; " {reading} {later}")?;
    Ok(())
}
