//! A capture of several interfaces that is split, step by step.

use crate::input::number_of;
use anyhow::bail;
use pcap_io::begin;
use pcap_split::{Output, SplitGot, Splitter};
use savi_ends::{MemSink, MemSource, Put};
use split_run::put_counts;
use std::alloc::Global;

/// Room for what an output takes: a header, and a frame of 54 octets.
const ROOM: usize = 94;

/// Splits these octets, of which a read gives at most so many, up to the first interface that opens, and then with an output
/// for it; prints both answers, what was counted, and what the output took.
pub fn print_split(
    rt: &impl Print,
    alloc: Global,
    octets: &[u8],
    most: &str,
) -> anyhow::Result<()> {
    let (most, _) = number_of(most)?;
    println!(rt; "")?;
    let mut source = MemSource::new(octets.to_vec(alloc)?, most.max(1) as usize, Vec::new(alloc));
    let mut splitter = Splitter::new();
    let mut none: [Output<MemSink>; 0] = [];
    let first = splitter.go_on(&mut source, &mut none);
    print_got(rt, first)?;
    let SplitGot::Opens { interface } = first else {
        bail!("no interface opens");
    };
    let mut sink = MemSink::make(alloc, ROOM, Vec::new(alloc))?;
    if begin(&mut sink) == Put::Failed {
        bail!("no header");
    }
    let mut outputs = [Output { interface, sink }];
    print_got(rt, splitter.go_on(&mut source, &mut outputs))?;
    let counts = put_counts(splitter.counts());
    print!(rt; "  {}", str::from_utf8(counts.as_slice())?)?;
    println!(rt;
        "  octets [{}]",
        hex::encode(alloc, outputs[0].sink.written())?
    )?;
    Ok(())
}

// Prints an answer of a splitter.
fn print_got(rt: &impl Print, got: SplitGot) -> anyhow::Result<()> {
    match got {
        SplitGot::Opens { interface } => println!(rt; "  opens {interface}")?,
        SplitGot::Unwritten { interface } => println!(rt; "  unwritten {interface}")?,
        SplitGot::End => println!(rt; "  end")?,
        SplitGot::Malformed { at } => println!(rt; "  malformed at {at}")?,
        SplitGot::Failed => println!(rt; "  failed")?,
    }
    Ok(())
}
