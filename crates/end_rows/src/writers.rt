//! Captures and streams, written.

use crate::input::number_of;
use crate::readers::answers;
use anyhow::bail;
use savi_ends::{MemSink, Put};
use savi_kinds::FRAME_OCTETS_OUT_MOST;
use std::alloc::Global;

/// Room for what is written.
const ROOM: usize = 2_048;

/// When a frame is sent that is read again, in ms.
const MOMENT: u64 = 20;

/// Prints what the writes of a capture or a stream come to, and what was written: its form, the number of the write that
/// fails, and frames, of which each is its moment (ms), `/` and its digits.
pub fn print_written(rt: &impl Print, alloc: Global, rest: &str) -> anyhow::Result<()> {
    let (form, rest) = rest.split_once(' ').unwrap_or((rest, ""));
    let (write, frames) = number_of(rest)?;
    let mut sink = MemSink::make(alloc, ROOM, [write].to_vec(alloc)?)?;
    print!(rt; " {}", put_word(begin(form, &mut sink)?))?;
    for frame in frames.split_whitespace() {
        let put = put_frame(alloc, form, &mut sink, frame)?;
        print!(rt; " {}", put_word(put))?;
    }
    println!(rt; " [{}]", hex::encode(alloc, sink.written())?)?;
    Ok(())
}

/// Prints the first answers to a reader of a written capture or stream: its form, and the octets of its one frame.
pub fn print_again(rt: &impl Print, alloc: Global, rest: &str) -> anyhow::Result<()> {
    let (form, rest) = rest.split_once(' ').unwrap_or((rest, ""));
    let (count, _) = number_of(rest)?;
    let mut octets = Vec::new(alloc);
    for _ in 0..count {
        octets.push(7)?;
    }
    let mut sink = MemSink::make(alloc, ROOM, Vec::new(alloc))?;
    begin(form, &mut sink)?;
    put_octets(form, &mut sink, MOMENT, octets.as_slice())?;
    println!(rt; "{}", answers(alloc, form, sink.written(), ROOM as u64, 0)?)?;
    Ok(())
}

// Begins an output.
fn begin(form: &str, sink: &mut MemSink) -> anyhow::Result<Put> {
    match form {
        "capture" => Ok(pcap_io::begin(sink)),
        "stream" => Ok(stream_io::begin(sink)),
        _ => bail!("no form: {form}"),
    }
}

// Writes a frame.
fn put_frame(alloc: Global, form: &str, sink: &mut MemSink, frame: &str) -> anyhow::Result<Put> {
    let Some((moment, digits)) = frame.split_once('/') else {
        bail!("no frame: {frame}");
    };
    let octets = hex::decode(alloc, digits)?;
    put_octets(form, sink, moment.parse::<u64>()?, octets.as_slice())
}

// Writes a frame of these octets.
fn put_octets(form: &str, sink: &mut MemSink, moment: u64, octets: &[u8]) -> anyhow::Result<Put> {
    if octets.len() > FRAME_OCTETS_OUT_MOST {
        bail!("too long a frame");
    }
    match form {
        "capture" => Ok(pcap_io::put(sink, moment, octets)),
        _ => Ok(stream_io::put(sink, moment, octets)),
    }
}

/// The word for what a write comes to.
pub fn put_word(put: Put) -> &'static str {
    match put {
        Put::Done => "done",
        Put::Failed => "failed",
    }
}
