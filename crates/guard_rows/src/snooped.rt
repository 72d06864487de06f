//! What is told of frames that passed.

use crate::frames::{Frames, arrival_of};
use crate::plans::snoop_plan;
use anyhow::bail;
use savi_kinds::{FRAME_OCTETS_LEAST, LAST_MOMENT};
use std::alloc::Global;
use v4_snoop::{Reason, Snoop};

/// A snoop at the start of a history in which a port may have so many live leases.
pub fn begin_snoop(alloc: Global, per_port: &str) -> anyhow::Result<Snoop> {
    let plan = snoop_plan(alloc, per_port.parse::<u32>()?)?;
    Ok(Snoop::make(alloc, &plan)?)
}

/// Prints a frame that passed, by its port, moment (ms) and name, and the word for its reason.
pub fn print_passed(
    rt: &impl Print,
    snoop: &mut Snoop,
    frames: &Frames,
    text: &str,
) -> anyhow::Result<()> {
    println!(rt; "{text}: {}", judged(frames, snoop, text)?)?;
    Ok(())
}

// The word for the reason of a frame that passed.
fn judged(frames: &Frames, snoop: &mut Snoop, text: &str) -> anyhow::Result<&'static str> {
    let (port, moment, name) = arrival_of(text)?;
    let frame = frames.get(name)?;
    if frame.len() < FRAME_OCTETS_LEAST || moment > LAST_MOMENT {
        bail!("no frame of a history: {text}");
    }
    Ok(match snoop.judge(port, moment, frame) {
        Some(Reason::ArpBad) => "arp-bad",
        Some(Reason::ArpSource) => "arp-source",
        Some(Reason::IpBad) => "ip-bad",
        Some(Reason::Server) => "server",
        Some(Reason::IpSource) => "ip-source",
        Some(Reason::RequestFull) => "request-full",
        Some(Reason::PortFull) => "port-full",
        None => "-",
    })
}
