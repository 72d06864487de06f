//! Steps of `savi_core`, timed.
//!
//! usage: core_bench time. It prints a line for each kind of step, with a tenth of each bound reached and with all of it: its
//! name, which of the two, how many VLANs there are, how many addresses are bound, how many stations are known at each port,
//! how many requests of DHCPv6 are open, whether sources are validated, how many steps were made, the nanoseconds of the
//! processor that they took, and how many of the frames passed, or how many of the ticks found something due. With no word,
//! or another one, it prints nothing.
#![tactic(auto)]

mod frames;
mod load;
mod switch;
mod timed;

use frames::{Frame, PACKETS, REQUESTS_A_PORT, claims, packets, requests};
use load::{Load, Part};
use savi_kinds::Moment;
use std::alloc::Global;
use std::env;
use std::time::CpuClock;
use timed::{START, Steps, Timed, time_steps};

/// Addresses that were seen last at 2,000 ms are tested by a first probe at the first of these moments, and by a second one
/// and ended up to the other (ms).
const DUE: [(&str, Moment); 2] = [("due", 302_000), ("due_to_the_end", 302_500)];

/// How often packets and claims are entered; and requests, whose steps take less than the 120 s for which they are open.
const TIMES: u64 = 250;

const REQUEST_TIMES: u64 = 100;

/// So many claims are made in a flood, and so many are taken in.
const CLAIMS: u64 = 512;

const CLAIMS_TAKEN: u64 = 40;

/// At so many switches, where each step needs a new one.
const SWITCHES: u64 = 50;

fn main(rt: HostRuntime) -> anyhow::Result<()> {
    let Some(word) = env::args(&rt)?.nth(1) else {
        return Ok(());
    };
    if word.as_str() == "time" {
        for part in [Part::Tenth, Part::All] {
            time_bound(&rt, rt.alloc(), part)?;
            time_refused(&rt, rt.alloc(), part)?;
            time_taken(&rt, rt.alloc(), part)?;
            time_ticks(&rt, rt.alloc(), part)?;
        }
    }
    Ok(())
}

fn print(rt: &impl Print, name: &str, load: Load, timed: Timed) -> anyhow::Result<()> {
    Ok(println!(rt;
        "{name} {} {} {} {} {} {} {} {} {}",
        load.part.name(),
        load.vlans,
        load.addresses,
        load.stations_a_port,
        load.requests,
        if load.validates { "on" } else { "off" },
        timed.steps,
        timed.took.as_nanos(),
        timed.done
    )?)
}

// Packets of bound addresses: of one VLAN, with validation and without, and of two, whose ports are all those of hosts.
fn time_bound<R: CpuClock + Print>(rt: &R, alloc: Global, part: Part) -> anyhow::Result<()> {
    let mut load = Load::new(part);
    time_packets(rt, alloc, load)?;
    load.validates = false;
    time_packets(rt, alloc, load)?;
    load.validates = true;
    load.vlans = 2;
    load.hosts = 16;
    load.addresses = load.addresses.wrapping_mul(2);
    time_packets(rt, alloc, load)
}

// Packets of bound addresses.
fn time_packets<R: CpuClock + Print>(rt: &R, alloc: Global, load: Load) -> anyhow::Result<()> {
    let frames = packets(alloc, load, 0, load.addresses)?;
    time_frames(rt, alloc, "bound", load, frames.as_slice(), TIMES, 1)
}

// Floods of packets and claims of other addresses, and of requests, from ports where no more is taken.
fn time_refused<R: CpuClock + Print>(rt: &R, alloc: Global, part: Part) -> anyhow::Result<()> {
    let mut load = Load::new(part);
    let frames = packets(alloc, load, load.addresses, PACKETS)?;
    time_frames(rt, alloc, "flood_packet", load, frames.as_slice(), TIMES, 1)?;
    let frames = claims(alloc, load, load.addresses, CLAIMS)?;
    time_frames(rt, alloc, "flood_claim", load, frames.as_slice(), TIMES, 1)?;
    load.hosts = 16;
    load.requests = part.of(16, 256);
    let full = load.requests / REQUESTS_A_PORT;
    let frames = requests(alloc, load.requests, PACKETS, full)?;
    time_frames(
        rt,
        alloc,
        "flood_request",
        load,
        frames.as_slice(),
        REQUEST_TIMES,
        1,
    )
}

// Claims of other addresses, at a switch with one trusted port, and requests: the last of those that are taken.
fn time_taken<R: CpuClock + Print>(rt: &R, alloc: Global, part: Part) -> anyhow::Result<()> {
    let mut load = Load::new(part);
    load.ports = 9;
    load.addresses = load.addresses.wrapping_sub(CLAIMS_TAKEN);
    let frames = claims(alloc, load, load.addresses, CLAIMS_TAKEN)?;
    time_frames(rt, alloc, "claim", load, frames.as_slice(), 1, SWITCHES)?;
    let mut load = Load::new(part);
    load.hosts = 16;
    load.requests = part.of(0, 240);
    let frames = requests(alloc, load.requests, REQUESTS_A_PORT, 16)?;
    time_frames(rt, alloc, "request", load, frames.as_slice(), 1, SWITCHES)
}

// Ticks by which nothing is due, and those by which something is due in each address.
fn time_ticks<R: CpuClock + Print>(rt: &R, alloc: Global, part: Part) -> anyhow::Result<()> {
    let load = Load::new(part);
    let idle = time_steps(rt, alloc, load, Steps::Ticks(START, TIMES * PACKETS), 1)?;
    print(rt, "tick", load, idle)?;
    for (name, moment) in DUE {
        let timed = time_steps(rt, alloc, load, Steps::Ticks(moment, 1), SWITCHES)?;
        print(rt, name, load, timed)?;
    }
    Ok(())
}

// These frames in turn, so many times, at so many switches.
fn time_frames<R: CpuClock + Print>(
    rt: &R,
    alloc: Global,
    name: &str,
    load: Load,
    frames: &[Frame],
    times: u64,
    switches: u64,
) -> anyhow::Result<()> {
    let timed = time_steps(rt, alloc, load, Steps::Frames(frames, times), switches)?;
    print(rt, name, load, timed)
}
