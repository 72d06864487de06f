//! Stateful RA-Guard, and DHCPv4 snooping with ARP inspection, over histories of frames.
//!
//! The input is lines, of which those that begin with `#` are passed over:
//!
//!     == TEXT                   is printed as it stands: what the lines behind it show
//!     name NAME DIGITS          octets of a frame in hexadecimal digits
//!
//! What is learned of routers, at two ports of VLAN 1, a host's and a trusted one, and at two that are passed over:
//!
//!     plan WINDOW               a history begins, with a window of so many ms: port 1 is a host's and port 2 trusted,
//!                               port 3 is a host's in VLAN 20, and port 4 a trunk of VLANs 1 and 20
//!     plan WINDOW PREFIX        the same of a plan that has a prefix in VLAN 1, of first come
//!     fail WRITE                the write of this number will fail, from 1 on
//!     frame PORT STAMP NAME     a frame
//!     long PORT STAMP OCTETS    a frame of more than 1,518 octets
//!     finish                    prints what was written of these arrivals, and whether a write failed
//!     learn PORT STAMP OCTETS   prints the same of a list of one arrival, a frame of more than 1,518 octets
//!     see PORT MOMENT NAME      what the learner answers to a frame
//!     state PORT MOMENT         the state in which it has a port
//!     router PLACE MOMENT       the router at this place, from 0 on, its port, and the moment before which it stands
//!     prefix PLACE MOMENT       the prefix at this place, and the moment before which it stands, or `-`
//!     lost                      how many routers and prefixes found no place
//!     read NAME                 what is read of the advertisement that a frame has behind its IPv6 header
//!
//! What is told of IPv4 and ARP:
//!
//!     snoop PER_PORT            a history begins: ports 1 and 3 are hosts', port 2 is trusted and port 4 a server's; in VLAN
//!                               20 port 5 is a host's and port 6 trusted; port 7 is a trunk of VLANs 1 and 20; a port may
//!                               have so many live leases
//!     passed PORT MOMENT NAME   a frame that passed: its reason is printed
//!
//! What has to be printed was written out by RFC 6105 section 3, RFC 4861 sections 4.2, 4.6.2 and 6.1.2, RFC 826, RFC 2131,
//! RFC 2132, IEEE 802.1Q and the table of reasons.
#![tactic(auto)]

mod asked;
mod frames;
mod history;
mod plans;
mod snooped;

use asked::ask;
use frames::Frames;
use history::History;
use snooped::{begin_snoop, print_passed};
use std::alloc::Global;
use v4_snoop::Snoop;

fn main(rt: HostRuntime) -> anyhow::Result<()> {
    let mut frames = Frames::new(rt.alloc());
    let mut history = History::new(rt.alloc(), "0")?;
    let mut snoop = begin_snoop(rt.alloc(), "32")?;
    for line in rt.lines(rt.alloc()) {
        let line = line?;
        follow(
            &rt,
            rt.alloc(),
            &mut frames,
            &mut history,
            &mut snoop,
            line.as_str(),
        )?;
    }
    Ok(())
}

// Does what a line says.
fn follow(
    rt: &impl Print,
    alloc: Global,
    frames: &mut Frames,
    history: &mut History,
    snoop: &mut Snoop,
    line: &str,
) -> anyhow::Result<()> {
    let (word, rest) = line.split_once(' ').unwrap_or((line, ""));
    match word {
        "" | "#" => {}
        "==" => println!(rt; "{line}")?,
        "name" => frames.add(alloc, rest)?,
        "snoop" => *snoop = begin_snoop(alloc, rest)?,
        "passed" => print_passed(rt, snoop, frames, rest)?,
        _ => learn(rt, alloc, frames, history, line)?,
    }
    Ok(())
}

// Does what a line says of what is learned.
fn learn(
    rt: &impl Print,
    alloc: Global,
    frames: &Frames,
    history: &mut History,
    line: &str,
) -> anyhow::Result<()> {
    let (word, rest) = line.split_once(' ').unwrap_or((line, ""));
    match word {
        "plan" => history.begin(alloc, rest),
        "fail" => history.fail(alloc, rest),
        "frame" => history.frame(frames, rest),
        "long" => history.long(rest),
        "finish" => history.finish(rt),
        "learn" => history.learn(rt, alloc, rest),
        _ => ask(rt, &mut history.learner, frames, line),
    }
}
