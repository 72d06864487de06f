//! A switch, and what is put to it.

ghost use Rattle.std.specs.Prelude.{◌≡◌, true};
ghost use Rattle.savi_kinds.specs.Ports.{number_of};
ghost use Rattle.savi_history.specs.Passes.{has_port};
ghost use Rattle.savi_history.specs.Legal.{IsOpen};
ghost use Rattle.savi_core.specs.Machines.{base_of};
ghost use Rattle.savi_kinds.specs.declared.entry.Who.TheVariants.{Ingress};

use crate::frames::{Frame, port};
use crate::load::Load;
use frame_class::a_frame_is_seen_once;
use savi_conf::read_plan;
use savi_core::{Batch, Core, Event, Stepped};
use savi_kinds::{DEPTH_MOST, Moment, PORTS_MOST, Plan, Port, Verdict, Who};
use std::alloc::{AllocError, Global};

/// What the configuration says before it says how many addresses a port may hold.
const LIMITS: &str =
    "mac = \"02:00:00:00:00:01\"\njournal = \"journal.txt\"\nentries = 1000000\nper_port = ";

/// The numbers of ports in decimal.
const NUMBERS: [&str; PORTS_MOST] = [
    "1", "2", "3", "4", "5", "6", "7", "8", "9", "10", "11", "12", "13", "14", "15", "16",
];

/// A switch with the ports of this load.
pub fn switch(alloc: Global, load: Load) -> anyhow::Result<Core> {
    let text = plan_text(alloc, load)?;
    let plan = read_plan(alloc, text.as_str().as_bytes(), true)?;
    Ok(Core::make(alloc, plan)?)
}

// The configuration of such a switch.
fn plan_text(alloc: Global, load: Load) -> Result<String, AllocError> {
    let mut text = String::new(alloc);
    let savi = if load.validates { "on" } else { "off" };
    let limits = [LIMITS, load.part.per_port(), "\nsavi = \"", savi, "\"\n"];
    push_all(&mut text, &limits)?;
    for (place, number) in NUMBERS.iter().enumerate() {
        if place < usize::from(load.ports) {
            push_port(&mut text, number, place, load)?;
        }
    }
    Ok(text)
}

// Appends the table of the port of this number, which is at this place.
fn push_port(text: &mut String, number: &str, place: usize, load: Load) -> Result<(), AllocError> {
    let is_host = place < usize::from(load.hosts);
    let role = if is_host { "host" } else { "trusted" };
    let vlan = if load.vlans > 1 && place % 2 == 1 {
        "2"
    } else {
        "1"
    };
    push_all(text, &["[[port]]\nnumber = ", number, "\nrole = \"", role])?;
    push_all(text, &["\"\nvlan = ", vlan, "\ninput = \"", number])?;
    push_all(text, &[".pcap\"\noutput = \"", number, ".out\"\n"])
}

fn push_all(text: &mut String, pieces: &[&str]) -> Result<(), AllocError> {
    for piece in pieces {
        text.push_str(piece)?;
    }
    Ok(())
}

/// Enters a frame at `stamp` (ms), and answers whether it passes.
pub fn enter(core: &mut Core, frame: &Frame, stamp: Moment) -> bool {
    if !is_open(core, frame.port) {
        return false;
    }
    a_frame_is_seen_once();
    let stepped = core.step(Event::Frame {
        port: frame.port,
        stamp,
        octets: frame.octets.as_slice(),
        seen: &frame.seen,
    });
    match stepped {
        Stepped::Done(entry) => matches!(entry.verdict, Some(Verdict::Pass(_))),
        Stepped::Full { .. } | Stepped::Nothing => false,
    }
}

/// Time passes, up to `stamp` (ms). The answer is whether something was due.
pub fn tick(core: &mut Core, stamp: Moment) -> bool {
    if core.ended(Who::Ticker) {
        return false;
    }
    match core.step(Event::Tick { stamp }) {
        Stepped::Done(_) => true,
        Stepped::Full { .. } | Stepped::Nothing => false,
    }
}

/// Drains all ports.
pub fn drain_all(core: &mut Core, batch: &mut Batch) {
    for n in 0..PORTS_MOST {
        let port = port(n as u64);
        if has_port(core.plan(), port) {
            core.drain(port, DEPTH_MOST, batch);
        }
    }
}

// Whether frames may come in at a port.
fn is_open(core: &Core, port: Port) -> bool
    ensures { result ≡ true → IsOpen core.now.plan (base_of core.now) core.now.past (Ingress port) }
{
    has_port(core.plan(), port) && !core.ended(Who::Ingress(port))
}

// Whether a port is one of the plan's.
fn has_port(plan: &Plan, port: Port) -> bool
    ensures { result ≡ has_port plan.now (number_of port) }
{
    for p in plan.ports.as_slice() {
        if p.number.get() == port.get() {
            return true;
        }
    }
    false
}
