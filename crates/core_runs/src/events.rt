//! The events of a switch. Each answers what became of it, or None where its pass isn't open or it has another size.

ghost use Rattle.std.specs.Prelude.{◌≡◌, true};
ghost use Rattle.savi_kinds.specs.Ports.{number_of};
ghost use Rattle.savi_history.specs.Passes.{has_pass, has_port};
ghost use Rattle.savi_history.specs.Legal.{IsOpen};
ghost use Rattle.savi_core.specs.Machines.{base_of};

use frame_class::seen;
use savi_core::{Batch, Core, Event, Reply, Stepped};
use savi_kinds::{CONTROL_LINE_OCTETS, DEPTH_MOST, FRAME_OCTETS_MOST, How, Plan, Port, Who};

/// A frame comes in at a port; the stamp is in ms.
pub fn frame(core: &mut Core, port: Port, stamp: u64, octets: &[u8]) -> Option<Stepped> {
    if octets.len() > FRAME_OCTETS_MOST || !is_open(core, Who::Ingress(port)) {
        return None;
    }
    let seen = seen(octets);
    Some(core.step(Event::Frame {
        port,
        stamp,
        octets,
        seen: &seen,
    }))
}

/// A frame of so many octets, more than a frame may have, comes in at a port; the stamp is in ms.
pub fn long(core: &mut Core, port: Port, stamp: u64, len: u32) -> Option<Stepped> {
    if len as usize <= FRAME_OCTETS_MOST || !is_open(core, Who::Ingress(port)) {
        return None;
    }
    Some(core.step(Event::Long { port, stamp, len }))
}

/// A line comes in on control, and is answered where an entry was made; the stamp is in ms.
pub fn command(core: &mut Core, stamp: u64, line: &[u8], reply: &mut Reply) -> Option<Stepped> {
    if line.len() > CONTROL_LINE_OCTETS || !is_open(core, Who::Control) {
        return None;
    }
    let stepped = core.step(Event::Command { stamp, line });
    match stepped {
        Stepped::Done(_) => core.reply(reply),
        Stepped::Full { .. } | Stepped::Nothing => {}
    }
    Some(stepped)
}

/// Time passes, up to this stamp in ms.
pub fn tick(core: &mut Core, stamp: u64) -> Option<Stepped> {
    if !is_open(core, Who::Ticker) {
        return None;
    }
    Some(core.step(Event::Tick { stamp }))
}

/// The input of a port ends.
pub fn end(core: &mut Core, port: Port) -> Option<Stepped> {
    let who = Who::Ingress(port);
    if !is_open(core, who) {
        return None;
    }
    Some(core.step(Event::End { who, how: How::End }))
}

/// A write of the output of a port fails.
pub fn fail(core: &mut Core, port: Port) -> Option<Stepped> {
    let who = Who::Egress(port);
    if !is_open(core, who) {
        return None;
    }
    Some(core.step(Event::End {
        who,
        how: How::Failed,
    }))
}

/// At most so many items are taken of a port's queue.
pub fn drain(core: &mut Core, port: Port, most: u32, batch: &mut Batch) -> Option<Stepped> {
    if most < 1 || most > DEPTH_MOST || !has_port(core.plan(), port) {
        return None;
    }
    Some(core.drain(port, most, batch))
}

// Whether a pass is one of the plan's and hasn't ended.
fn is_open(core: &Core, who: Who) -> bool
    ensures { result ≡ true → IsOpen core.now.plan (base_of core.now) core.now.past who }
{
    has_pass(core.plan(), who) && !core.ended(who)
}

fn has_pass(plan: &Plan, who: Who) -> bool
    ensures { result ≡ has_pass plan.now who }
{
    match who {
        Who::Ingress(port) | Who::Egress(port) => has_port(plan, port),
        Who::Control | Who::Ticker => true,
    }
}

fn has_port(plan: &Plan, port: Port) -> bool
    ensures { result ≡ has_port plan.now (number_of port) }
{
    for p in plan.ports.as_slice() {
        if p.number.get() == port.get() {
            return true;
        }
    }
    false
}
