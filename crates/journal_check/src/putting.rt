//! Puts the events of entries to a switch, as far as they may come.

ghost use Rattle.std.specs.Prelude.{◌≡◌, ◌≤◌, true, length};
ghost use Rattle.hist_store.specs.EntryLines.{IsActInRange, IsHowInRange};
ghost use Rattle.hist_store.specs.EndTexts.{IsReasonOf};
ghost use Rattle.hist_store.specs.LineTexts.{FitsAct};
ghost use Rattle.savi_history.specs.Events as events;
ghost use Rattle.savi_kinds.specs.Ports.{number_of};
ghost use Rattle.savi_history.specs.Passes.{has_port};
ghost use Rattle.savi_history.specs.Queues.{queue};
ghost use Rattle.savi_core.specs.Machines.{base_of};
ghost use Rattle.journal_check.specs.Differing.{event_by};
ghost use Rattle.journal_check.specs.Puts.{Puts, put_of};

use crate::coming::{is_open, may_end};
use frame_class::{Seen, see};
use savi_core::{Batch, Core, Event, Stepped};
use savi_kinds::{Act, Entry, FRAME_OCTETS_MOST, How, Port, Who};

/// What came of putting an event to a switch.
#[derive(Clone, Copy, PartialEq, Eq, Debug)]
pub enum Put {
    /// It was entered, and this is the entry that stands for it.
    Entered(Entry),
    /// It may not come, and nothing has changed.
    Never,
    /// It may come with another number: the one that it wants, and the one that it has. Nothing has changed.
    Other(u64, u64),
}

/// Puts the event of an entry with these octets to a switch. It costs what the switch takes for it.
pub fn put_event(core: &mut Core, batch: &mut Batch, entry: &Entry, octets: &[u8]) -> Put
    requires numbers { IsActInRange entry.now.act }
    requires fits { FitsAct entry.now octets.now entry.now.act }
    ensures { Puts core.old (event_by entry.now.act octets.now) core.new result }
{
    match entry.act {
        Act::Frame { port, stamp, .. } => put_frame(core, port, stamp, octets),
        Act::Long { port, stamp, len } => put_long(core, port, stamp, len),
        Act::Tick { stamp } => put_tick(core, stamp),
        Act::Command { stamp, .. } => put_command(core, stamp, octets),
        Act::Drain { port, count } => put_drain(core, batch, port, count),
        Act::End { who, how } => put_end(core, who, how),
    }
}

fn put_frame(core: &mut Core, port: Port, stamp: u64, octets: &[u8]) -> Put
    requires { length octets.now ≤ 1518 }
    ensures { Puts core.old (events.Frame port stamp octets.now) core.new result }
{
    if !is_open(core, Who::Ingress(port)) {
        return Put::Never;
    }
    let mut seen = Seen::nothing();
    see(octets, &mut seen);
    put_of(core.step(Event::Frame {
        port,
        stamp,
        octets,
        seen: &seen,
    }))
}

fn put_long(core: &mut Core, port: Port, stamp: u64, len: u32) -> Put
    ensures { Puts core.old (events.Long port stamp len) core.new result }
{
    let size = len as usize;
    if size <= FRAME_OCTETS_MOST {
        return Put::Never;
    }
    if !is_open(core, Who::Ingress(port)) {
        return Put::Never;
    }
    put_of(core.step(Event::Long { port, stamp, len }))
}

fn put_tick(core: &mut Core, stamp: u64) -> Put
    ensures { Puts core.old (events.Tick stamp) core.new result }
{
    if !is_open(core, Who::Ticker) {
        return Put::Never;
    }
    put_of(core.step(Event::Tick { stamp }))
}

fn put_command(core: &mut Core, stamp: u64, line: &[u8]) -> Put
    requires { length line.now ≤ 120 }
    ensures { Puts core.old (events.Command stamp line.now) core.new result }
{
    if !is_open(core, Who::Control) {
        return Put::Never;
    }
    put_of(core.step(Event::Command { stamp, line }))
}

fn put_drain(core: &mut Core, batch: &mut Batch, port: Port, count: u32) -> Put
    ensures { Puts core.old (events.Drain port count) core.new result }
{
    if count == 0 {
        return Put::Never;
    }
    if !is_open(core, Who::Egress(port)) {
        return Put::Never;
    }
    let queued = queued(core, port);
    if queued == 0 {
        return Put::Never;
    }
    if queued < count {
        return Put::Other(u64::from(queued), u64::from(count));
    }
    put_of(core.drain(port, count, batch))
}

// How many items wait at a port of the switch.
fn queued(core: &Core, port: Port) -> u32
    requires { has_port core.now.plan (number_of port) ≡ true }
    ensures count { result ≡ length (queue core.now.plan (base_of core.now) (number_of port) core.now.past) }
    ensures few { result ≤ 256 }
{
    let _history = core.history();
    let _entries = core.len();
    core.queued(port)
}

fn put_end(core: &mut Core, who: Who, how: How) -> Put
    requires fits { IsReasonOf who how }
    requires numbers { IsHowInRange how }
    ensures { Puts core.old (events.End who how) core.new result }
{
    if !is_open(core, who) {
        return Put::Never;
    }
    if !may_end(core, who, how) {
        return Put::Never;
    }
    put_of(core.step(Event::End { who, how }))
}

// What the answer of the switch comes to.
fn put_of(stepped: Stepped) -> Put
    ensures { result ≡ put_of stepped }
{
    match stepped {
        Stepped::Done(entry) => Put::Entered(entry),
        Stepped::Full { .. } | Stepped::Nothing => Put::Never,
    }
}
