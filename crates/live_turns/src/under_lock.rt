//! The moves of a session: what is done to the core in one turn at the lock. Each makes at most one entry. A thread that
//! has the core alone makes the same moves without a lock.

ghost use Rattle.std.specs.Prelude.{◌≡◌, ◌+◌, ◌≤◌, true, length, MatchBool};
ghost use Rattle.savi_kinds.specs.declared.entry.Who.TheVariants.{Control, Egress, Ticker};
ghost use Rattle.savi_history.specs.Events as events;
ghost use Rattle.savi_history.specs.Legal.{InputsEnded, IsLegal, IsOpen, MayEnd};
ghost use Rattle.savi_history.specs.Limits.{has_room};
ghost use Rattle.savi_history.specs.Passes.{AllEnded, control_pass, has_pass, ticker_pass};
ghost use Rattle.savi_history.specs.Replay.{closing};
ghost use Rattle.savi_core.specs.Machines.{base_of};
ghost use Rattle.savi_core.specs.Steps.{IsSeenRightly, event_of};
ghost use Rattle.live_turns.specs.declared.kinds.TickTurn.TheVariants.{Full, Idle};
ghost use Rattle.live_turns.specs.Wakes.{HasGrownPorts, MayHaveQueued};
ghost use Rattle.live_turns.specs.TurnKinds.{DidDrain, DidEnd, DidInput, DidLine, DidLook, DidTick};
ghost use Rattle.live_turns.specs.TurnKinds.{IsFrame, IsInputPass, MayQueue, maker_of};

use crate::kinds::{DrainTurn, TickTurn};
use core_keep::KeptCore;
use savi_core::{Batch, Core, Event, Reply, Stepped};
use savi_kinds::{DEPTH_MOST, Entry, How, Port, PortSet, Who};

/// Enters a frame, or pauses its pass where there is no room for it. The answer is whether it was entered, and ports, among
/// them each whose queue has grown. It costs what `Core::step` costs.
pub fn enter_frame(kept: &mut KeptCore, event: Event<'_>) -> (bool, PortSet)
    requires open { IsOpen kept.old.core.value.plan (base_of kept.old.core.value) kept.old.core.value.past (maker_of (event_of event)) }
    requires frame { IsFrame (event_of event) }
    requires seen { IsSeenRightly event }
    ensures plan { kept.new.core.value.plan ≡ kept.old.core.value.plan }
    ensures checkpoint { kept.new.core.value.checkpoint ≡ kept.old.core.value.checkpoint }
    ensures legal { IsLegal kept.old.core.value.plan (base_of kept.old.core.value) kept.old.core.value.past }
    ensures did { DidInput (event_of event.entry) result.0 kept.old.core.value.plan (base_of kept.old.core.value) kept.old.core.value.past kept.new.core.value.past }
    ensures grown { HasGrownPorts result.1 kept.old.core.value.plan (base_of kept.old.core.value) kept.old.core.value.past kept.new.core.value.past }
{
    let _len = kept.core.len();
    match kept.core.step(event) {
        Stepped::Done(entry) => (true, queued_to(entry)),
        Stepped::Nothing => (true, PortSet::empty()),
        Stepped::Full { len: _ } => {
            end_pass(kept, maker(event), How::Paused);
            (false, PortSet(u16::MAX))
        }
    }
}

// The ports to whose queues an entry may have put something: those of its frame, and any where it has probes.
fn queued_to(entry: Entry) -> PortSet
    ensures { MayHaveQueued entry result }
{
    if entry.probes > 0 {
        PortSet(u16::MAX)
    } else {
        entry.outs
    }
}

// Whose pass enters an event.
fn maker(event: Event<'_>) -> Who
    ensures { result ≡ maker_of (event_of event.entry) }
{
    match event {
        Event::Frame {
            port,
            stamp: _,
            octets: _,
            seen: _,
        }
        | Event::Long {
            port,
            stamp: _,
            len: _,
        } => Who::Ingress(port),
        Event::Command { stamp: _, line: _ } => Who::Control,
        Event::Tick { stamp: _ } => Who::Ticker,
        Event::End { who, how: _ } => who,
    }
}

/// Enters a line of control and puts the reply to it into `reply`, or pauses control where there is no room for the line.
/// The answer is whether it was entered. It costs what `Core::step` and `Core::reply` cost.
pub fn enter_line(kept: &mut KeptCore, stamp: u64, line: &[u8], reply: &mut Reply) -> bool
    requires open { IsOpen kept.old.core.value.plan (base_of kept.old.core.value) kept.old.core.value.past Control }
    requires short { length line.now ≤ 120 }
    ensures plan { kept.new.core.value.plan ≡ kept.old.core.value.plan }
    ensures checkpoint { kept.new.core.value.checkpoint ≡ kept.old.core.value.checkpoint }
    ensures legal { IsLegal kept.old.core.value.plan (base_of kept.old.core.value) kept.old.core.value.past }
    ensures did { DidLine stamp line.now result reply.new kept.old.core.value.plan (base_of kept.old.core.value) kept.old.core.value.past kept.new.core.value.past }
{
    let _len = kept.core.len();
    match kept.core.step(Event::Command { stamp, line }) {
        Stepped::Done(_) | Stepped::Nothing => {
            kept.core.reply(reply);
            true
        }
        Stepped::Full { len: _ } => {
            end_pass(kept, Who::Control, How::Paused);
            false
        }
    }
}

/// Pauses the pass of an input where there is no room for another one. The answer is whether it was paused; else nothing has
/// changed. O(1).
pub fn pause_if_full(kept: &mut KeptCore, who: Who) -> bool
    requires open { IsOpen kept.old.core.value.plan (base_of kept.old.core.value) kept.old.core.value.past who }
    requires input { IsInputPass who }
    ensures plan { kept.new.core.value.plan ≡ kept.old.core.value.plan }
    ensures checkpoint { kept.new.core.value.checkpoint ≡ kept.old.core.value.checkpoint }
    ensures legal { IsLegal kept.old.core.value.plan (base_of kept.old.core.value) kept.old.core.value.past }
    ensures did { DidLook who result kept.old.core.value.plan (base_of kept.old.core.value) kept.old.core.value.past kept.new.core.value.past }
{
    let _len = kept.core.len();
    if !kept.core.full() {
        return false;
    }
    end_pass(kept, who, How::Paused);
    true
}

/// Ends a pass. O(1) beside what waits at a port whose egress ends, which is given up.
pub fn end_pass(kept: &mut KeptCore, who: Who, how: How)
    requires open { IsOpen kept.old.core.value.plan (base_of kept.old.core.value) kept.old.core.value.past who }
    requires may { MayEnd kept.old.core.value.plan (base_of kept.old.core.value) kept.old.core.value.past who how }
    ensures plan { kept.new.core.value.plan ≡ kept.old.core.value.plan }
    ensures checkpoint { kept.new.core.value.checkpoint ≡ kept.old.core.value.checkpoint }
    ensures legal { IsLegal kept.old.core.value.plan (base_of kept.old.core.value) kept.old.core.value.past }
    ensures did { DidEnd who how kept.old.core.value.plan (base_of kept.old.core.value) kept.old.core.value.past kept.new.core.value.past }
{
    let _len = kept.core.len();
    let _entry = kept.core.step(Event::End { who, how });
}

/// Lets time pass to this stamp (ms). Where nothing was due, or there is no room for a tick, and no input may come any
/// more, the ticker ends, and it is paused where an input is. It costs what `Core::step` costs.
pub fn tick(kept: &mut KeptCore, stamp: u64) -> TickTurn
    requires open { IsOpen kept.old.core.value.plan (base_of kept.old.core.value) kept.old.core.value.past Ticker }
    ensures plan { kept.new.core.value.plan ≡ kept.old.core.value.plan }
    ensures checkpoint { kept.new.core.value.checkpoint ≡ kept.old.core.value.checkpoint }
    ensures legal { IsLegal kept.old.core.value.plan (base_of kept.old.core.value) kept.old.core.value.past }
    ensures did { DidTick stamp result kept.old.core.value.plan (base_of kept.old.core.value) kept.old.core.value.past kept.new.core.value.past }
{
    let _len = kept.core.len();
    match kept.core.step(Event::Tick { stamp }) {
        Stepped::Done(_) => TickTurn::Made,
        Stepped::Nothing | Stepped::Full { len: _ } => {
            if has_input(&kept.core) {
                return passed_over(&kept.core);
            }
            let how = last_reason(&kept.core);
            end_pass(kept, Who::Ticker, how);
            TickTurn::Ended
        }
    }
}

/// Takes all that waits at a port into the batch, in place of what it held. It ends the egress of the port where nothing
/// waits and nothing may be queued any more; it is paused where an input is. It costs what `Core::drain` costs.
pub fn drain(kept: &mut KeptCore, port: Port, batch: &mut Batch) -> DrainTurn
    requires open { IsOpen kept.old.core.value.plan (base_of kept.old.core.value) kept.old.core.value.past (Egress port) }
    ensures plan { kept.new.core.value.plan ≡ kept.old.core.value.plan }
    ensures checkpoint { kept.new.core.value.checkpoint ≡ kept.old.core.value.checkpoint }
    ensures legal { IsLegal kept.old.core.value.plan (base_of kept.old.core.value) kept.old.core.value.past }
    ensures did { DidDrain port batch.new result kept.old.core.value.plan (base_of kept.old.core.value) kept.old.core.value.past kept.new.core.value.past }
{
    let _stored = kept.core.history();
    let _len = kept.core.len();
    match kept.core.drain(port, DEPTH_MOST, batch) {
        Stepped::Done(_) | Stepped::Full { len: _ } => DrainTurn::Took,
        Stepped::Nothing => {
            if may_queue(&kept.core) {
                return DrainTurn::Idle;
            }
            let how = last_reason(&kept.core);
            end_pass(kept, Who::Egress(port), how);
            DrainTurn::Ended
        }
    }
}

// What came of a tick that was passed over while an input may still come.
fn passed_over(core: &Core) -> TickTurn
    ensures { MatchBool (has_room core.now.plan core.now.past) (result ≡ Idle) (result ≡ Full) }
{
    if core.full() {
        TickTurn::Full
    } else {
        TickTurn::Idle
    }
}

// Why the ticker and the outputs end.
fn last_reason(core: &Core) -> How
    ensures { result ≡ closing core.now.past }
{
    if core.has_pause() {
        How::Paused
    } else {
        How::End
    }
}

// Whether an input may still come.
fn has_input(core: &Core) -> bool
    ensures { MatchBool result (¬ InputsEnded core.now.plan (base_of core.now) core.now.past) (InputsEnded core.now.plan (base_of core.now) core.now.past) }
{
    core.inputs_left() > 0
}

// Whether anything may still be queued: an input hasn't ended, or the ticker.
fn may_queue(core: &Core) -> bool
    ensures { MatchBool result (MayQueue core.now.plan (base_of core.now) core.now.past) (AllEnded (base_of core.now) (ticker_pass core.now.plan + 1) core.now.past) }
{
    has_input(core) || !core.ended(Who::Ticker)
}
