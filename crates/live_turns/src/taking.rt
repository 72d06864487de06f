//! The turns at the lock, by kind. Each tells the gate, waits until the pass is let in, and makes at most one entry; what a
//! pass writes or reads it writes or reads outside of them. They take no memory, and nothing is promised of how long a turn
//! is waited for.

ghost use Rattle.std.specs.Prelude.{◌≤◌, List, length, not};
ghost use Rattle.savi_kinds.specs.declared.entry.Who.TheVariants.{Control, Egress, Ticker};
ghost use Rattle.hist_store.specs.Rows.{Row};
ghost use Rattle.savi_history.specs.Legal.{MayEnd};
ghost use Rattle.savi_core.specs.Steps.{IsSeenRightly, event_of};
ghost use Rattle.live_turns.specs.Seats.{IsEndedPass, IsAt, IsRunning, lock_base, lock_plan};
ghost use Rattle.live_turns.specs.TurnKinds.{DidDrain, DidEnd, DidInput, DidLine, DidLook, DidTick};
ghost use Rattle.live_turns.specs.TurnKinds.{IsFrame, IsInputPass, ends_egress, ends_ticker, maker_of};
ghost use Rattle.live_turns.specs.Turned.{Turned};
ghost use Rattle.live_turns.specs.Wakes.{Wakes};

use crate::gate::Gate;
use crate::kinds::{DrainTurn, TickTurn};
use crate::turns::Turns;
use crate::under_lock::{drain, end_pass, enter_frame, enter_line, pause_if_full, tick};
use crate::waking::{wake_after, wake_all, wake_all_if, wake_outputs};
use arrayvec::ArrayVec;
use core_keep::KeptCore;
use savi_core::{Batch, Event, Reply};
use savi_kinds::{How, Port, Who};
use std::sync::Wait;
use table_lock::TableLock;

/// One turn of an ingress: enters a frame, which is an `Event::Frame`, or an `Event::Long` where it has more than 1,518
/// octets. Where there is no room for it the pass is paused, in the same turn. The answer is the pass again, and
/// whether the frame was entered. It costs what `Core::step` costs.
pub fn frame_turn<R: Wait, G: Gate>(
    rt: &R,
    lock: &TableLock<KeptCore>,
    gate: &G,
    turns: Turns,
    event: Event<'_>,
) -> (Turns, bool)
    requires running { IsRunning lock.now (maker_of (event_of event)) turns.pass }
    requires frame { IsFrame (event_of event) }
    requires seen { IsSeenRightly event }
    ensures turned { Turned lock.now (maker_of (event_of event.entry)) turns.pass result.0.pass (DidInput (event_of event.entry) result.1) }
    ensures wakes { Turned lock.now (maker_of (event_of event.entry)) turns.pass result.0.pass (Wakes (DidInput (event_of event.entry) result.1) result.0.woken.items) }
    ensures state { IsAt lock.now (maker_of (event_of event.entry)) (not result.1) result.0.pass }
{
    let turn = turns.announce(rt, gate);
    let mut held = lock.enter(rt, turns.into_pass());
    let (entered, queued) = enter_frame(held.value(), event);
    let pass = held.leave();
    let woken = wake_outputs(lock, &pass, queued);
    (Turns::after(pass, turn, woken), entered)
}

/// One turn of control: enters a line, and puts the reply to it into `reply`, in place of what it held. Where there is no
/// room for the line, control is paused, in the same turn. The answer is the pass again, and whether the line was
/// entered. It costs what `Core::step` and `Core::reply` cost.
pub fn line_turn<R: Wait, G: Gate>(
    rt: &R,
    lock: &TableLock<KeptCore>,
    gate: &G,
    turns: Turns,
    stamp: u64,
    line: &[u8],
    reply: &mut Reply,
) -> (Turns, bool)
    requires running { IsRunning lock.now Control turns.pass }
    requires short { length line.now ≤ 120 }
    ensures turned { Turned lock.now Control turns.pass result.0.pass (DidLine stamp line.now result.1 reply.new) }
    ensures wakes { Turned lock.now Control turns.pass result.0.pass (Wakes (DidLine stamp line.now result.1 reply.new) result.0.woken.items) }
    ensures state { IsAt lock.now Control (not result.1) result.0.pass }
{
    let turn = turns.announce(rt, gate);
    let mut held = lock.enter(rt, turns.into_pass());
    let entered = enter_line(held.value(), stamp, line, reply);
    let pass = held.leave();
    let woken = wake_all(lock, &pass);
    (Turns::after(pass, turn, woken), entered)
}

/// One turn that ends a pass for a reason that may come whatever the history is: that of an input, or of an egress whose
/// sink failed. The answer is the pass again. O(1) beside what waits at a port whose egress ends, which is given up.
pub fn end_turn<R: Wait, G: Gate>(
    rt: &R,
    lock: &TableLock<KeptCore>,
    gate: &G,
    turns: Turns,
    who: Who,
    how: How,
) -> Turns
    requires running { IsRunning lock.now who turns.pass }
    requires may { (past : List Row) → MayEnd (lock_plan lock.now) (lock_base lock.now) past who how }
    ensures turned { Turned lock.now who turns.pass result.pass (DidEnd who how) }
    ensures wakes { Turned lock.now who turns.pass result.pass (Wakes (DidEnd who how) result.woken.items) }
    ensures ended { IsEndedPass lock.now who result.pass }
{
    let turn = turns.announce(rt, gate);
    let mut held = lock.enter(rt, turns.into_pass());
    end_pass(held.value(), who, how);
    let pass = held.leave();
    let woken = wake_all(lock, &pass);
    Turns::after(pass, turn, woken)
}

/// One turn of an input that has nothing to enter: its pass is paused where there is no room for another input; else nothing
/// is done. The answer is the pass again, and whether it was paused. O(1).
pub fn pause_turn<R: Wait, G: Gate>(
    rt: &R,
    lock: &TableLock<KeptCore>,
    gate: &G,
    turns: Turns,
    who: Who,
) -> (Turns, bool)
    requires running { IsRunning lock.now who turns.pass }
    requires input { IsInputPass who }
    ensures turned { Turned lock.now who turns.pass result.0.pass (DidLook who result.1) }
    ensures wakes { Turned lock.now who turns.pass result.0.pass (Wakes (DidLook who result.1) result.0.woken.items) }
    ensures state { IsAt lock.now who result.1 result.0.pass }
{
    let turn = turns.announce(rt, gate);
    let mut held = lock.enter(rt, turns.into_pass());
    let paused = pause_if_full(held.value(), who);
    let pass = held.leave();
    let woken = wake_all_if(lock, &pass, paused);
    (Turns::after(pass, turn, woken), paused)
}

/// One turn of the ticker, whose clock reads `stamp` (ms): makes a tick where an address has another state by then, and
/// there is room. Where it makes none and no input may come any more the ticker ends, in the same turn; it is paused where
/// an input is. The answer is the pass again, and what came of the turn. It costs what `Core::step` costs.
pub fn tick_turn<R: Wait, G: Gate>(
    rt: &R,
    lock: &TableLock<KeptCore>,
    gate: &G,
    turns: Turns,
    stamp: u64,
) -> (Turns, TickTurn)
    requires running { IsRunning lock.now Ticker turns.pass }
    ensures turned { Turned lock.now Ticker turns.pass result.0.pass (DidTick stamp result.1) }
    ensures wakes { Turned lock.now Ticker turns.pass result.0.pass (Wakes (DidTick stamp result.1) result.0.woken.items) }
    ensures state { IsAt lock.now Ticker (ends_ticker result.1) result.0.pass }
{
    let turn = turns.announce(rt, gate);
    let mut held = lock.enter(rt, turns.into_pass());
    let came = tick(held.value(), stamp);
    let pass = held.leave();
    let woken = wake_after(lock, &pass, came);
    (Turns::after(pass, turn, woken), came)
}

/// One turn of the egress of a port: takes all that waits there into the batch, in place of what it held. Where nothing
/// waits and nothing may be queued any more the egress ends, in the same turn; it is paused where an input is. The answer is
/// the pass again, and what came of the turn. It costs what `Core::drain` costs.
pub fn drain_turn<R: Wait, G: Gate>(
    rt: &R,
    lock: &TableLock<KeptCore>,
    gate: &G,
    turns: Turns,
    port: Port,
    batch: &mut Batch,
) -> (Turns, DrainTurn)
    requires running { IsRunning lock.now (Egress port) turns.pass }
    ensures turned { Turned lock.now (Egress port) turns.pass result.0.pass (DidDrain port batch.new result.1) }
    ensures wakes { Turned lock.now (Egress port) turns.pass result.0.pass (Wakes (DidDrain port batch.new result.1) result.0.woken.items) }
    ensures state { IsAt lock.now (Egress port) (ends_egress result.1) result.0.pass }
{
    let turn = turns.announce(rt, gate);
    let mut held = lock.enter(rt, turns.into_pass());
    let came = drain(held.value(), port, batch);
    (Turns::after(held.leave(), turn, ArrayVec::new()), came)
}
