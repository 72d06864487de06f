//! Turns that enter what came in at a port.

ghost use Rattle.std.specs.Prelude.{List, not};
ghost use Rattle.savi_kinds.specs.Ports.{number_of};
ghost use Rattle.savi_kinds.specs.declared.entry.Who.TheVariants.{Ingress};
ghost use Rattle.hist_store.specs.Rows.{Row};
ghost use Rattle.savi_history.specs.Legal.{MayEndIngress};
ghost use Rattle.savi_core.specs.Steps.{IsSeenRightly, event_of};
ghost use Rattle.core_keep.specs.Seen.{past_seen};
ghost use Rattle.parcel_ring.specs.Handed.{IsReadEnd};
ghost use Rattle.live_turns.specs.Seats.{IsEndedPass, IsAt, IsRunning, lock_plan};
ghost use Rattle.live_turns.specs.TurnKinds.{IsFrame, maker_of};
ghost use Rattle.live_input.specs.Entered.{EndsInput, EntersEvent, TellsSame};
ghost use Rattle.live_input.specs.Judged.{HasNotEnded, has_stopped};

use crate::state::InputState;
use core_keep::KeptCore;
use live_turns::{Gate, Turns, end_turn, frame_turn, pause_turn};
use savi_core::Event;
use savi_kinds::{How, Port, Who};
use std::sync::Wait;
use table_lock::TableLock;

/// Enters an arrival in one turn: an `Event::Frame` with what is seen of its octets, or an `Event::Long`. The answer is the
/// pass again, and whether the arrival was entered: the history holds it behind those that came before it at its port. Else
/// there was no room for it, and the input is paused. It costs what `Core::step` costs.
pub(crate) fn enter_arrival<R: Wait, G: Gate>(
    rt: &R,
    lock: &TableLock<KeptCore>,
    gate: &G,
    turns: Turns,
    event: Event<'_>,
) -> (Turns, bool)
    requires running { IsRunning lock.now (maker_of (event_of event)) turns.pass }
    requires frame { IsFrame (event_of event) }
    requires seen { IsSeenRightly event }
    ensures entered { EntersEvent (event_of event.entry) result.1 (past_seen turns.pass) (past_seen result.0.pass) }
    ensures state { IsAt lock.now (maker_of (event_of event.entry)) (not result.1) result.0.pass }
{
    frame_turn(rt, lock, gate, turns, event)
}

/// Enters in one turn how the input of a port ended. The answer is the pass again, which has ended. O(1).
pub(crate) fn enter_ending<R: Wait, G: Gate>(
    rt: &R,
    lock: &TableLock<KeptCore>,
    gate: &G,
    turns: Turns,
    port: Port,
    how: How,
) -> Turns
    requires running { IsRunning lock.now (Ingress port) turns.pass }
    requires ends { IsReadEnd how }
    requires may { (past : List Row) → MayEndIngress (lock_plan lock.now) past how }
    ensures entered { EndsInput (number_of port) how (past_seen turns.pass) (past_seen result.pass) }
    ensures ended { IsEndedPass lock.now (Ingress port) result.pass }
{
    end_turn(rt, lock, gate, turns, Who::Ingress(port), how)
}

/// Looks in one turn whether there is room for another input, and pauses that of the port where there is none. The answer is
/// the pass again, and how the input stands: it hasn't ended. O(1).
pub(crate) fn look_for_room<R: Wait, G: Gate>(
    rt: &R,
    lock: &TableLock<KeptCore>,
    gate: &G,
    turns: Turns,
    port: Port,
) -> (Turns, InputState)
    requires running { IsRunning lock.now (Ingress port) turns.pass }
    ensures same { TellsSame (number_of port) (past_seen turns.pass) (past_seen result.0.pass) }
    ensures unended { HasNotEnded result.1 }
    ensures state { IsAt lock.now (Ingress port) (has_stopped result.1) result.0.pass }
{
    let (turns, is_paused) = pause_turn(rt, lock, gate, turns, Who::Ingress(port));
    (turns, InputState::behind(!is_paused))
}
