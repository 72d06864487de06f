//! A line that is entered, and the reply to it; and how control's input ended.

ghost use Rattle.std.specs.Prelude.{◌≡◌, ◌≤◌, length};
ghost use Rattle.savi_kinds.specs.declared.entry.Who.TheVariants.{Control};
ghost use Rattle.cli_lang.specs.CommandOf.{command_of};
ghost use Rattle.savi_history.specs.ControlInputs.{is_quit_command};
ghost use Rattle.savi_history.specs.Legal.{IsLegal, IsOpen};
ghost use Rattle.savi_history.specs.Passes.{control_pass};
ghost use Rattle.savi_core.specs.Machines.{base_of};
ghost use Rattle.core_keep.specs.Seen.{past_seen};
ghost use Rattle.control_reader.specs.Heard.{reason_of};
ghost use Rattle.live_turns.specs.Rounds.{MadeBy};
ghost use Rattle.live_turns.specs.Seats.{IsAt, IsRunning, lock_base, lock_plan};
ghost use Rattle.live_control.specs.LineTurns.{AnswersLine, EndsControl, TellsSameLines, line_told};
ghost use Rattle.live_control.specs.Replying.{TakesReply};
ghost use Rattle.live_control.specs.States.{IsUnended, has_stopped_answering};
ghost use Rattle.live_control.specs.declared.state.ControlState.TheVariants as states;

use crate::state::ControlState;
use control_reader::{LinesEnd, is_quit};
use core_keep::KeptCore;
use live_turns::{Gate, Turns, end_pass, end_turn, enter_line, line_turn, pause_turn};
use savi_core::Reply;
use savi_ends::{Put, Sink};
use savi_kinds::{How, Who};
use std::sync::Wait;
use table_lock::TableLock;

/// Enters a line in one turn, which puts the reply to it into `reply`, and writes that behind the turn. Control is paused
/// where there is no room for the line, and ends where the reply can't be written, and behind `quit`. The answer is the pass
/// again, and how control stands.
pub(crate) fn answer<K: Sink, R: Wait, G: Gate>(
    rt: &R,
    lock: &TableLock<KeptCore>,
    gate: &G,
    turns: Turns,
    stamp: u64,
    line: &[u8],
    reply: &mut Reply,
    sink: &mut K,
) -> (Turns, ControlState)
    requires short { length line.now ≤ 120 }
    requires running { IsRunning lock.now Control turns.pass }
    ensures state { IsAt lock.now Control (has_stopped_answering result.1) result.0.pass }
    ensures answers { AnswersLine K.written K.faults (lock_plan lock.now) (lock_base lock.now) (line_told stamp line.now) result.1 (past_seen turns.pass) (past_seen result.0.pass) sink.old sink.new }
{
    let (turns, entered) = line_turn(rt, lock, gate, turns, stamp, line, reply);
    if !entered {
        return (turns, ControlState::Paused);
    }
    match reply_to(line, reply, sink) {
        None => (turns, ControlState::Open),
        Some(how) => {
            let turns = end_turn(rt, lock, gate, turns, Who::Control, how);
            (turns, ControlState::Ended(how))
        }
    }
}

/// Enters a line and writes the reply to it, as `answer` does, by a thread that has the core alone. The answer is how
/// control stands.
pub(crate) fn answer_now<K: Sink>(
    core: &mut KeptCore,
    stamp: u64,
    line: &[u8],
    reply: &mut Reply,
    sink: &mut K,
) -> ControlState
    requires short { length line.now ≤ 120 }
    requires open { IsOpen core.old.core.value.plan (base_of core.old.core.value) core.old.core.value.past Control }
    ensures plan { core.new.core.value.plan ≡ core.old.core.value.plan }
    ensures checkpoint { core.new.core.value.checkpoint ≡ core.old.core.value.checkpoint }
    ensures legal { IsLegal core.old.core.value.plan (base_of core.old.core.value) core.old.core.value.past }
    ensures made { MadeBy (control_pass core.old.core.value.plan) core.old.core.value.past core.new.core.value.past }
    ensures answers { AnswersLine K.written K.faults core.old.core.value.plan (base_of core.old.core.value) (line_told stamp line.now) result core.old.core.value.past core.new.core.value.past sink.old sink.new }
{
    let entered = enter_line(core, stamp, line, reply);
    if !entered {
        return ControlState::Paused;
    }
    match reply_to(line, reply, sink) {
        None => ControlState::Open,
        Some(how) => {
            end_pass(core, Who::Control, how);
            ControlState::Ended(how)
        }
    }
}

/// Enters in one turn how control's input ended. The answer is the pass again, and that control has ended so. O(1).
pub(crate) fn enter_ending<R: Wait, G: Gate>(
    rt: &R,
    lock: &TableLock<KeptCore>,
    gate: &G,
    turns: Turns,
    end: LinesEnd,
) -> (Turns, ControlState)
    requires { IsRunning lock.now Control turns.pass }
    ensures ended { EndsControl (lock_plan lock.now) (lock_base lock.now) (reason_of end) (past_seen turns.pass) (past_seen result.0.pass) }
    ensures so { result.1 ≡ states.Ended (reason_of end) }
    ensures state { IsAt lock.now Control (has_stopped_answering result.1) result.0.pass }
{
    let how = end.reason();
    let turns = end_turn(rt, lock, gate, turns, Who::Control, how);
    (turns, ControlState::Ended(how))
}

/// Looks in one turn whether there is room for another input, and pauses control where there is none. The answer is the pass
/// again, and how control stands: it hasn't ended. O(1).
pub(crate) fn look_for_room<R: Wait, G: Gate>(
    rt: &R,
    lock: &TableLock<KeptCore>,
    gate: &G,
    turns: Turns,
) -> (Turns, ControlState)
    requires { IsRunning lock.now Control turns.pass }
    ensures same { TellsSameLines (lock_plan lock.now) (lock_base lock.now) (past_seen turns.pass) (past_seen result.0.pass) }
    ensures unended { IsUnended result.1 }
    ensures state { IsAt lock.now Control (has_stopped_answering result.1) result.0.pass }
{
    let (turns, is_paused) = pause_turn(rt, lock, gate, turns, Who::Control);
    (turns, ControlState::behind(!is_paused))
}

// Writes the reply to a line, in one write. The answer is why control ends behind it, where it does.
fn reply_to<K: Sink>(line: &[u8], reply: &Reply, sink: &mut K) -> Option<How>
    ensures took { TakesReply (is_quit_command (command_of line.now)) (K.written sink.old) (K.written sink.new) (K.faults sink.old) (K.faults sink.new) reply.now result }
    ensures later { K.faults sink.old ≤ K.faults sink.new }
{
    match sink.write(reply.octets()) {
        Put::Failed => Some(How::Unwritten),
        Put::Done if is_quit(line) => Some(How::Quit),
        Put::Done => None,
    }
}
