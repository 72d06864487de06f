//! What is done of control's lines.

ghost use Rattle.std.specs.Prelude.{◌≡◌, false, List, ◌∷◌, ◌++◌, None, Some};
ghost use Rattle.savi_kinds.specs.declared.entry.Who.TheVariants.{Control};
ghost use Rattle.savi_kinds.specs.declared.plan.Plan.{Plan};
ghost use Rattle.hist_store.specs.Rows.{Row};
ghost use Rattle.savi_segments.specs.Segments.{base_after};
ghost use Rattle.core_keep.specs.Seen.{past_seen};
ghost use Rattle.intake_ring.specs.Sides.{taker_ring};
ghost use Rattle.control_reader.specs.Answered.{waiting_line};
ghost use Rattle.control_reader.specs.Heard.{HeardLine, Said, line_heard_of, lines_taken};
ghost use Rattle.live_turns.specs.Seats.{IsAt, IsEndedPass, IsRunning, lock_base, lock_plan};
ghost use Rattle.live_control.specs.LineTurns.{line_told};
ghost use Rattle.live_control.specs.States.{has_stopped_answering, is_unwritten, kept_line_behind};

use crate::answering::{answer, enter_ending, look_for_room};
use crate::state::ControlState;
use arrayvec::ArrayVec;
use control_reader::{LineArrival, is_quit};
use core_keep::KeptCore;
use intake_ring::Taker;
use live_turns::{Gate, PauseSignal, Turns};
use savi_core::Reply;
use savi_ends::Sink;
use savi_kinds::CONTROL_LINE_OCTETS;
use std::sync::Wait;
use table_lock::TableLock;

/// So many lines are passed over in a round at most.
const PASSED_IN_A_ROUND: u32 = 64;

/// What control's worker has of control: the end of its ring at which lines are taken, the line that waits for room, where
/// one does, and the sink of the replies; and whether what comes is passed over, since a reply couldn't be written.
#[derive(Drop)]
pub struct ControlSide<K> {
    pub taker: Taker<LineArrival>,
    pub kept: Option<LineArrival>,
    pub sink: K,
    pub passes_over: bool,
}

impl<K: Sink> ControlSide<K> {
    ghost use Rattle.live_control.specs.Sides.{ControlGoes, SideGoes, SideStands, StandsAs, heard_in};

    // Answers what comes, until control has ended in this segment.
    pub(crate) fn serve<R: Wait, G: Gate>(
        &mut self,
        rt: &R,
        lock: &TableLock<KeptCore>,
        gate: &G,
        signal: &PauseSignal,
        turns: Turns,
        reply: &mut Reply,
    ) -> Turns
        requires { IsRunning lock.now Control turns.pass }
        ensures ring { taker_ring self.new.taker ≡ taker_ring self.old.taker }
        ensures ended { IsEndedPass lock.now Control result.pass }
        ensures stands { (before : List (List Row)) (first : K) → lock_base lock.now ≡ base_after (lock_plan lock.now) before
            → SideGoes K.written K.faults (lock_plan lock.now) (past_seen turns.pass ∷ before) first self.old
            → SideStands K.written K.faults (lock_plan lock.now) (past_seen result.pass ∷ before) first self.new }
    {
        let mut turns = turns;
        for _ in rt.forever() {
            let (next, state) = self.step(rt, lock, gate, signal, turns, reply);
            turns = next;
            if state.has_stopped() {
                return turns;
            }
        }
        unreachable!()
    }

    // Answers in one turn what is kept or comes next. Where nothing has come, looks for room in one turn if the signal is
    // raised, and else does nothing. The answer is the pass again, and how control stands.
    fn step<R: Wait, G: Gate>(
        &mut self,
        rt: &R,
        lock: &TableLock<KeptCore>,
        gate: &G,
        signal: &PauseSignal,
        turns: Turns,
        reply: &mut Reply,
    ) -> (Turns, ControlState)
        requires { IsRunning lock.now Control turns.pass }
        ensures ring { taker_ring self.new.taker ≡ taker_ring self.old.taker }
        ensures state { IsAt lock.now Control (has_stopped_answering result.1) result.0.pass }
        ensures goes { (before : List (List Row)) (first : K) → lock_base lock.now ≡ base_after (lock_plan lock.now) before
            → SideGoes K.written K.faults (lock_plan lock.now) (past_seen turns.pass ∷ before) first self.old
            → StandsAs K.written K.faults (lock_plan lock.now) (past_seen result.0.pass ∷ before) result.1 first self.new }
    {
        match self.next(rt) {
            Some(came) => self.enter(rt, lock, gate, signal, turns, reply, came),
            None if signal.is_raised() => look_for_room(rt, lock, gate, turns),
            None => (turns, ControlState::Open),
        }
    }

    // Enters in one turn what came, and answers a line. The answer is the pass again, and how control stands.
    fn enter<R: Wait, G: Gate>(
        &mut self,
        rt: &R,
        lock: &TableLock<KeptCore>,
        gate: &G,
        signal: &PauseSignal,
        turns: Turns,
        reply: &mut Reply,
        came: LineArrival,
    ) -> (Turns, ControlState)
        requires running { IsRunning lock.now Control turns.pass }
        requires unkept { self.old.kept ≡ None }
        ensures ring { taker_ring self.new.taker ≡ taker_ring self.old.taker }
        ensures state { IsAt lock.now Control (has_stopped_answering result.1) result.0.pass }
        ensures goes { (before : List (List Row)) (first : K) → lock_base lock.now ≡ base_after (lock_plan lock.now) before
            → self.old.passes_over ≡ false
            → ControlGoes K.written K.faults (lock_plan lock.now) (past_seen turns.pass ∷ before) (lines_taken self.old.taker) (Some (line_heard_of came)) first self.old.sink
            → StandsAs K.written K.faults (lock_plan lock.now) (past_seen result.0.pass ∷ before) result.1 first self.new }
    {
        match came {
            LineArrival::Line { stamp, octets } => {
                let line = octets.as_slice();
                let (turns, state) = answer(
                    rt,
                    lock,
                    gate,
                    turns,
                    stamp,
                    line,
                    reply,
                    &mut self.sink,
                );
                self.settle(stamp, octets, state);
                if matches!(state, ControlState::Paused) {
                    signal.raise(gate);
                }
                (turns, state)
            }
            LineArrival::End(end) => enter_ending(rt, lock, gate, turns, end),
        }
    }

    // What is kept, or else what comes next, for which it waits asleep. Nothing is kept then.
    fn next<R: Wait>(&mut self, rt: &R) -> Option<LineArrival>
        ensures ring { taker_ring self.new.taker ≡ taker_ring self.old.taker }
        ensures sink { self.new.sink ≡ self.old.sink }
        ensures passes { self.new.passes_over ≡ self.old.passes_over }
        ensures unkept { self.new.kept ≡ None }
        ensures next { (entered : List HeardLine) → lines_taken self.old.taker ≡ entered ++ waiting_line (heard_in self.old.kept)
            → lines_taken self.new.taker ≡ entered ++ waiting_line (heard_in result) }
    {
        match self.kept.take() {
            Some(came) => Some(came),
            None => self.taker.take(rt),
        }
    }

    // The same, without a wait: what is kept, or else what is there.
    pub(crate) fn next_now<R: Wait>(&mut self, rt: &R) -> Option<LineArrival>
        ensures ring { taker_ring self.new.taker ≡ taker_ring self.old.taker }
        ensures sink { self.new.sink ≡ self.old.sink }
        ensures passes { self.new.passes_over ≡ self.old.passes_over }
        ensures unkept { self.new.kept ≡ None }
        ensures next { (entered : List HeardLine) → lines_taken self.old.taker ≡ entered ++ waiting_line (heard_in self.old.kept)
            → lines_taken self.new.taker ≡ entered ++ waiting_line (heard_in result) }
    {
        match self.kept.take() {
            Some(came) => Some(came),
            None => self.taker.try_take(rt),
        }
    }

    // Keeps a line for which there was no room, and passes over what comes where the reply to it couldn't be written.
    pub(crate) fn settle(
        &mut self,
        stamp: u64,
        octets: ArrayVec<u8, CONTROL_LINE_OCTETS>,
        state: ControlState,
    )
        requires { self.old.kept ≡ None }
        ensures taker { self.new.taker ≡ self.old.taker }
        ensures sink { self.new.sink ≡ self.old.sink }
        ensures kept { heard_in self.new.kept ≡ kept_line_behind state (Said (line_told stamp octets.items)) }
        ensures passes { self.new.passes_over ≡ is_unwritten state }
    {
        match state {
            ControlState::Paused => self.kept = Some(LineArrival::Line { stamp, octets }),
            ControlState::Open | ControlState::Ended(_) => {}
        }
        self.passes_over = state.is_unwritten();
    }

    // Passes over what comes (`ControlWorker::pass_over`).
    pub(crate) fn pass_over<R: Wait>(&mut self, rt: &R, signal: &PauseSignal)
        ensures ring { taker_ring self.new.taker ≡ taker_ring self.old.taker }
        ensures stands { (plan : Plan) (segments : List (List Row)) (first : K) → SideStands K.written K.faults plan segments first self.old
            → SideStands K.written K.faults plan segments first self.new }
    {
        for _ in rt.forever() {
            if !self.passes_over || signal.is_raised() {
                return;
            }
            if let Some(came) = self.taker.take(rt) {
                self.passes_over = !is_last(&came);
            }
        }
        unreachable!()
    }

    // Passes over what is there, without a wait.
    pub(crate) fn pass_over_now<R: Wait>(&mut self, rt: &R)
        ensures ring { taker_ring self.new.taker ≡ taker_ring self.old.taker }
        ensures stands { (plan : Plan) (segments : List (List Row)) (first : K) → SideStands K.written K.faults plan segments first self.old
            → SideStands K.written K.faults plan segments first self.new }
    {
        for _ in 0..PASSED_IN_A_ROUND {
            if !self.passes_over {
                return;
            }
            let Some(came) = self.taker.try_take(rt) else {
                return;
            };
            self.passes_over = !is_last(&came);
        }
    }
}

// Whether nothing comes behind this of control's input.
fn is_last(came: &LineArrival) -> bool {
    match came {
        LineArrival::Line { stamp: _, octets } => is_quit(octets.as_slice()),
        LineArrival::End(_) => true,
    }
}
