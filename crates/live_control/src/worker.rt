//! The worker at the lock.

ghost use Rattle.std.specs.Prelude.{◌≡◌, List, ◌∷◌, Option};
ghost use Rattle.savi_kinds.specs.declared.entry.Who.TheVariants.{Control};
ghost use Rattle.savi_kinds.specs.declared.plan.Plan.{Plan};
ghost use Rattle.hist_store.specs.Rows.{Row};
ghost use Rattle.savi_segments.specs.Segments.{AreLegal, base_after};
ghost use Rattle.core_keep.specs.Seen.{past_seen};
ghost use Rattle.live_turns.specs.Seats.{IsEndedPass, IsNewPass, lock_base, lock_plan};
ghost use Rattle.live_control.specs.Sides.{WorkerStands, worker_ring};

use crate::side::ControlSide;
use core_keep::KeptCore;
use live_turns::{Gate, PauseSignal, Turns, end_turn};
use savi_core::Reply;
use savi_ends::Sink;
use savi_kinds::{How, Who};
use std::sync::Wait;
use table_lock::{Pass, TableLock};

/// What control's worker has of control, where it is there, with room for a reply. It takes no memory.
#[derive(Drop)]
pub struct ControlWorker<K> {
    pub ends: Option<ControlSide<K>>,
    /// What it holds doesn't matter.
    pub reply: Reply,
}

impl<K: Sink> ControlWorker<K> {
    /// Works on one segment: takes what comes, enters each line in a turn of its own, in their order, and writes the reply
    /// to each in one write, outside the lock. Control ends as its input does; behind `quit`, and behind a line whose
    /// reply couldn't be written, behind which it passes over what comes (`pass_over`). Without control its end is all.
    /// The answer is the worker again, and control's pass, which has ended in the segment.
    ///
    /// Where there is no room for a line, control is paused instead, the line is kept for the next segment, and the signal
    /// is raised. Where the signal is raised and nothing has come, control is paused too, if there is no room.
    pub fn run<R: Wait, G: Gate>(
        self,
        rt: &R,
        lock: &TableLock<KeptCore>,
        gate: &G,
        signal: &PauseSignal,
        pass: Pass,
    ) -> (ControlWorker<K>, Pass)
        requires { IsNewPass lock.now Control pass }
        ensures ring { worker_ring result.0.ends ≡ worker_ring self.ends }
        ensures ended { IsEndedPass lock.now Control result.1 }
        ensures stands { (before : List (List Row)) (first : Option K) → AreLegal (lock_plan lock.now) before
            → lock_base lock.now ≡ base_after (lock_plan lock.now) before
            → WorkerStands K.written K.faults (lock_plan lock.now) before first self.ends
            → WorkerStands K.written K.faults (lock_plan lock.now) (past_seen result.1 ∷ before) first result.0.ends }
    {
        let ControlWorker { ends, mut reply } = self;
        let turns = Turns::new(pass);
        match ends {
            None => {
                let turns = end_turn(rt, lock, gate, turns, Who::Control, How::End);
                (ControlWorker { ends: None, reply }, turns.into_pass())
            }
            Some(mut side) => {
                let turns = side.serve(rt, lock, gate, signal, turns, &mut reply);
                side.pass_over(rt, signal);
                let ends = Some(side);
                (ControlWorker { ends, reply }, turns.into_pass())
            }
        }
    }

    /// Where control has ended by a reply that couldn't be written, takes what its reader puts and passes it over, up to
    /// the end of the input or to `quit`, or until the signal is raised. So the reader never waits for room for good.
    /// Where nothing has come it waits asleep.
    pub fn pass_over<R: Wait>(&mut self, rt: &R, signal: &PauseSignal)
        ensures ring { worker_ring self.new.ends ≡ worker_ring self.old.ends }
        ensures stands { (plan : Plan) (segments : List (List Row)) (first : Option K)
            → WorkerStands K.written K.faults plan segments first self.old.ends → WorkerStands K.written K.faults plan segments first self.new.ends }
    {
        if let Some(side) = &mut self.ends {
            side.pass_over(rt, signal);
        }
    }
}
