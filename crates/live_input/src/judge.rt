//! The judge at the lock.

ghost use Rattle.std.specs.Prelude.{◌≡◌, List, ◌∷◌, ◌++◌, None, Some, box_value};
ghost use Rattle.savi_kinds.specs.declared.entry.Who.TheVariants as passes;
ghost use Rattle.savi_kinds.specs.Ports.{number_of};
ghost use Rattle.hist_store.specs.Rows.{Row};
ghost use Rattle.savi_segments.specs.Segments.{AreLegal, base_after};
ghost use Rattle.core_keep.specs.Seen.{past_seen};
ghost use Rattle.parcel_ring.specs.Handed.{Handed, MayBeHanded};
ghost use Rattle.parcel_ring.specs.Lent.{handed_by};
ghost use Rattle.parcel_ring.specs.Sides.{taker_rings, was_taken};
ghost use Rattle.port_reader.specs.Judging.{waiting};
ghost use Rattle.live_session.specs.Standing.{InputStands};
ghost use Rattle.live_turns.specs.Seats.{IsAt, IsEndedPass, IsNewPass, IsRunning, lock_base, lock_plan};
ghost use Rattle.live_input.specs.Judged.{InputGoes, JudgesOne, StandsAs, has_stopped, kept_behind, kept_of};

use crate::entering::{enter_arrival, enter_ending, look_for_room};
use crate::state::InputState;
use core_keep::KeptCore;
use frame_class::{Seen, see};
use live_turns::{Gate, PauseSignal, Turns};
use parcel_ring::{Arrival, Parcel, ParcelTaker};
use savi_core::Event;
use savi_kinds::Port;
use std::sync::Wait;
use table_lock::{Pass, TableLock};

/// The judge of a port: the port, the end of its ring at which arrivals are taken, and the arrival that waits for room,
/// where one does. It takes no memory.
#[derive(Drop)]
pub struct Ingress {
    pub port: Port,
    pub taker: ParcelTaker,
    pub kept: Option<Box<Parcel>>,
}

impl Ingress {
    /// Works on one segment: takes what comes, and enters each arrival in a turn of its own, in their order, and last how
    /// the input ended. A frame is classed outside the lock. Where nothing has come it waits asleep. The answer is the
    /// judge again, and its pass, which has ended in the segment.
    ///
    /// Where there is no room for an arrival, the input is paused instead, the arrival is kept for the next segment, and the
    /// signal is raised. Where the signal is raised and nothing has come, the input is paused too, if there is no room.
    pub fn run<R: Wait, G: Gate>(
        self,
        rt: &R,
        lock: &TableLock<KeptCore>,
        gate: &G,
        signal: &PauseSignal,
        pass: Pass,
    ) -> (Ingress, Pass)
        requires { IsNewPass lock.now (passes.Ingress self.port) pass }
        ensures port { result.0.port ≡ self.port }
        ensures rings { taker_rings result.0.taker ≡ taker_rings self.taker }
        ensures ended { IsEndedPass lock.now (passes.Ingress self.port) result.1 }
        ensures stands { (before : List (List Row)) → AreLegal (lock_plan lock.now) before
            → lock_base lock.now ≡ base_after (lock_plan lock.now) before
            → InputStands (number_of self.port) before (was_taken self.taker) (kept_of self.kept)
            → InputStands (number_of self.port) (past_seen result.1 ∷ before) (was_taken result.0.taker) (kept_of result.0.kept) }
    {
        let mut judge = self;
        let mut turns = Turns::new(pass);
        for _ in rt.forever() {
            let (next, state) = judge.step(rt, lock, gate, signal, turns);
            turns = next;
            if state.has_stopped() {
                return (judge, turns.into_pass());
            }
        }
        unreachable!()
    }

    // Judges in one turn what is kept or comes next. Where nothing has come, looks for room in one turn if the signal is
    // raised, and else does nothing. The answer is the pass again, and how the input stands.
    fn step<R: Wait, G: Gate>(
        &mut self,
        rt: &R,
        lock: &TableLock<KeptCore>,
        gate: &G,
        signal: &PauseSignal,
        turns: Turns,
    ) -> (Turns, InputState)
        requires running { IsRunning lock.now (passes.Ingress self.old.port) turns.pass }
        ensures port { self.new.port ≡ self.old.port }
        ensures rings { taker_rings self.new.taker ≡ taker_rings self.old.taker }
        ensures state { IsAt lock.now (passes.Ingress self.old.port) (has_stopped result.1) result.0.pass }
        ensures goes { (before : List (List Row))
            → InputGoes (number_of self.old.port) (past_seen turns.pass ∷ before) (was_taken self.old.taker) (kept_of self.old.kept)
            → StandsAs result.1 (number_of self.old.port) (past_seen result.0.pass ∷ before) (was_taken self.new.taker) (kept_of self.new.kept) }
    {
        match self.next(rt) {
            Some(parcel) => self.judge(rt, lock, gate, signal, turns, parcel),
            None if signal.is_raised() => look_for_room(rt, lock, gate, turns, self.port),
            None => (turns, InputState::Open),
        }
    }

    // What is kept, or else what comes next, for which it waits asleep. Nothing is kept then.
    fn next<R: Wait>(&mut self, rt: &R) -> Option<Box<Parcel>>
        ensures port { self.new.port ≡ self.old.port }
        ensures rings { taker_rings self.new.taker ≡ taker_rings self.old.taker }
        ensures unkept { self.new.kept ≡ None }
        ensures next { (entered : List Handed) → was_taken self.old.taker ≡ entered ++ waiting (kept_of self.old.kept)
            → was_taken self.new.taker ≡ entered ++ waiting (kept_of result) }
    {
        match self.kept.take() {
            Some(parcel) => Some(parcel),
            None => self.taker.take(rt),
        }
    }

    // Judges a parcel in one turn, and gives it back or keeps it. The answer is the pass again, and how the input stands.
    fn judge<R: Wait, G: Gate>(
        &mut self,
        rt: &R,
        lock: &TableLock<KeptCore>,
        gate: &G,
        signal: &PauseSignal,
        turns: Turns,
        parcel: Box<Parcel>,
    ) -> (Turns, InputState)
        requires running { IsRunning lock.now (passes.Ingress self.old.port) turns.pass }
        requires unkept { self.old.kept ≡ None }
        ensures port { self.new.port ≡ self.old.port }
        ensures rings { taker_rings self.new.taker ≡ taker_rings self.old.taker }
        ensures state { IsAt lock.now (passes.Ingress self.old.port) (has_stopped result.1) result.0.pass }
        ensures goes { (before : List (List Row))
            → InputGoes (number_of self.old.port) (past_seen turns.pass ∷ before) (was_taken self.old.taker) (Some (box_value parcel))
            → StandsAs result.1 (number_of self.old.port) (past_seen result.0.pass ∷ before) (was_taken self.new.taker) (kept_of self.new.kept) }
    {
        let (turns, state) = judge_one(rt, lock, gate, turns, self.port, parcel.arrival());
        self.settle(rt, parcel, state);
        if matches!(state, InputState::Paused) {
            signal.raise(gate);
        }
        (turns, state)
    }

    // Gives a parcel back that was judged, or keeps it where there was no room for it.
    pub(crate) fn settle<R: Wait>(&mut self, rt: &R, parcel: Box<Parcel>, state: InputState)
        requires { self.old.kept ≡ None }
        ensures port { self.new.port ≡ self.old.port }
        ensures rings { taker_rings self.new.taker ≡ taker_rings self.old.taker }
        ensures taken { was_taken self.new.taker ≡ was_taken self.old.taker }
        ensures kept { kept_of self.new.kept ≡ kept_behind state (box_value parcel) }
    {
        match state {
            InputState::Paused => self.kept = Some(parcel),
            InputState::Open | InputState::Ended => self.taker.give_back(rt, parcel),
        }
    }
}

// Enters what came at a port in one turn. The answer is the pass again, and how the input stands.
fn judge_one<R: Wait, G: Gate>(
    rt: &R,
    lock: &TableLock<KeptCore>,
    gate: &G,
    turns: Turns,
    port: Port,
    came: Arrival<'_>,
) -> (Turns, InputState)
    requires running { IsRunning lock.now (passes.Ingress port) turns.pass }
    requires may { MayBeHanded (handed_by came) }
    ensures state { IsAt lock.now (passes.Ingress port) (has_stopped result.1) result.0.pass }
    ensures judged { JudgesOne (number_of port) (handed_by came.entry) result.1 (past_seen turns.pass) (past_seen result.0.pass) }
{
    match came {
        Arrival::Frame { stamp, octets } => {
            let mut seen = Seen::nothing();
            see(octets, &mut seen);
            let frame = Event::Frame {
                port,
                stamp,
                octets,
                seen: &seen,
            };
            let (turns, is_entered) = enter_arrival(rt, lock, gate, turns, frame);
            (turns, InputState::behind(is_entered))
        }
        Arrival::Long { stamp, len } => {
            let long = Event::Long { port, stamp, len };
            let (turns, is_entered) = enter_arrival(rt, lock, gate, turns, long);
            (turns, InputState::behind(is_entered))
        }
        Arrival::End(how) => (
            enter_ending(rt, lock, gate, turns, port, how),
            InputState::Ended,
        ),
    }
}
