//! The worker of an output.

ghost use Rattle.std.specs.Prelude.{◌≡◌, ◌≤◌, true, false, [], ◌∷◌, List};
ghost use Rattle.savi_kinds.specs.Ports.{number_of};
ghost use Rattle.savi_kinds.specs.declared.entry.Who.TheVariants.{Egress};
ghost use Rattle.savi_ends.specs.declared.sink.Put.{Put};
ghost use Rattle.savi_ends.specs.Faults.{Rose};
ghost use Rattle.savi_ends.specs.Writes.{Extends};
ghost use Rattle.hist_store.specs.Rows.{Row};
ghost use Rattle.savi_history.specs.Legal.{IsLegal, IsOpen};
ghost use Rattle.savi_history.specs.Passes.{egress_pass};
ghost use Rattle.savi_segments.specs.Segments.{AreLegal, base_after};
ghost use Rattle.savi_core.specs.Machines.{base_of};
ghost use Rattle.core_keep.specs.Seen.{past_seen};
ghost use Rattle.live_session.specs.Standing.{OutputStands};
ghost use Rattle.live_turns.specs.Rounds.{MadeBy};
ghost use Rattle.live_turns.specs.Seats.{IsEndedPass, IsNewPass, IsRunning, lock_base, lock_plan};
ghost use Rattle.live_output.specs.OutputParts.{beginning_left};
ghost use Rattle.live_output.specs.Sending.{WritesBatch};

use crate::gathered::Gathered;
use crate::records::begin;
use crate::writing::write_batch;
use core_keep::KeptCore;
use live_turns::{
    DrainTurn, Gate, Turns, drain, drain_turn, end_pass, end_turn, place_at_port, sleep_until_woken,
};
use savi_core::Batch;
use savi_ends::{Put, Sink};
use savi_kinds::{Format, How, Port, Who};
use std::alloc::{AllocError, Global};
use std::sync::Wait;
use table_lock::{Pass, TableLock};

/// Room for what an output takes from its queue and writes: 256 frames, and 65,536 octets of their records. What it holds
/// doesn't matter.
#[derive(Drop)]
pub struct OutputRoom {
    batch: Batch,
    gathered: Gathered,
}

impl OutputRoom {
    /// It takes all its memory here.
    pub fn make(alloc: Global) -> Result<OutputRoom, AllocError> {
        Ok(OutputRoom {
            batch: Batch::make(alloc)?,
            gathered: Gathered::make(alloc)?,
        })
    }
}

/// The output of a port: the form in which it is written, its sink, and whether it was begun, as it is in the first segment
/// of a session.
#[derive(Drop)]
pub struct Output<K> {
    pub port: Port,
    pub format: Format,
    pub sink: K,
    pub room: OutputRoom,
    pub begun: bool,
}

impl<K: Sink> Output<K> {
    /// Writes what is sent at the port in a segment until nothing may be sent there any more, and ends the egress, or pauses
    /// it where an input is; or until a write fails, for which the egress ends: what waits there is given up then, and
    /// nothing more is written. Its pass hasn't ended before.
    ///
    /// A capture is begun at once, where it wasn't in an earlier segment. Then the worker takes turns: in each it takes all
    /// that waits at the port, and writes that behind the turn, in pieces of up to 65,536 octets. Then it sleeps at the
    /// place of the port until a turn of another worker may have queued something there, for 100 ms at most, or not at all
    /// where one did in between. It takes no memory. Nothing is promised of how long it runs.
    pub fn run<R: Wait, G: Gate>(
        self,
        rt: &R,
        lock: &TableLock<KeptCore>,
        gate: &G,
        pass: Pass,
    ) -> (Output<K>, Pass)
        requires { IsNewPass lock.now (Egress self.port) pass }
        ensures port { result.0.port ≡ self.port }
        ensures format { result.0.format ≡ self.format }
        ensures ended { IsEndedPass lock.now (Egress self.port) result.1 }
        ensures stands { (before : List (List Row)) (first : K) → AreLegal (lock_plan lock.now) before → lock_base lock.now ≡ base_after (lock_plan lock.now) before
            → OutputStands K.written K.faults self.format (lock_plan lock.now) (number_of self.port) before self.begun first self.sink
            → OutputStands K.written K.faults self.format (lock_plan lock.now) (number_of self.port) (past_seen result.1 ∷ before) result.0.begun first result.0.sink }
    {
        let mut output = self;
        let turns = Turns::new(place_at_port(pass, output.port));
        let turns = output.write_sent(rt, lock, gate, turns);
        (output, turns.into_pass())
    }

    /// Does the same in one round of a thread that has the switch alone: takes all that waits at the port, and writes it; or
    /// ends the egress, where nothing may be sent there any more or a write failed. The answer is whether it made an entry.
    /// It costs what `Core::drain` and the writes cost, and takes no memory.
    pub fn round(&mut self, core: &mut KeptCore) -> bool
        requires { IsOpen core.old.core.value.plan (base_of core.old.core.value) core.old.core.value.past (Egress self.old.port) }
        ensures port { self.new.port ≡ self.old.port }
        ensures format { self.new.format ≡ self.old.format }
        ensures plan { core.new.core.value.plan ≡ core.old.core.value.plan }
        ensures checkpoint { core.new.core.value.checkpoint ≡ core.old.core.value.checkpoint }
        ensures legal { IsLegal core.old.core.value.plan (base_of core.old.core.value) core.old.core.value.past }
        ensures made { MadeBy (egress_pass core.old.core.value.plan (number_of self.old.port)) core.old.core.value.past core.new.core.value.past }
        ensures stands { (before : List (List Row)) (first : K) → AreLegal core.old.core.value.plan before → base_of core.old.core.value ≡ base_after core.old.core.value.plan before
            → OutputStands K.written K.faults self.old.format core.old.core.value.plan (number_of self.old.port) (core.old.core.value.past ∷ before) self.old.begun first self.old.sink
            → OutputStands K.written K.faults self.old.format core.old.core.value.plan (number_of self.old.port) (core.new.core.value.past ∷ before) self.new.begun first self.new.sink }
    {
        let _len = core.core.len();
        self.write_waiting(core)
    }

    // Begins the output, and writes what is sent until its egress has ended.
    fn write_sent<R: Wait, G: Gate>(
        &mut self,
        rt: &R,
        lock: &TableLock<KeptCore>,
        gate: &G,
        turns: Turns,
    ) -> Turns
        requires running { IsRunning lock.now (Egress self.old.port) turns.pass }
        requires nothing { past_seen turns.pass ≡ [] }
        ensures port { self.new.port ≡ self.old.port }
        ensures format { self.new.format ≡ self.old.format }
        ensures ended { IsEndedPass lock.now (Egress self.old.port) result.pass }
        ensures stands { (before : List (List Row)) (first : K) → AreLegal (lock_plan lock.now) before → lock_base lock.now ≡ base_after (lock_plan lock.now) before
            → OutputStands K.written K.faults self.old.format (lock_plan lock.now) (number_of self.old.port) before self.old.begun first self.old.sink
            → OutputStands K.written K.faults self.old.format (lock_plan lock.now) (number_of self.old.port) (past_seen result.pass ∷ before) self.new.begun first self.new.sink }
    {
        let port = self.port;
        let who = Who::Egress(port);
        match self.begin() {
            Put::Done => {}
            Put::Failed => return end_turn(rt, lock, gate, turns, who, How::Failed),
        }
        let mut turns = turns;
        for _ in rt.forever() {
            let (next, came) = drain_turn(rt, lock, gate, turns, port, &mut self.room.batch);
            match came {
                DrainTurn::Took => match self.write_taken() {
                    Put::Done => {
                        sleep_until_woken(rt, lock, &next.pass);
                        turns = next;
                    }
                    Put::Failed => return end_turn(rt, lock, gate, next, who, How::Failed),
                },
                DrainTurn::Idle => {
                    sleep_until_woken(rt, lock, &next.pass);
                    turns = next;
                }
                DrainTurn::Ended => return next,
            }
        }
        unreachable!()
    }

    // Begins the output, takes what waits, and writes it. The answer is whether an entry was made.
    fn write_waiting(&mut self, core: &mut KeptCore) -> bool
        requires { IsOpen core.old.core.value.plan (base_of core.old.core.value) core.old.core.value.past (Egress self.old.port) }
        ensures port { self.new.port ≡ self.old.port }
        ensures format { self.new.format ≡ self.old.format }
        ensures plan { core.new.core.value.plan ≡ core.old.core.value.plan }
        ensures checkpoint { core.new.core.value.checkpoint ≡ core.old.core.value.checkpoint }
        ensures made { MadeBy (egress_pass core.old.core.value.plan (number_of self.old.port)) core.old.core.value.past core.new.core.value.past }
        ensures stands { (before : List (List Row)) (first : K) → AreLegal core.old.core.value.plan before → base_of core.old.core.value ≡ base_after core.old.core.value.plan before
            → OutputStands K.written K.faults self.old.format core.old.core.value.plan (number_of self.old.port) (core.old.core.value.past ∷ before) self.old.begun first self.old.sink
            → OutputStands K.written K.faults self.old.format core.old.core.value.plan (number_of self.old.port) (core.new.core.value.past ∷ before) self.new.begun first self.new.sink }
    {
        let port = self.port;
        let who = Who::Egress(port);
        match self.begin() {
            Put::Done => {}
            Put::Failed => {
                end_pass(core, who, How::Failed);
                return true;
            }
        }
        match drain(core, port, &mut self.room.batch) {
            DrainTurn::Took => match self.write_taken() {
                Put::Done => true,
                Put::Failed => {
                    end_pass(core, who, How::Failed);
                    true
                }
            },
            DrainTurn::Idle => false,
            DrainTurn::Ended => true,
        }
    }

    // Begins the output, where it wasn't begun in an earlier segment.
    fn begin(&mut self) -> Put
        ensures port { self.new.port ≡ self.old.port }
        ensures format { self.new.format ≡ self.old.format }
        ensures begun { self.new.begun ≡ true }
        ensures extends { Extends result (K.written self.old.sink) (K.written self.new.sink) (beginning_left self.old.begun self.old.format) }
        ensures first { result ≡ Put.Failed → self.old.begun ≡ false }
        ensures later { K.faults self.old.sink ≤ K.faults self.new.sink }
        ensures cause { result ≡ Put.Failed → Rose (K.faults self.old.sink) (K.faults self.new.sink) }
        ensures still { result ≡ Put.Done → K.faults self.new.sink ≡ K.faults self.old.sink }
    {
        if self.begun {
            return Put::Done;
        }
        self.begun = true;
        begin(self.format, &mut self.sink)
    }

    // Writes what was taken from the queue.
    fn write_taken(&mut self) -> Put
        ensures port { self.new.port ≡ self.old.port }
        ensures format { self.new.format ≡ self.old.format }
        ensures begun { self.new.begun ≡ self.old.begun }
        ensures writes { WritesBatch K.written K.faults result self.old self.new }
    {
        write_batch(
            self.format,
            &mut self.sink,
            &self.room.batch,
            &mut self.room.gathered,
        )
    }
}
