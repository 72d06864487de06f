//! Control in a round of a thread that has the core alone.

ghost use Rattle.std.specs.Prelude.{◌≡◌, false, List, ◌∷◌, None, Option, Some};
ghost use Rattle.savi_kinds.specs.declared.entry.Who.TheVariants.{Control};
ghost use Rattle.savi_kinds.specs.declared.plan.Plan.{Plan};
ghost use Rattle.hist_store.specs.Rows.{Row};
ghost use Rattle.savi_history.specs.Legal.{IsLegal, IsOpen};
ghost use Rattle.savi_history.specs.Passes.{control_pass};
ghost use Rattle.savi_segments.specs.Segments.{AreLegal, base_after};
ghost use Rattle.savi_core.specs.Machines.{base_of};
ghost use Rattle.intake_ring.specs.Sides.{taker_ring};
ghost use Rattle.control_reader.specs.Heard.{line_heard_of, lines_taken};
ghost use Rattle.live_turns.specs.Rounds.{MadeBy};
ghost use Rattle.live_control.specs.Sides.{ControlGoes, SideGoes, SideStands, WorkerStands, worker_ring};

use crate::answering::answer_now;
use crate::side::ControlSide;
use crate::worker::ControlWorker;
use control_reader::LineArrival;
use core_keep::KeptCore;
use live_turns::{end_pass, pause_if_full};
use savi_core::Reply;
use savi_ends::Sink;
use savi_kinds::{How, Who};
use std::sync::Wait;

impl<K: Sink> ControlWorker<K> {
    /// Takes one line, if one waits, enters it, and writes the reply to it, or enters how the input ended; where there is
    /// no room for it control is paused, and the line kept. Where nothing waits control is paused, if there is no room for
    /// another input. Without control its end is all. The answer is whether an entry was made. It waits for nothing but
    /// the sink, and costs what `Core::step` and `Core::reply` cost.
    pub fn round<R: Wait>(&mut self, rt: &R, core: &mut KeptCore) -> bool
        requires { IsOpen core.old.core.value.plan (base_of core.old.core.value) core.old.core.value.past Control }
        ensures ring { worker_ring self.new.ends ≡ worker_ring self.old.ends }
        ensures plan { core.new.core.value.plan ≡ core.old.core.value.plan }
        ensures checkpoint { core.new.core.value.checkpoint ≡ core.old.core.value.checkpoint }
        ensures legal { IsLegal core.old.core.value.plan (base_of core.old.core.value) core.old.core.value.past }
        ensures made { MadeBy (control_pass core.old.core.value.plan) core.old.core.value.past core.new.core.value.past }
        ensures stands { (before : List (List Row)) (first : Option K) → AreLegal core.old.core.value.plan before
            → base_of core.old.core.value ≡ base_after core.old.core.value.plan before
            → WorkerStands K.written K.faults core.old.core.value.plan (core.old.core.value.past ∷ before) first self.old.ends
            → WorkerStands K.written K.faults core.old.core.value.plan (core.new.core.value.past ∷ before) first self.new.ends }
    {
        match &mut self.ends {
            None => {
                end_pass(core, Who::Control, How::End);
                true
            }
            Some(side) => side.round(rt, core, &mut self.reply),
        }
    }

    /// Where control has ended by a reply that couldn't be written, takes what waits and passes it over, 64 lines at most,
    /// up to the end of the input or to `quit`. It doesn't wait.
    pub fn pass_over_round<R: Wait>(&mut self, rt: &R)
        ensures ring { worker_ring self.new.ends ≡ worker_ring self.old.ends }
        ensures stands { (plan : Plan) (segments : List (List Row)) (first : Option K)
            → WorkerStands K.written K.faults plan segments first self.old.ends → WorkerStands K.written K.faults plan segments first self.new.ends }
    {
        if let Some(side) = &mut self.ends {
            side.pass_over_now(rt);
        }
    }
}

impl<K: Sink> ControlSide<K> {
    // One round of control. The answer is whether an entry was made.
    fn round<R: Wait>(&mut self, rt: &R, core: &mut KeptCore, reply: &mut Reply) -> bool
        requires { IsOpen core.old.core.value.plan (base_of core.old.core.value) core.old.core.value.past Control }
        ensures ring { taker_ring self.new.taker ≡ taker_ring self.old.taker }
        ensures plan { core.new.core.value.plan ≡ core.old.core.value.plan }
        ensures checkpoint { core.new.core.value.checkpoint ≡ core.old.core.value.checkpoint }
        ensures legal { IsLegal core.old.core.value.plan (base_of core.old.core.value) core.old.core.value.past }
        ensures made { MadeBy (control_pass core.old.core.value.plan) core.old.core.value.past core.new.core.value.past }
        ensures stands { (before : List (List Row)) (first : K) → base_of core.old.core.value ≡ base_after core.old.core.value.plan before
            → SideGoes K.written K.faults core.old.core.value.plan (core.old.core.value.past ∷ before) first self.old
            → SideStands K.written K.faults core.old.core.value.plan (core.new.core.value.past ∷ before) first self.new }
    {
        match self.next_now(rt) {
            Some(came) => {
                self.enter_now(core, reply, came);
                true
            }
            None => pause_if_full(core, Who::Control),
        }
    }

    // Enters what came, and answers a line.
    fn enter_now(&mut self, core: &mut KeptCore, reply: &mut Reply, came: LineArrival)
        requires open { IsOpen core.old.core.value.plan (base_of core.old.core.value) core.old.core.value.past Control }
        requires unkept { self.old.kept ≡ None }
        ensures ring { taker_ring self.new.taker ≡ taker_ring self.old.taker }
        ensures plan { core.new.core.value.plan ≡ core.old.core.value.plan }
        ensures checkpoint { core.new.core.value.checkpoint ≡ core.old.core.value.checkpoint }
        ensures legal { IsLegal core.old.core.value.plan (base_of core.old.core.value) core.old.core.value.past }
        ensures made { MadeBy (control_pass core.old.core.value.plan) core.old.core.value.past core.new.core.value.past }
        ensures stands { (before : List (List Row)) (first : K) → base_of core.old.core.value ≡ base_after core.old.core.value.plan before
            → self.old.passes_over ≡ false
            → ControlGoes K.written K.faults core.old.core.value.plan (core.old.core.value.past ∷ before) (lines_taken self.old.taker) (Some (line_heard_of came)) first self.old.sink
            → SideStands K.written K.faults core.old.core.value.plan (core.new.core.value.past ∷ before) first self.new }
    {
        match came {
            LineArrival::Line { stamp, octets } => {
                let state = answer_now(core, stamp, octets.as_slice(), reply, &mut self.sink);
                self.settle(stamp, octets, state);
            }
            LineArrival::End(end) => end_pass(core, Who::Control, end.reason()),
        }
    }
}
