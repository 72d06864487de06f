//! The judge in a round of a thread that has the core alone.

ghost use Rattle.std.specs.Prelude.{◌≡◌, List, ◌∷◌, ◌++◌, None};
ghost use Rattle.savi_kinds.specs.declared.entry.Who.TheVariants as passes;
ghost use Rattle.savi_kinds.specs.Ports.{number_of};
ghost use Rattle.hist_store.specs.Rows.{Row};
ghost use Rattle.savi_history.specs.Legal.{IsLegal, IsOpen};
ghost use Rattle.savi_history.specs.Passes.{place_of};
ghost use Rattle.savi_segments.specs.Segments.{AreLegal, base_after};
ghost use Rattle.savi_core.specs.Machines.{base_of};
ghost use Rattle.parcel_ring.specs.Handed.{Handed, MayBeHanded};
ghost use Rattle.parcel_ring.specs.Lent.{handed_by};
ghost use Rattle.parcel_ring.specs.Sides.{taker_rings, was_taken};
ghost use Rattle.port_reader.specs.Judging.{waiting};
ghost use Rattle.live_session.specs.Standing.{InputStands};
ghost use Rattle.live_turns.specs.Rounds.{MadeBy};
ghost use Rattle.live_input.specs.Judged.{JudgesOne, kept_of};

use crate::judge::Ingress;
use crate::state::InputState;
use core_keep::KeptCore;
use frame_class::{Seen, see};
use live_turns::{end_pass, enter_frame, pause_if_full};
use parcel_ring::{Arrival, Parcel};
use savi_core::Event;
use savi_kinds::{Port, Who};
use std::sync::Wait;

impl Ingress {
    /// Takes one arrival, if one waits, and enters it, or how the input ended; where there is no room for it the input is
    /// paused, and the arrival kept. Where nothing waits the input is paused, if there is no room for another one. The
    /// answer is whether an entry was made. It doesn't wait, and costs what `Core::step` costs.
    pub fn round<R: Wait>(&mut self, rt: &R, core: &mut KeptCore) -> bool
        requires { IsOpen core.old.core.value.plan (base_of core.old.core.value) core.old.core.value.past (passes.Ingress self.old.port) }
        ensures port { self.new.port ≡ self.old.port }
        ensures rings { taker_rings self.new.taker ≡ taker_rings self.old.taker }
        ensures plan { core.new.core.value.plan ≡ core.old.core.value.plan }
        ensures checkpoint { core.new.core.value.checkpoint ≡ core.old.core.value.checkpoint }
        ensures legal { IsLegal core.old.core.value.plan (base_of core.old.core.value) core.old.core.value.past }
        ensures made { MadeBy (place_of core.old.core.value.plan (number_of self.old.port)) core.old.core.value.past core.new.core.value.past }
        ensures stands { (before : List (List Row)) → AreLegal core.old.core.value.plan before
            → base_of core.old.core.value ≡ base_after core.old.core.value.plan before
            → InputStands (number_of self.old.port) (core.old.core.value.past ∷ before) (was_taken self.old.taker) (kept_of self.old.kept)
            → InputStands (number_of self.old.port) (core.new.core.value.past ∷ before) (was_taken self.new.taker) (kept_of self.new.kept) }
    {
        match self.next_now(rt) {
            Some(parcel) => {
                let state = judge_now(core, self.port, parcel.arrival());
                self.settle(rt, parcel, state);
                true
            }
            None => pause_if_full(core, Who::Ingress(self.port)),
        }
    }

    // What is kept, or else what waits. Nothing is kept then.
    fn next_now<R: Wait>(&mut self, rt: &R) -> Option<Box<Parcel>>
        ensures port { self.new.port ≡ self.old.port }
        ensures rings { taker_rings self.new.taker ≡ taker_rings self.old.taker }
        ensures unkept { self.new.kept ≡ None }
        ensures next { (entered : List Handed) → was_taken self.old.taker ≡ entered ++ waiting (kept_of self.old.kept)
            → was_taken self.new.taker ≡ entered ++ waiting (kept_of result) }
    {
        match self.kept.take() {
            Some(parcel) => Some(parcel),
            None => self.taker.try_take(rt),
        }
    }
}

// Enters what came at a port. The answer is how the input stands.
fn judge_now(core: &mut KeptCore, port: Port, came: Arrival<'_>) -> InputState
    requires open { IsOpen core.old.core.value.plan (base_of core.old.core.value) core.old.core.value.past (passes.Ingress port) }
    requires may { MayBeHanded (handed_by came) }
    ensures plan { core.new.core.value.plan ≡ core.old.core.value.plan }
    ensures checkpoint { core.new.core.value.checkpoint ≡ core.old.core.value.checkpoint }
    ensures legal { IsLegal core.old.core.value.plan (base_of core.old.core.value) core.old.core.value.past }
    ensures made { MadeBy (place_of core.old.core.value.plan (number_of port)) core.old.core.value.past core.new.core.value.past }
    ensures judged { JudgesOne (number_of port) (handed_by came.entry) result core.old.core.value.past core.new.core.value.past }
{
    match came {
        Arrival::Frame { stamp, octets } => {
            let mut seen = Seen::nothing();
            see(octets, &mut seen);
            let frame = Event::Frame {
                port,
                stamp,
                octets,
                seen: &seen,
            };
            let (is_entered, _) = enter_frame(core, frame);
            InputState::behind(is_entered)
        }
        Arrival::Long { stamp, len } => {
            let (is_entered, _) = enter_frame(core, Event::Long { port, stamp, len });
            InputState::behind(is_entered)
        }
        Arrival::End(how) => {
            end_pass(core, Who::Ingress(port), how);
            InputState::Ended
        }
    }
}
