//! The worker of the ticker.

ghost use Rattle.std.specs.Prelude.{◌≡◌, ◌∷◌, List};
ghost use Rattle.savi_kinds.specs.declared.entry.Who.TheVariants.{Ticker};
ghost use Rattle.savi_ends.specs.Readings.{AddsReading};
ghost use Rattle.hist_store.specs.Rows.{Row};
ghost use Rattle.savi_history.specs.Legal.{IsLegal, IsOpen};
ghost use Rattle.savi_history.specs.Passes.{ticker_pass};
ghost use Rattle.savi_segments.specs.Segments.{AreLegal, base_after};
ghost use Rattle.savi_core.specs.Machines.{base_of};
ghost use Rattle.core_keep.specs.Seen.{past_seen};
ghost use Rattle.live_session.specs.Standing.{TickerStands};
ghost use Rattle.live_turns.specs.Rounds.{MadeBy};
ghost use Rattle.live_turns.specs.Seats.{IsEndedPass, IsNewPass, lock_base, lock_plan};

use core_keep::KeptCore;
use live_turns::{Gate, PauseSignal, TickTurn, Turns, tick, tick_turn};
use savi_ends::Clock;
use std::sync::Wait;
use std::thread::Parker;
use std::time::Duration;
use table_lock::{Pass, TableLock};

/// How long the ticker rests where it made no tick, beside what its clock waits, in ms.
const REST_MS: u64 = 2;

/// The ticker, by its clock.
#[derive(Drop)]
pub struct TickerWorker<C> {
    pub clock: C,
}

impl<C: Clock> TickerWorker<C> {
    /// In a segment waits on the clock and takes a turn with the moment that it then reads (ms), again and again: a tick is
    /// made where an address has another state by then, and there is room. Where there is no room it raises the signal, so
    /// that the inputs are paused, also those at which nothing comes. It ends where no tick is made and no input may come any
    /// more, and is paused where an input is. Its pass hasn't ended before.
    ///
    /// The answer has the clock and the pass again. It takes no memory, and nothing is promised of how long it goes on.
    pub fn run<R: Wait, G: Gate>(
        self,
        rt: &R,
        lock: &TableLock<KeptCore>,
        gate: &G,
        signal: &PauseSignal,
        pass: Pass,
    ) -> (TickerWorker<C>, Pass)
        requires { IsNewPass lock.now Ticker pass }
        ensures ended { IsEndedPass lock.now Ticker result.1 }
        ensures stands { (before : List (List Row)) (first : C) → AreLegal (lock_plan lock.now) before → lock_base lock.now ≡ base_after (lock_plan lock.now) before
            → TickerStands C.readings (lock_plan lock.now) before first self.clock
            → TickerStands C.readings (lock_plan lock.now) (past_seen result.1 ∷ before) first result.0.clock }
    {
        let TickerWorker { mut clock } = self;
        let mut turns = Turns::new(pass);
        for _ in rt.forever() {
            let stamp = clock.wait();
            let (next, came) = tick_turn(rt, lock, gate, turns, stamp);
            match came {
                TickTurn::Made => turns = next,
                TickTurn::Idle => {
                    rest(rt);
                    turns = next;
                }
                TickTurn::Full => {
                    signal.raise(gate);
                    rest(rt);
                    turns = next;
                }
                TickTurn::Ended => return ended(next, clock),
            }
        }
        unreachable!()
    }

    /// Does the same in one round of a thread that has the switch alone, with one reading: it waits on the clock where
    /// nothing else was done in the round. The answer is whether it made an entry. It costs what `Core::step` costs, and
    /// takes no memory.
    pub fn round(&mut self, core: &mut KeptCore, is_idle: bool) -> bool
        requires { IsOpen core.old.core.value.plan (base_of core.old.core.value) core.old.core.value.past Ticker }
        ensures plan { core.new.core.value.plan ≡ core.old.core.value.plan }
        ensures checkpoint { core.new.core.value.checkpoint ≡ core.old.core.value.checkpoint }
        ensures legal { IsLegal core.old.core.value.plan (base_of core.old.core.value) core.old.core.value.past }
        ensures made { MadeBy (ticker_pass core.old.core.value.plan) core.old.core.value.past core.new.core.value.past }
        ensures stands { (before : List (List Row)) (first : C) → AreLegal core.old.core.value.plan before → base_of core.old.core.value ≡ base_after core.old.core.value.plan before
            → TickerStands C.readings core.old.core.value.plan (core.old.core.value.past ∷ before) first self.old.clock
            → TickerStands C.readings core.old.core.value.plan (core.new.core.value.past ∷ before) first self.new.clock }
    {
        let stamp = self.read(is_idle);
        match tick(core, stamp) {
            TickTurn::Made | TickTurn::Ended => true,
            TickTurn::Idle | TickTurn::Full => false,
        }
    }

    // The moment now (ms), or the one after a wait.
    fn read(&mut self, waits: bool) -> u64
        ensures { AddsReading (C.readings self.old.clock) (C.readings self.new.clock) result }
    {
        if waits {
            self.clock.wait()
        } else {
            self.clock.now()
        }
    }
}

// The worker and its pass, once that has ended.
fn ended<C>(turns: Turns, clock: C) -> (TickerWorker<C>, Pass)
    ensures clock { result.0.clock ≡ clock }
    ensures pass { result.1 ≡ turns.pass }
{
    (TickerWorker { clock }, turns.into_pass())
}

// Sleeps for a short time, or less.
fn rest<R: Wait>(rt: &R) {
    Parker::new().park_timeout(rt, Duration::from_millis(REST_MS));
}
