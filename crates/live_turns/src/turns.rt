//! A pass that takes turns.

ghost use Rattle.std.specs.Prelude.{◌≡◌};

use crate::gate::Gate;
use crate::waking::Wakes;
use arrayvec::ArrayVec;
use std::sync::Wait;
use table_lock::Pass;

/// A pass, with the number of turns that it has taken in a session, and the wakes behind the last one.
#[derive(Drop)]
pub struct Turns {
    pub pass: Pass,
    pub woken: Wakes,
    taken: u64,
}

impl Turns {
    /// A pass that has taken no turn yet.
    pub fn new(pass: Pass) -> Turns
        ensures { result.pass ≡ pass }
    {
        Turns {
            pass,
            woken: ArrayVec::new(),
            taken: 0,
        }
    }

    /// The pass, given back.
    pub fn into_pass(self) -> Pass
        ensures { result ≡ self.pass }
    {
        let Turns {
            pass,
            woken: _,
            taken: _,
        } = self;
        pass
    }

    // The pass behind a turn with this number, behind which there were these wakes.
    pub(crate) fn after(pass: Pass, turn: u64, woken: Wakes) -> Turns
        ensures pass { result.pass ≡ pass }
        ensures woken { result.woken ≡ woken }
    {
        Turns {
            pass,
            woken,
            taken: turn,
        }
    }

    // Tells the gate of the next turn. The answer is its number, from 1 on.
    pub(crate) fn announce<R: Wait, G: Gate>(&self, rt: &R, gate: &G) -> u64 {
        let turn = self.taken.saturating_add(1);
        gate.pass_by(rt, self.pass.number(), turn);
        turn
    }
}
