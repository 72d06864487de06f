//! Which passes of a switch have ended.

ghost use Rattle.std.specs.Prelude.{◌≡◌, ◌≤◌, ◌<◌, true, false, slice_index_or, slice_set};
ghost use Rattle.savi_core.specs.PassMarks.{all_open, open_among};

use checkpoint::ENDED_MOST;
use std::marker::Model;

/// Which passes have ended, by number, and how many inputs have not. The inputs have the first numbers.
#[derive(Drop)]
pub struct Passes {
    inputs: u32,
    ended: [bool; ENDED_MOST],
    inputs_left: u32,
}

impl Model for Passes {
    ghost use Rattle.std.specs.Prelude.{◌≡◌, ◌≤◌};
    ghost use Rattle.savi_core.specs.PassMarks.{PassMarks, open_among};

    ghost Value = { PassMarks };

    ghost view = { λ p. record { inputs = p.inputs; ended = p.ended } };

    ghost invariant = { λ p. (p.inputs_left ≡ open_among p.ended p.inputs) × (p.inputs ≤ 34) };
}

impl Passes {
    /// No pass has ended; so many of them are inputs.
    pub fn make(inputs: u32) -> Passes
        requires { inputs ≤ 34 }
        ensures { result ≡ all_open inputs }
    {
        Passes {
            inputs,
            ended: [false; ENDED_MOST],
            inputs_left: inputs,
        }
    }

    /// The same passes once more. O(1).
    pub fn copy(&self) -> Passes
        ensures { result ≡ self.now }
    {
        Passes {
            inputs: self.inputs,
            ended: self.ended,
            inputs_left: self.inputs_left,
        }
    }

    /// Whether the pass of this number has ended. O(1).
    pub fn has_ended(&self, pass: u32) -> bool
        requires { pass < 34 }
        ensures { result ≡ slice_index_or self.now.ended pass false }
    {
        self.ended[pass as usize]
    }

    /// How many inputs haven't ended. O(1).
    pub fn inputs_left(&self) -> u32
        ensures { result ≡ open_among self.now.ended self.now.inputs }
    {
        self.inputs_left
    }

    /// The pass of this number, which was open, has ended. O(1).
    pub fn end(&mut self, pass: u32)
        requires pass { pass < 34 }
        requires running { slice_index_or self.old.ended pass false ≡ false }
        ensures { self.new ≡ record self.old { ended = slice_set self.old.ended pass true } }
    {
        if pass < self.inputs {
            self.inputs_left -= 1;
        }
        self.ended[pass as usize] = true;
    }
}
