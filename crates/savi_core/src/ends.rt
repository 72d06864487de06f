//! How the passes of a switch have ended for good.

ghost use Rattle.std.specs.Prelude.{◌≡◌, ◌≤◌, ◌<◌, None, slice_index_or};
ghost use Rattle.std.specs.Option.{is_some};
ghost use Rattle.savi_history.specs.Endings.{is_paused_reason};
ghost use Rattle.savi_core.specs.Ends.{none_over, over_marks, with_ending, with_over};
ghost use Rattle.savi_core.specs.PassMarks.{open_among};

use crate::passes::Passes;
use checkpoint::ENDED_MOST;
use savi_kinds::How;
use std::marker::Model;

/// How each pass has ended for good, by number: a pass that is paused hasn't.
#[derive(Drop)]
pub struct Ends {
    ends: [Option<How>; ENDED_MOST],
    passes: Passes,
}

impl Model for Ends {
    ghost use Rattle.std.specs.Prelude.{◌≡◌, map};
    ghost use Rattle.std.specs.Option.{is_some};
    ghost use Rattle.savi_core.specs.Ends.{EndMarks};

    ghost Value = { EndMarks };

    ghost view = { λ e. record { inputs = e.passes.inputs; ends = e.ends } };

    ghost invariant = { λ e. e.passes.ended ≡ map is_some e.ends };
}

impl Ends {
    /// No pass has ended; so many of them are inputs.
    pub fn make(inputs: u32) -> Ends
        requires { inputs ≤ 34 }
        ensures { result ≡ none_over inputs }
    {
        Ends {
            ends: [None; ENDED_MOST],
            passes: Passes::make(inputs),
        }
    }

    /// The pass of this number has ended, for this reason: for good, unless it is paused. O(1).
    pub fn put(&mut self, pass: u32, how: How)
        requires pass { pass < 34 }
        requires running { slice_index_or self.old.ends pass None ≡ None }
        ensures { self.new ≡ with_ending pass how self.old }
    {
        if !is_paused(how) {
            self.put_over(pass, how);
        }
    }

    // The pass of this number has ended for good.
    fn put_over(&mut self, pass: u32, how: How)
        requires pass { pass < 34 }
        requires running { slice_index_or self.old.ends pass None ≡ None }
        ensures { self.new ≡ with_over pass how self.old }
    {
        self.passes.end(pass);
        self.ends[pass as usize] = Some(how);
    }

    /// Whether the pass of this number has ended for good. O(1).
    pub fn is_over(&self, pass: u32) -> bool
        requires { pass < 34 }
        ensures { result ≡ is_some (slice_index_or self.now.ends pass None) }
    {
        self.ends[pass as usize].is_some()
    }

    /// The passes that have ended for good; the others are open. O(1).
    pub fn passes(&self) -> Passes
        ensures { result ≡ over_marks self.now }
    {
        self.passes.copy()
    }

    /// How many inputs haven't ended for good. O(1).
    pub fn inputs_left(&self) -> u32
        ensures { result ≡ open_among (over_marks self.now).ended self.now.inputs }
    {
        self.passes.inputs_left()
    }

    /// How the pass of this number has ended for good, if it has. O(1).
    pub fn of(&self, pass: u32) -> Option<How>
        requires { pass < 34 }
        ensures { result ≡ slice_index_or self.now.ends pass None }
    {
        self.ends[pass as usize]
    }
}

/// Whether a pass that ends so is paused: it goes on in the next segment. O(1).
pub fn is_paused(how: How) -> bool
    ensures { result ≡ is_paused_reason how }
{
    matches!(how, How::Paused)
}
