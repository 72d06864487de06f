//! What is told of the segments that are closed, beside the journal.

use arrayvec::ArrayVec;
use hist_store::Hist;
use savi_kinds::{Act, How, Who};

/// The most passes that can end for good: the ingress and the egress of each of 16 ports, control and the ticker.
pub const ENDS_MOST: usize = 34;

/// Ends of passes, each with its reason, in order: at most `ENDS_MOST`. They take no memory.
pub type EndsTold = ArrayVec<(Who, How), ENDS_MOST>;

/// How many entries the segments have, and how passes ended there for good, in order.
#[derive(Drop)]
pub struct Told {
    /// The number stays at 2^64 - 1.
    pub entries: u64,
    pub ends: EndsTold,
}

impl Told {
    ghost use Rattle.std.specs.Prelude.{◌≡◌, ◌+◌, ◌++◌, ◌≤◌, [], length, reverse};
    ghost use Rattle.savi_history.specs.Endings.{end_told, ends_told};
    ghost use Rattle.savi_history.specs.Summary.{capped};
    ghost use Rattle.savi_segments.specs.Segments.{AreOctets};

    /// Nothing of no segment.
    pub fn new() -> Told
        ensures entries { result.entries ≡ 0 }
        ensures ends { result.ends.items ≡ [] }
    {
        Told {
            entries: 0,
            ends: ArrayVec::new(),
        }
    }

    /// Adds what is kept of a history, whose rows are of octets. There is room for its ends. O(n) in its entries.
    pub fn add(&mut self, hist: &Hist)
        requires { length self.old.ends.items + length (ends_told (reverse hist.now.rows)) ≤ 34 }
        ensures entries { self.new.entries ≡ capped (self.old.entries + length hist.now.rows) }
        ensures ends { self.new.ends.items ≡ self.old.ends.items ++ ends_told (reverse hist.now.rows) }
        ensures octets { AreOctets (reverse hist.now.rows) }
    {
        for n in 0..hist.len() {
            self.add_end(hist.entry(n).act);
        }
        self.entries = self.entries.saturating_add(hist.len());
    }

    // Adds the end that an entry is, but for a pause.
    fn add_end(&mut self, act: Act)
        requires { length self.old.ends.items + length (end_told act) ≤ 34 }
        ensures { self.new ≡ record self.old { ends = record { items = self.old.ends.items ++ end_told act } } }
    {
        match act {
            Act::End { who, how } => match how {
                How::Paused => {}
                how => self.ends.push((who, how)),
            },
            _ => {}
        }
    }
}
