ghost use Rattle.std.specs.Prelude.{◌≡◌, ◌≤◌, ◌+◌, ◌-◌, ◌^◌, min, ℕ, None, length};

use crate::sink::{Put, Sink};

/// A sink that never fails, and only counts the octets that are written.
#[derive(Drop)]
pub struct CountSink {
    count: u64,
}

impl CountSink {
    ghost use Rattle.savi_ends.specs.CountSinks.{count_of};

    /// A sink to which nothing was written.
    pub fn new() -> CountSink
        ensures count { count_of result ≡ 0 }
        ensures faults { ⟦<CountSink as Sink>⟧.faults result ≡ 0 }
    {
        CountSink { count: 0 }
    }

    /// How many octets were written; the count stops at 2^64 - 1.
    pub fn count(&self) -> u64
        ensures { result ≡ count_of self.now }
    {
        self.count
    }
}

impl Sink for CountSink {
    ghost use Rattle.savi_ends.specs.Faults.{Rose};
    ghost use Rattle.savi_ends.specs.Writes.{Extends};
    ghost use Rattle.savi_ends.specs.CountSinks.{count_of};

    ghost written = { λ s. None };

    ghost faults = { λ s. 0 };

    fn faults(&self) -> u64 {
        0
    }

    fn write(&mut self, piece: &[u8]) -> Put
        ensures extends { Extends result (⟦<CountSink as Sink>⟧.written self.old) (⟦<CountSink as Sink>⟧.written self.new) piece.now }
        ensures later { ⟦<CountSink as Sink>⟧.faults self.old ≤ ⟦<CountSink as Sink>⟧.faults self.new }
        ensures cause { result ≡ Put.Failed → Rose (⟦<CountSink as Sink>⟧.faults self.old) (⟦<CountSink as Sink>⟧.faults self.new) }
        ensures still { result ≡ Put.Done → ⟦<CountSink as Sink>⟧.faults self.new ≡ ⟦<CountSink as Sink>⟧.faults self.old }

        // What the write answers, and what it changes.
        ensures answers { result ≡ Put.Done }
        ensures counts { count_of self.new ≡ min (count_of self.old + length piece.now) (2 ^ 64 - 1) }
    {
        self.count = self.count.saturating_add(piece.len() as u64);
        Put::Done
    }
}
