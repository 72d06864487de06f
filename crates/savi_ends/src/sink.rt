ghost use Rattle.std.specs.Prelude.{◌≡◌, ◌≤◌, ℕ, List, Option};

/// Whether a write was done.
#[derive(Clone, Copy, PartialEq, Eq, Debug)]
pub enum Put {
    /// The whole piece was written.
    Done,
    /// The write failed; a front of the piece may have been written.
    Failed,
}

/// Something that takes octets in order.
pub trait Sink {
    ghost use Rattle.savi_ends.specs.Faults.{Rose};
    ghost use Rattle.savi_ends.specs.Writes.{Extends};

    /// The octets that were written so far, where the sink tells them.
    ghost written: { Self → Option (List ℕ) };

    /// How often a write has failed.
    ghost faults: { Self → ℕ };

    /// How often a write has failed; the count stops at 2^64 - 1.
    fn faults(&self) -> u64
        ensures { result ≡ faults self.now };

    /// Writes a piece behind what was written before.
    ///
    /// `Done` is the whole piece, and the count of faults stays as it was. `Failed` comes only where the
    /// count rose by one in this call, and then a front of the piece may have been written.
    fn write(&mut self, piece: &[u8]) -> Put
        ensures extends { Extends result (written self.old) (written self.new) piece.now }
        ensures later { faults self.old ≤ faults self.new }
        ensures cause { result ≡ Put.Failed → Rose (faults self.old) (faults self.new) }
        ensures still { result ≡ Put.Done → faults self.new ≡ faults self.old };
}
