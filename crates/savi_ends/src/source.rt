ghost use Rattle.std.specs.Prelude.{◌≡◌, ◌≢◌, ◌<◌, ◌≤◌, ℕ, List, Option, length};

/// What a read gave.
#[derive(Clone, Copy, PartialEq, Eq, Debug)]
pub enum Got {
    /// So many octets, at the front of the buffer; at least one.
    Bytes(usize),
    /// Nothing is left.
    End,
    /// The read failed, and nothing was given.
    Failed,
}

/// Something that gives up octets in order.
pub trait Source {
    ghost use Rattle.savi_ends.specs.Octets.{Takes, NothingLeft};
    ghost use Rattle.savi_ends.specs.Faults.{Rose};
    ghost use Rattle.savi_ends.specs.Reads.{octets_given, FitsIn};

    /// The octets that are left, where the source tells them.
    ghost left: { Self → Option (List ℕ) };

    /// How often a read has failed.
    ghost faults: { Self → ℕ };

    /// How often a read has failed; the count stops at 2^64 - 1.
    fn faults(&self) -> u64
        ensures { result ≡ faults self.now };

    /// Reads the next octets into the front of a buffer that isn't empty.
    ///
    /// `End` comes only where nothing is left, where the source tells what is left. `Failed` comes only where the count
    /// of faults rose by one in this call, and then nothing was taken; else the count stays as it was.
    fn read(&mut self, buf: &mut [u8]) -> Got
        requires { 0 < length buf.old }
        ensures count { FitsIn result (length buf.old) }
        ensures bytes { Takes (left self.old) (left self.new) (octets_given result buf.new) }
        ensures end { result ≡ Got.End → NothingLeft (left self.old) }
        ensures later { faults self.old ≤ faults self.new }
        ensures cause { result ≡ Got.Failed → Rose (faults self.old) (faults self.new) }
        ensures still { result ≢ Got.Failed → faults self.new ≡ faults self.old };
}
