ghost use Rattle.std.specs.Prelude.{ℕ, List, Option};

/// Something that tells moments, in milliseconds.
pub trait Clock {
    ghost use Rattle.savi_ends.specs.Readings.{AddsReading};

    /// The readings that were made so far, in order, where the clock tells them.
    ghost readings: { Self → Option (List ℕ) };

    /// The moment now, in ms.
    fn now(&mut self) -> u64
        ensures { AddsReading (readings self.old) (readings self.new) result };

    /// The moment after a short wait, in ms.
    fn wait(&mut self) -> u64
        ensures { AddsReading (readings self.old) (readings self.new) result };
}
