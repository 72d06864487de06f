ghost use Rattle.std.specs.Prelude.{◌≡◌, ℕ, ◌^◌, ◌<◌, List, length};

/// A value with a history, which the lock can keep.
///
/// The history is a list of entries, each the number of the pass that made it and a list of numbers that fixes the entry.
pub trait Kept {
    ghost history: { Self → List (ℕ × List ℕ) };

    /// What no entry changes.
    ghost fixed: { Self → List ℕ };

    /// How many entries the history has, below 2^63. The lock calls it twice a turn.
    fn entries(&self) -> u64
        ensures count { result ≡ length (history self.now) }
        ensures small { result < 2 ^ 63 };
}
