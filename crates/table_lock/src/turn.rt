ghost use Rattle.std.specs.Prelude.{◌≡◌};
ghost use Rattle.std.specs.Borrow.{sem};

use crate::board::Place;
use crate::kept::Kept;
use crate::lock::TableLock;
use crate::pass::Pass;
use std::sync::MutexGuard;

/// A turn: the value, which is away from the lock until `leave`. Until then every other pass waits.
pub struct Held<'a, V: Kept> {
    pub(crate) lock: &'a TableLock<V>,
    pub(crate) number: u32,
    pub(crate) sleeps_at: Option<u32>,
    pub(crate) place: Place<V>,
    pub(crate) value: V,
    pub(crate) entered: u64,
    pub(crate) admitted: MutexGuard<'a, ()>,
}

impl<'a, V: Kept> Held<'a, V> {
    ghost use Rattle.table_lock.specs.Passes.{IsPassOf, pass_number, pass_seen, pass_sleeps_at, lock_first};
    ghost use Rattle.table_lock.specs.Turns.{IsTurn, IsOrGrowsBy};
    ghost use Rattle.table_lock.specs.Turns.{held_lock, held_number, held_seen, held_sleeps_at, held_value};
    ghost use Rattle.table_lock.specs.Lends.{lends_value};

    /// The value, to read and to change. O(1).
    pub fn value(&mut self) -> &mut V
        ensures* writes_back { sem 𝓛 (lends_value V.row V.Kept self.entry result) }
        ensures value { result.now ≡ held_value self.old }
    {
        &mut self.value
    }

    /// Puts the value back, counts the entry that was made, if any, and lets the next pass in.
    ///
    /// At most one entry may have been made, with this pass's number, and nothing else of the history may have
    /// changed. O(1), and it takes no memory.
    pub fn leave(self) -> Pass
        requires turn { IsTurn V.fixed self }
        requires history { IsOrGrowsBy (held_number self) (held_seen self) (V.history (held_value self)) }
        requires fixed { V.fixed (held_value self) ≡ V.fixed (lock_first (held_lock self)) }
        ensures pass { IsPassOf V.fixed (held_lock self.entry) result }
        ensures number { pass_number result ≡ held_number self.entry }
        ensures sleeps { pass_sleeps_at result ≡ held_sleeps_at self.entry }
        ensures seen { pass_seen result ≡ V.history (held_value self.entry) }
    {
        let Held {
            lock,
            number,
            sleeps_at,
            mut place,
            value,
            entered,
            admitted,
        } = self;
        let grew = value.entries() > entered;
        let nothing = lock.table.shared.exchange(&mut place, 0, Some(value));
        let None = nothing else { unreachable!() };
        lock.settle(&mut place, number, grew);
        let mut pass = lock.pass_on(number, place);
        pass.sleeps_at = sleeps_at;
        drop(admitted);
        pass
    }
}
