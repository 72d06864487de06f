//! The end at which items are taken.
ghost use Rattle.std.specs.Prelude.{◌≡◌, ⊤, true, false, [], ◌∷◌, ◌++◌, MatchOption};
ghost use Rattle.crossbeam_queue.specs.Fifo.{Held, Learns};
ghost use Rattle.crossbeam_queue.specs.Passes.{view};
ghost use Rattle.intake_ring.specs.Order.{log, Keeps, WerePut};

use crate::ring::{Ring, SLEEP_MOST_MS};
use crate::rule::{Log, Seen, Takes};
use crossbeam_queue::Pass;
use crossbeam_queue::protocol::Lesson;
use sleeper::Sleeper;
use std::alloc::{AllocError, Global};
use std::sync::{Arc, Wait};
use std::time::Duration;

/// The end of a ring at which items are taken. It knows what was taken so far, for proofs alone. The other end is woken once
/// `half` items were taken since its last wake, and where there is nothing to take.
#[derive(Drop)]
pub struct Taker<T> {
    pub(crate) ring: Arc<Ring<T>, Global>,
    pub(crate) pass: Pass<T, Log<T>>,
    pub(crate) half: u32,
    pub(crate) since: u32,
    ghost seated: { (pass.table_id ≡ ring.value.line.table.shared.table_id) × (pass.me.1 ≡ []) },
    ghost takes: { pass.me.0.client ≡ log false true [] pass.me.0.client.taken },
}

impl<T> Taker<T> {
    ghost use Rattle.intake_ring.specs.Sides.{taken_of, taker_ring};

    /// Takes the oldest item. None says that the ring was empty at one moment of the call, behind all that was put by then:
    /// it is looked for an item, and once more behind a sleep of 100 ms at most, which a put ends. It takes no memory. O(1),
    /// and a call of the system where the end that puts sleeps in it, or where this end has to.
    pub fn take<R: Wait>(&mut self, rt: &R) -> Option<T>
        ensures ring { taker_ring self.new ≡ taker_ring self.old }
        ensures taken { MatchOption result (taken_of self.new ≡ taken_of self.old)
            (λ x. taken_of self.new ≡ taken_of self.old ++ x ∷ []) }
        ensures none { MatchOption result (Held 0 (WerePut (taken_of self.old))) (λ x. ⊤) }
    {
        match self.pop::<Seen, R>(rt) {
            Some(item) => Some(item),
            None => {
                self.ring
                    .taker
                    .sleep(rt, Duration::from_millis(SLEEP_MOST_MS));
                self.pop::<Seen, R>(rt)
            }
        }
    }

    /// Takes the oldest item, and waits for none. None says that the ring was empty at one moment of the call, behind all
    /// that was put by then. It takes no memory. O(1), and a call of the system where the end that puts sleeps in it.
    pub fn try_take<R: Wait>(&mut self, rt: &R) -> Option<T>
        ensures ring { taker_ring self.new ≡ taker_ring self.old }
        ensures taken { MatchOption result (taken_of self.new ≡ taken_of self.old)
            (λ x. taken_of self.new ≡ taken_of self.old ++ x ∷ []) }
        ensures none { MatchOption result (Held 0 (WerePut (taken_of self.old))) (λ x. ⊤) }
    {
        self.pop::<Seen, R>(rt)
    }

    /// The place at which this end sleeps where there is nothing to take, so that others may wake it too. It takes no
    /// memory, and is refused only where the place has 2^63 - 1 shares. O(1).
    pub fn sleeper(&self) -> Result<Arc<Sleeper, Global>, AllocError> {
        Arc::try_clone(&self.ring.taker)
    }

    // Takes the oldest item, and wakes the other end where that is due. None tells what is learned of an empty ring.
    fn pop<M: Lesson<T, Log<T>>, R: Wait>(&mut self, rt: &R) -> Option<T>
        requires learns { Learns Keeps self.old.pass.id (view self.old.pass) (M.fact (view self.old.pass)) }
        ensures ring { taker_ring self.new ≡ taker_ring self.old }
        ensures number { self.new.pass.id ≡ self.old.pass.id }
        ensures taken { MatchOption result (view self.new.pass ≡ view self.old.pass)
            (λ x. taken_of self.new ≡ taken_of self.old ++ x ∷ []) }
        ensures none { MatchOption result (Held 0 (M.fact (view self.old.pass))) (λ x. ⊤) }
    {
        match self.ring.line.pop_as::<Takes<M>, R>(rt, &mut self.pass) {
            Some(item) => {
                self.note_taken();
                Some(item)
            }
            None => {
                self.wake_filler();
                None
            }
        }
    }

    // Counts an item that was taken.
    fn note_taken(&mut self)
        ensures ring { (self.new.ring ≡ self.old.ring) × (self.new.pass ≡ self.old.pass) }
    {
        if self.since < self.half {
            self.since += 1;
        }
        if self.since >= self.half {
            self.wake_filler();
        }
    }

    fn wake_filler(&mut self)
        ensures ring { (self.new.ring ≡ self.old.ring) × (self.new.pass ≡ self.old.pass) }
    {
        self.since = 0;
        self.ring.filler.wake();
    }
}
