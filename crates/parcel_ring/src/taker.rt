//! The end at which arrivals are taken.
ghost use Rattle.std.specs.Prelude.{◌≡◌, ⊤, [], ◌∷◌, ◌++◌, MatchOption, box_value};
ghost use Rattle.crossbeam_queue.specs.Fifo.{Held};
ghost use Rattle.intake_ring.specs.Order.{WerePut};
ghost use Rattle.parcel_ring.specs.Sides.{given_back, taker_rings, was_taken};

use crate::parcel::Parcel;
use intake_ring::{Filler, Taker};
use sleeper::Sleeper;
use std::alloc::{AllocError, Global};
use std::sync::{Arc, Wait};

/// The end of the rings at which arrivals are taken. It gives each parcel back once it is done with it.
#[derive(Drop)]
pub struct ParcelTaker {
    pub(crate) full: Taker<Box<Parcel>>,
    pub(crate) spare: Filler<Box<Parcel>>,
}

impl ParcelTaker {
    /// Takes the oldest parcel. None says that there was none at one moment of the call, behind all that was put by then; it
    /// comes behind a sleep of 100 ms at most, which a put ends. O(1).
    pub fn take<R: Wait>(&mut self, rt: &R) -> Option<Box<Parcel>>
        ensures rings { taker_rings self.new ≡ taker_rings self.old }
        ensures taken { MatchOption result (was_taken self.new ≡ was_taken self.old)
            (λ parcel. was_taken self.new ≡ was_taken self.old ++ box_value parcel ∷ []) }
        ensures none { MatchOption result (Held 0 (WerePut (was_taken self.old))) (λ parcel. ⊤) }
    {
        self.full.take(rt)
    }

    /// Takes the oldest parcel, and waits for none. None says that there was none at one moment of the call, behind all that
    /// was put by then. O(1).
    pub fn try_take<R: Wait>(&mut self, rt: &R) -> Option<Box<Parcel>>
        ensures rings { taker_rings self.new ≡ taker_rings self.old }
        ensures taken { MatchOption result (was_taken self.new ≡ was_taken self.old)
            (λ parcel. was_taken self.new ≡ was_taken self.old ++ box_value parcel ∷ []) }
        ensures none { MatchOption result (Held 0 (WerePut (was_taken self.old))) (λ parcel. ⊤) }
    {
        self.full.try_take(rt)
    }

    /// The place at which `take` sleeps, so that others may wake it too (`Taker::sleeper`). O(1).
    pub fn sleeper(&self) -> Result<Arc<Sleeper, Global>, AllocError> {
        self.full.sleeper()
    }

    /// Gives a parcel back, for another arrival. O(1).
    pub fn give_back<R: Wait>(&mut self, rt: &R, parcel: Box<Parcel>)
        ensures rings { taker_rings self.new ≡ taker_rings self.old }
        ensures taken { was_taken self.new ≡ was_taken self.old }
        ensures back { given_back self.new ≡ given_back self.old ++ parcel ∷ [] }
    {
        self.spare.put(rt, parcel);
    }
}
