//! How a thread lets time pass until another one has something for it.
//!
//! A lock has places to sleep at, with numbers that its user gives a meaning. Nothing depends on them but time: a sleep has
//! an end whether or not it is woken, and says nothing of the value. A pass sleeps at the one place that it was given, and a
//! wake tells by which pass it was made, and so behind which turn.

ghost use Rattle.std.specs.Prelude.{◌≡◌};

use crate::kept::Kept;
use crate::lock::TableLock;
use crate::pass::Pass;
use sleeper::Sleeper;
use std::alloc::{AllocError, Global};
use std::snapshot::Snapshot;
use std::sync::Wait;
use std::time::Duration;

/// A lock has so many places to sleep at.
const PLACES: usize = 34;

// Places where nobody sleeps yet.
pub(crate) fn places(alloc: Global) -> Result<Vec<Sleeper>, AllocError> {
    let mut sleepers = Vec::with_capacity(alloc, PLACES)?;
    for _ in 0..PLACES {
        sleepers.push(Sleeper::new())?;
    }
    Ok(sleepers)
}

/// A wake: the place whose sleeper was woken, and the pass by which it was, as that then stood. It has no copy.
#[derive(Drop)]
pub struct Woken {
    place: u32,
    by: Snapshot<Pass>,
}

impl<V: Kept> TableLock<V> {
    ghost use Rattle.table_lock.specs.Passes.{IsPassOf, pass_seen};
    ghost use Rattle.table_lock.specs.Wakings.{woken_place, woken_seen};

    /// Sleeps at the pass's place, from 0 to 33, until it is woken, for so long at most; or not at all where it was woken
    /// since its last sleep, or the pass has no such place. It may end early. One thread at a time may sleep at a place.
    ///
    /// Where the last sleep there ended because it was woken, it first looks for some 50 microseconds whether it is woken
    /// again, and gives its processor to others meanwhile.
    pub fn sleep<R: Wait>(&self, rt: &R, pass: &Pass, most: Duration)
        requires { IsPassOf V.fixed self.now pass.now }
    {
        let Some(place) = pass.sleeps_at else {
            return;
        };
        if let Some(sleeper) = self.sleepers.get(place as usize) {
            sleeper.sleep(rt, most);
        }
    }

    /// Wakes who sleeps at a place; where nobody does, the next sleep there ends at once. The answer is that place, with
    /// what the pass has seen that wakes. O(1), and a call of the system only where somebody sleeps there.
    pub fn wake(&self, pass: &Pass, place: u32) -> Woken
        requires { IsPassOf V.fixed self.now pass.now }
        ensures place { woken_place result ≡ place }
        ensures seen { woken_seen result ≡ pass_seen pass.now }
    {
        if let Some(sleeper) = self.sleepers.get(place as usize) {
            sleeper.wake();
        }
        Woken {
            place,
            by: Snapshot::of(pass),
        }
    }
}
