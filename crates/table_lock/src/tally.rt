ghost use Rattle.std.specs.Prelude.{◌≡◌, ◌<◌, ◌≤◌, [], ◌∷◌, ◌++◌, length, IfOk, IsTrue, if◌then◌else◌, ◌↔◌};

use crate::kept::Kept;
use std::alloc::{AllocError, Global};
use std::marker::Model;

/// A list of the numbers of passes, with its room: the smallest value that the lock can keep.
#[derive(Drop)]
pub struct Tally {
    numbers: Vec<u32>,
    room: u64,
}

impl Model for Tally {
    ghost use Rattle.std.specs.Prelude.{◌≤◌, vec_capacity, vec_len};
    ghost use Rattle.table_lock.specs.Tallies.{Tallied};

    ghost Value = { Tallied };

    ghost view = { λ t. record { numbers = t.numbers.items; room = t.room } };

    ghost invariant = { λ t. (vec_len t.numbers ≤ t.room) × (t.room ≤ vec_capacity t.numbers) };
}

impl Tally {
    /// An empty tally with room for so many numbers. It takes all its memory here.
    pub fn make(alloc: Global, room: u64) -> Result<Tally, AllocError>
        ensures { IfOk result (λ t. t ≡ record { numbers = []; room = room }) }
    {
        Ok(Tally {
            numbers: Vec::with_capacity(alloc, room as usize)?,
            room,
        })
    }

    /// Adds a number, for which there has to be room. O(1).
    pub fn add(&mut self, by: u32)
        requires { length self.old.numbers < self.old.room }
        ensures { self.new ≡ record self.old { numbers = self.old.numbers ++ by ∷ [] } }
    {
        self.numbers.push_reserved(by);
    }

    /// Adds a number where there is room, and says whether there was. O(1).
    pub fn try_add(&mut self, by: u32) -> bool
        ensures room { IsTrue result ↔ (length self.old.numbers < self.old.room) }
        ensures value { self.new ≡ (if result then record self.old { numbers = self.old.numbers ++ by ∷ [] }
            else self.old) }
    {
        let has_room = (self.numbers.len() as u64) < self.room;
        if has_room {
            self.add(by);
        }
        has_room
    }

    /// The numbers that were added, in order, at most as many as there is room for. O(1).
    pub fn numbers(&self) -> &[u32]
        ensures numbers { result.now ≡ self.now.numbers }
        ensures room { length self.now.numbers ≤ self.now.room }
    {
        self.numbers.as_slice()
    }
}

impl Kept for Tally {
    ghost use Rattle.table_lock.specs.Tallies.{tally_fixed, tally_history};

    ghost history = { tally_history };

    ghost fixed = { tally_fixed };

    fn entries(&self) -> u64 {
        self.numbers.len() as u64
    }
}
