//! The index.

ghost use Rattle.std.specs.Prelude.{◌≡◌, ◌==◌, ◌≤◌, ◌<◌, ◌+◌, ◌^◌, ℕ, [], Some, None, is_some, if◌then◌else◌, length, IfOk};
ghost use Rattle.addr_index.specs.Indexes.{Index, key_in};

use crate::entry::Entry;
use crate::place::Place;
use crate::places::{close_gap, search};
use savi_kinds::Addr;
use std::alloc::{AllocError, Global};
use std::marker::Model;

/// The key of each address that it holds.
///
/// An entry stands in the first place that was empty from the home of its address on, among at least twice as many places
/// as there may be entries. A call takes O(1) on average. At worst the homes of all addresses fall together, and it goes
/// over all of them: at most 1,024 where the addresses are those that hosts may hold, 64 at each of 16 ports.
#[derive(Drop)]
pub struct AddrIndex {
    places: Vec<Place>,
    most: u32,
}

impl Model for AddrIndex {
    ghost use Rattle.addr_index.specs.Indexes.{Index};
    ghost use Rattle.addr_index.specs.Places.{IsPlaceTable, entries_of};

    ghost Value = { Index };

    ghost view = { λ i. record { entries = entries_of i.places.items; most = i.most } };

    ghost invariant = { λ i. IsPlaceTable i.places.items i.most };
}

impl AddrIndex {
    /// An index of no address, with room for `most` of them, from 1 to 2^20. It takes all its memory here.
    pub fn make(alloc: Global, most: u32) -> Result<AddrIndex, AllocError>
        requires some { 1 ≤ most }
        requires limit { most ≤ 2 ^ 20 }
        ensures { IfOk result (λ index. (index.entries ≡ []) × (index.most ≡ most)) }
    {
        let count = (2 * most as usize).next_power_of_two();
        let mut places = Vec::with_capacity(alloc, count)?;
        for _ in 0..count {
            places.push(Place::empty())?;
        }
        Ok(AddrIndex { places, most })
    }

    /// The key of an address: None exactly where the index doesn't hold it. O(1) on average.
    #[inline(always)]
    pub fn get(&self, a: Addr) -> Option<u32>
        ensures { result ≡ key_in self.now a.0 }
    {
        match search(&self.places, a.0) {
            Ok(place) => self.places[place].entry().map(|entry| entry.key),
            Err(_) => None,
        }
    }

    /// Takes in an address that the index doesn't hold, with its key. O(1) on average.
    #[inline(never)]
    pub fn insert(&mut self, a: Addr, key: u32)
        requires absent { key_in self.old a.0 ≡ None }
        requires room { length self.old.entries < self.old.most }
        ensures keys { (b : ℕ) → key_in self.new b ≡ (if a.0 == b then Some key else key_in self.old b) }
        ensures len { length self.new.entries ≡ length self.old.entries + 1 }
        ensures most { self.new.most ≡ self.old.most }
    {
        match search(&self.places, a.0) {
            Ok(_) => unreachable!(),
            Err(place) => self.places[place] = Place::of(Entry { address: a.0, key }),
        }
    }

    /// Gives up an address with its key. An index that doesn't hold it stays as it is. O(1) on average.
    pub fn remove(&mut self, a: Addr)
        ensures keys { (b : ℕ) → key_in self.new b ≡ (if a.0 == b then None else key_in self.old b) }
        ensures len { length self.new.entries + (if is_some (key_in self.old a.0) then 1 else 0) ≡ length self.old.entries }
        ensures most { self.new.most ≡ self.old.most }
        ensures absent { key_in self.old a.0 ≡ None → self.new ≡ self.old }
    {
        if let Ok(place) = search(&self.places, a.0) {
            self.places[place] = Place::empty();
            close_gap(&mut self.places, place);
        }
    }
}
