ghost use Rattle.std.specs.Prelude.{◌≡◌, ◌+◌, ◌<◌, ◌≤◌, [], ◌∷◌, ◌++◌, length, slice_get, IfOk, IsSomeAnd, vec_capacity, vec_len, All};
ghost use Rattle.hex.specs.Hex.{IsBytes};
ghost use Rattle.hist_store.specs.Rows.{held, emptied, KeepsOctets, with_row};

use savi_kinds::{Act, Entry};
use std::alloc::{AllocError, Global};
use std::marker::Model;

/// The entries of a history in order, and the octets of its frames and commands in one store.
///
/// Contracts see the rows, and for how many entries and octets there is room. Only `make` takes memory.
#[derive(Drop)]
pub struct Hist {
    entries: Vec<Entry>,
    octets: Vec<u8>,
    entry_room: u64,
    byte_room: u64,
}

impl Model for Hist {
    ghost use Rattle.std.specs.Prelude.{◌≤◌, map, vec_capacity};
    ghost use Rattle.hist_store.specs.Rows.{History};
    ghost use Rattle.hist_store.specs.StoredRows.{entry_row, IsStore};

    ghost Value = { History };

    ghost view = { λ h. record { rows = map (entry_row h.octets.items) h.entries.items; entry_room = h.entry_room; byte_room = h.byte_room } };

    ghost invariant = { λ h. IsStore h.octets.items h.entries.items × (h.entry_room ≤ vec_capacity h.entries) × (h.byte_room ≤ vec_capacity h.octets) };
}

impl Hist {
    /// An empty history with room for so many entries and so many octets. It takes all its memory here.
    pub fn make(alloc: Global, entries: u64, bytes: u64) -> Result<Hist, AllocError>
        ensures { IfOk result (λ h. h ≡ record { rows = []; entry_room = entries; byte_room = bytes }) }
    {
        Ok(Hist {
            entries: Vec::with_capacity(alloc, entries as usize)?,
            octets: Vec::with_capacity(alloc, bytes as usize)?,
            entry_room: entries,
            byte_room: bytes,
        })
    }

    /// Adds an entry with its octets. O(1) beside the copy of the octets.
    ///
    /// There is room for one more entry and for its octets. A frame and a command have as many octets as their `len` says,
    /// and their `at` is how many are held already; every other entry has no octets.
    pub fn append(&mut self, e: Entry, octets: &[u8])
        requires room { length self.old.rows < self.old.entry_room }
        requires bytes { held self.old.rows + length octets.now ≤ self.old.byte_room }
        requires placed { KeepsOctets e.act (held self.old.rows) octets.now }
        ensures { self.new ≡ with_row self.old e octets.now }
    {
        add_octets(&mut self.octets, octets);
        add_entry(&mut self.entries, e);
    }

    /// Takes all entries and octets away. The room for them stays: it takes no memory and gives none back. O(n) at most.
    pub fn clear(&mut self)
        ensures { self.new ≡ emptied self.old }
    {
        self.entries.clear();
        self.octets.clear();
    }

    /// How many entries there are. What is kept of each is octets, none above 255. O(1).
    pub fn len(&self) -> u64
        ensures len { result ≡ length self.now.rows }
        ensures octets { All (λ row. IsBytes row.octets) self.now.rows }
    {
        know_octets(self.octets.as_slice());
        self.entries.len() as u64
    }

    /// How many octets are kept. O(1).
    pub fn held(&self) -> u64
        ensures { result ≡ held self.now.rows }
    {
        self.octets.len() as u64
    }

    /// The entry with this number, counted from 0. O(1).
    pub fn entry(&self, n: u64) -> Entry
        requires { n < length self.now.rows }
        ensures { IsSomeAnd (slice_get self.now.rows n) (λ row. row.entry ≡ result) }
    {
        self.entries[n as usize]
    }

    /// The octets of the entry with this number, counted from 0. O(1).
    pub fn octets(&self, n: u64) -> &[u8]
        requires { n < length self.now.rows }
        ensures { IsSomeAnd (slice_get self.now.rows n) (λ row. row.octets ≡ result.now) }
    {
        match self.entries[n as usize].act {
            Act::Frame { at, len, .. } | Act::Command { at, len, .. } => {
                &self.octets[at as usize..at as usize + len as usize]
            }
            Act::Long { .. } | Act::Tick { .. } | Act::Drain { .. } | Act::End { .. } => &[],
        }
    }
}

// Adds an entry for which there is room.
fn add_entry(entries: &mut Vec<Entry>, e: Entry)
    requires { vec_len entries.old < vec_capacity entries.old }
    ensures items { entries.new.items ≡ entries.old.items ++ e ∷ [] }
    ensures capacity { vec_capacity entries.old ≤ vec_capacity entries.new }
{
    match entries.push(e) {
        Ok(()) => {}
        Err(_) => unreachable!(),
    }
}

// Adds octets for which there is room.
fn add_octets(store: &mut Vec<u8>, octets: &[u8])
    requires { vec_len store.old + length octets.now ≤ vec_capacity store.old }
    ensures items { store.new.items ≡ store.old.items ++ octets.now }
    ensures capacity { vec_capacity store.old ≤ vec_capacity store.new }
{
    match store.extend_from_slice(octets) {
        Ok(()) => {}
        Err(_) => unreachable!(),
    }
}

// Does nothing: states for a proof what the type of a store says.
pub fn know_octets(store: &[u8])
    ensures { IsBytes store.now }
{}
