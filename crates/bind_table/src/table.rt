//! The table.

ghost use Rattle.std.specs.Prelude.{◌≡◌, ◌^◌, ◌⊎◌, ◌<◌, ◌≤◌, [], true, length, IfOk, slice_get};
ghost use Rattle.std.specs.Option.{option_map};
ghost use Rattle.savi_kinds.specs.Ports.{number_of};
ghost use Rattle.mix_rules.specs.States.{nobody, has_state};
ghost use Rattle.savi_access.specs.Rows.{state_in, with_state, count_at, pair_of, IsTable};

use crate::counts::{count, holders, recount};
use crate::search::count_lower;
use crate::stored::{empty_sets, insert, renew, row_under};
use addr_index::AddrIndex;
use mix_rules::AddrState;
use savi_access::Row;
use savi_kinds::{Addr, PORTS_MOST, Port, PortSet};
use slab::Slab;
use std::alloc::{AllocError, Global};
use std::marker::Model;

/// The most rows that a table can be made for.
pub const ROWS_MOST: u32 = 1 << 20;

// A slab names its rows by keys below its capacity. Here they are kept in 32 bits.
const KEYS_MOST: usize = 1 << 32;

/// The state of each address that has one.
///
/// Rows stand in a slab. Their keys are found by address in an index, and stand once more in a list in order of address:
/// 4 octets a row, which is all that moves when a row comes or goes. The ports that hold an address are kept beside its row,
/// 2 octets, so that a renewal need not look into the state before. What an index costs is said at `AddrIndex`: O(1) on
/// average, and at worst as many places as there are rows, where all of their addresses fall into one cluster.
#[derive(Drop)]
pub struct BindTable {
    rows: Slab<Row>,
    index: AddrIndex,
    order: Vec<u32>,
    held: Vec<PortSet>,
    counts: [u32; PORTS_MOST],
    most: u32,
}

impl Model for BindTable {
    ghost use Rattle.std.specs.Prelude.{length, vec_capacity};
    ghost use Rattle.bind_table.specs.Bindings.{Bindings};
    ghost use Rattle.bind_table.specs.Kept.{rows_under, IsKept, HasRoom, HasHolders};

    ghost Value = { Bindings };

    ghost view = { λ b. record { rows = rows_under b.rows b.order.items; most = b.most } };

    ghost invariant = { λ b. IsKept b.rows b.index b.order.items b.counts (rows_under b.rows b.order.items) × HasRoom b.rows b.index (vec_capacity b.order) b.most (length (rows_under b.rows b.order.items)) × HasHolders b.rows b.held.items };
}

impl BindTable {
    /// No address has a state, and at most `rows` addresses will have one, at most 2^20. It takes all its memory here,
    /// O(rows). A slab with more room than 32-bit keys have counts as want of memory; a slab takes no more room than it is
    /// asked for.
    pub fn make(alloc: Global, rows: u32) -> Result<BindTable, AllocError>
        requires { rows ≤ 2 ^ 20 }
        ensures { IfOk result (λ table. table ≡ record { rows = []; most = rows }) }
    {
        let slab = Slab::with_capacity(alloc, rows as usize)?;
        if slab.capacity() > KEYS_MOST {
            return Err(AllocError);
        }
        let held = empty_sets(alloc, slab.capacity())?;
        Ok(BindTable {
            rows: slab,
            index: AddrIndex::make(alloc, rows.max(1))?,
            order: Vec::with_capacity(alloc, rows as usize)?,
            held,
            counts: [0; PORTS_MOST],
            most: rows,
        })
    }

    /// The state of an address: `AddrState::none()` exactly where it has no row. O(1) on average.
    #[inline(always)]
    pub fn get(&self, a: Addr) -> AddrState
        ensures { result ≡ state_in self.now.rows a.0 }
    {
        match self.index.get(a) {
            Some(key) => row_under(&self.rows, key).state,
            None => AddrState::none(),
        }
    }

    /// Gives an address a state, which isn't `AddrState::none()`; there has to be room for its row, where it has none yet.
    /// O(1) on average where it has one; else O(n), since the keys of the rows of higher addresses move: 4 octets each.
    /// Where other ports hold the address than before, the 16 ports are gone over.
    #[inline(always)]
    pub fn put(&mut self, a: Addr, s: AddrState)
        requires state { has_state s ≡ true }
        requires room { (has_state (state_in self.old.rows a.0) ≡ true) ⊎ (length self.old.rows < self.old.most) }
        ensures { self.new ≡ record self.old { rows = with_state a.0 s self.old.rows } }
    {
        let came = holders(&s);
        match self.index.get(a) {
            Some(key) => {
                recount(&mut self.counts, self.held[key as usize], came);
                self.held[key as usize] = came;
                renew(&mut self.rows, key, &s);
            }
            None => {
                let at = count_lower(&self.rows, self.order.as_slice(), a);
                let row = Row {
                    address: a,
                    state: s,
                };
                let key = self.rows.insert_reserved(row) as u32;
                insert(&mut self.order, at, key);
                self.index.insert(a, key);
                self.held[key as usize] = came;
                recount(&mut self.counts, PortSet::empty(), came);
            }
        }
    }

    /// Takes the state of an address away, if it has one. O(n), since the keys of the rows of higher addresses move: 4
    /// octets each; the 16 ports are gone over. O(1) on average where it has none.
    pub fn remove(&mut self, a: Addr)
        ensures { self.new ≡ record self.old { rows = with_state a.0 nobody self.old.rows } }
    {
        let Some(key) = self.index.get(a) else {
            return;
        };
        let at = count_lower(&self.rows, self.order.as_slice(), a);
        self.rows.try_remove(key as usize);
        self.order.remove(at);
        self.index.remove(a);
        recount(&mut self.counts, self.held[key as usize], PortSet::empty());
    }

    /// How many addresses the port holds. An address counts once, and the port that claims it under a test holds it too.
    /// O(1).
    pub fn count(&self, q: Port) -> u32
        ensures { result ≡ count_at (number_of q) self.now.rows }
    {
        count(&self.counts, q)
    }

    /// How many addresses have a state. O(1).
    pub fn size(&self) -> u32
        ensures size { result ≡ length self.now.rows }
        ensures most { result ≤ self.now.most }
    {
        self.order.len() as u32
    }

    /// The `i`-th of the addresses that have a state, in rising order, from 0, with its state: None exactly past the last
    /// one. O(1).
    pub fn row(&self, i: u32) -> Option<(Addr, AddrState)>
        ensures row { result ≡ option_map pair_of (slice_get self.now.rows i) }
        ensures table { IsTable self.now.rows }
    {
        let key = *self.order.get(i as usize)?;
        let row = row_under(&self.rows, key);
        Some((row.address, row.state))
    }
}
