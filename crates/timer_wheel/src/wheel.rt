//! The pairs that are armed.

ghost use Rattle.std.specs.Prelude.{◌≡◌, ◌^◌, ◌≤◌, ◌<◌, ◌⊎◌, [], None, Some, IfOk, IsSome, is_some, length};
ghost use Rattle.savi_kinds.specs.Orders.{IsRising};
ghost use Rattle.timer_wheel.specs.Arms.{armed_address, due_in, with_due, first_armed, due_within, without_taken};

use crate::armed::{Armed, SLICE_MS};
use crate::buckets::{BUCKETS, put_in, renew, seek, take_out};
use crate::rings::Rings;
use crate::timer::Timer;
use addr_index::AddrIndex;
use savi_kinds::{Addr, Moment};
use slab::Slab;
use std::alloc::{AllocError, Global};
use std::marker::Model;

/// For each of at most so many addresses the moment (ms) at which it is due.
///
/// A row that is due at d stands in bucket (d / 64) mod 1,024, also where it is due turns later. The rows of a bucket are
/// linked in order of moment, then address. A cursor stands at no later slice of 64 ms than the least row.
#[derive(Drop)]
pub struct TimerWheel {
    rows: Slab<Timer>,
    index: AddrIndex,
    rings: Rings,
    cursor: u64,
    most: u32,
}

impl Model for TimerWheel {
    ghost use Rattle.timer_wheel.specs.Arms.{Wheel};
    ghost use Rattle.timer_wheel.specs.Rows.{arms_in};
    ghost use Rattle.timer_wheel.specs.Kept.{IsKept};

    ghost Value = { Wheel };

    ghost view = { λ w. record { arms = arms_in w.rows.slots; most = w.most } };

    ghost invariant = { λ w. IsKept w.rows w.index w.rings.later.items w.rings.earlier.items w.cursor w.most };
}

impl TimerWheel {
    /// Nothing armed, and room for so many addresses, at most 2^20. It takes all its memory here, O(rows). A slab with more
    /// room than 32-bit keys have counts as want of memory; a slab takes no more room than it is asked for.
    pub fn make(alloc: Global, rows: u32) -> Result<TimerWheel, AllocError>
        requires { rows ≤ 2 ^ 20 }
        ensures { IfOk result (λ wheel. wheel ≡ record { arms = []; most = rows }) }
    {
        let slots = Slab::with_capacity(alloc, rows as usize)?;
        if slots.capacity() > (u32::MAX - BUCKETS) as usize {
            return Err(AllocError);
        }
        let nodes = BUCKETS + slots.capacity() as u32;
        Ok(TimerWheel {
            rows: slots,
            index: AddrIndex::make(alloc, rows.max(1))?,
            rings: Rings::make(alloc, nodes)?,
            cursor: 0,
            most: rows,
        })
    }

    /// The address is due at this moment (ms), in place of what was armed for it. It is one look-up of the address, O(1) on
    /// average, and a walk over those rows of the new bucket that are due later. A renewal is due after all that were
    /// renewed before it for as long, so that it walks over none but those that were armed for longer.
    #[inline(always)]
    pub fn arm(&mut self, a: Addr, due: Moment)
        requires { IsSome (due_in self.old.arms a.0) ⊎ (length self.old.arms < self.old.most) }
        ensures { self.new ≡ record self.old { arms = with_due a.0 (Some due) self.old.arms } }
    {
        let armed = Armed { address: a, due };
        self.cursor = self.cursor.min(armed.slice());
        match self.index.get(a) {
            Some(key) => renew(&mut self.rows, &mut self.rings, key, armed),
            None => {
                let key = put_in(&mut self.rows, &mut self.rings, armed);
                self.index.insert(a, key);
            }
        }
    }

    /// The address is no longer due, if it was. O(1) on average.
    pub fn cancel(&mut self, a: Addr)
        ensures { self.new ≡ record self.old { arms = with_due a.0 None self.old.arms } }
    {
        if let Some(key) = self.index.get(a) {
            self.index.remove(a);
            take_out(&mut self.rows, &mut self.rings, key);
        }
    }

    /// Takes out what is due first, the least by moment and then by address, if its moment isn't after `t` (ms): None
    /// exactly where nothing is due at or before `t`, and then nothing has changed. It looks at each of the 1,024 buckets
    /// at most once, at the first row alone. Where nothing is due it is O(1) beside the buckets that it passes, which are
    /// those of the time that has passed since the last call of this or of `is_due`, and those from the earliest moment
    /// armed since.
    pub fn next_due(&mut self, t: Moment) -> Option<(Moment, Addr)>
        ensures rising { IsRising armed_address self.old.arms }
        ensures value { result ≡ due_within t (first_armed self.old.arms) }
        ensures arms { self.new ≡ record self.old { arms = without_taken result self.old.arms } }
    {
        let (due, address) = self.first_due(t)?;
        self.cancel(address);
        Some((due, address))
    }

    /// Whether anything is due at or before `t` (ms). Its cost is that of the search of `next_due`, which need not pass the
    /// same buckets again: the cursor is moved on, and nothing else is changed.
    pub fn is_due(&mut self, t: Moment) -> bool
        ensures rising { IsRising armed_address self.old.arms }
        ensures value { result ≡ is_some (due_within t (first_armed self.old.arms)) }
        ensures same { self.new ≡ self.old }
    {
        self.first_due(t).is_some()
    }

    /// What is due first, the least by moment and then by address, if its moment isn't after `t` (ms). It stays armed. Its
    /// cost is that of `is_due`.
    pub fn first_due(&mut self, t: Moment) -> Option<(Moment, Addr)>
        ensures rising { IsRising armed_address self.old.arms }
        ensures value { result ≡ due_within t (first_armed self.old.arms) }
        ensures same { self.new ≡ self.old }
    {
        let found = seek(&self.rows, &self.rings, self.cursor, t / SLICE_MS);
        self.cursor = found.cursor;
        let armed = found.least?;
        if armed.due > t {
            return None;
        }
        Some((armed.due, armed.address))
    }
}
