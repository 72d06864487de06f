//! The table under the lock. Word 0 is the next ticket, word 1 the ticket that is served, word 2 how many entries were made.
//! Its one slot has the value.
use crate::kept::Kept;
use atomic_table::{Seat, Table, TableRule};
use std::alloc::Global;
use std::collections::LinkedList;
use std::snapshot::Snapshot;

pub(crate) const TICKET: usize = 0;

pub(crate) const SERVING: usize = 1;

pub(crate) const MADE: usize = 2;

/// The tickets below this one are served. A pass with a later one waits for good, so that no word wraps.
pub(crate) const TICKETS_END: u64 = 1 << 63;

/// Where a pass is, with its ticket.
pub enum Stage {
    /// It was joined into another.
    Spent,
    Idle,
    Waiting(u64),
    /// It has the value.
    Out(u64),
}

/// What a pass knows. No value of it is made.
pub struct View {
    /// The pass's own number, which a spent one hasn't.
    pub number: Option<u64>,
    pub stage: Stage,
    /// How many numbers were given out, and 0 where another pass knows that.
    pub seats: u64,
    /// The history as the pass last saw it.
    pub seen: LinkedList<(u64, LinkedList<u64>)>,
    /// The entries of each number that is this pass's.
    pub mine: LinkedList<(u64, LinkedList<(u64, LinkedList<u64>)>)>,
    pub fixed: LinkedList<u64>,
    /// What the passes that were joined in had seen.
    pub told: LinkedList<LinkedList<(u64, LinkedList<u64>)>>,
}

/// The value that the lock was made with, and the number of its passes.
pub type About<V> = (Snapshot<V>, u32);

/// The rule of the table.
pub struct Turns;

impl<V: Kept> TableRule<Option<V>, View, About<V>> for Turns {
    ghost use Rattle.table_lock.specs.Rule.{Keeps, opening_view};

    ghost holds = { λ key s. Keeps V.history V.fixed (V.fixed key.0.value) key.1 s };

    ghost first = { λ key. opening_view (V.fixed key.0.value) };
}

pub type Board<V> = Table<Option<V>, View, About<V>, Turns, Global>;

pub type Place<V> = Seat<Option<V>, View>;
