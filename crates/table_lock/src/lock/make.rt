//! How a lock and its passes are made.
ghost use Rattle.std.specs.Prelude.{◌≡◌, ◌≤◌, [], ◌∷◌, IfOk, IfErr, Some, vec_capacity};
ghost use Rattle.table_lock.specs.Passes.{AreAll, AreDealt, lock_first, lock_seats, lock_table};
ghost use Rattle.table_lock.specs.Rule.{opening_view};

use crate::board::{About, Place};
use crate::kept::Kept;
use crate::lock::sleeping::places;
use crate::lock::{NotMade, TableLock};
use crate::pass::Pass;
use crate::plays::Deal;
use atomic_table::{Refused, Table};
use std::alloc::Global;
use std::snapshot::Snapshot;
use std::sync::Mutex;

// The one value of a row of slots.
fn only<V>(mut slots: Vec<Option<V>>) -> V
    requires { (v : V) × (slots.items ≡ Some v ∷ []) }
    ensures { slots.items ≡ Some result ∷ [] }
{
    let value = slots.pop().unwrap().unwrap();
    slots.destroy_empty();
    value
}

// The lock with the value in its slot, and the seat of the first pass.
fn lay<V: Kept>(alloc: Global, v: V, n: u32) -> Result<(TableLock<V>, Place<V>), NotMade<V>>
    requires number { (1 ≤ n) × (n ≤ 34) }
    requires empty { V.history v ≡ [] }
    ensures lock { IfOk result (λ r. (lock_seats r.0 ≡ n) × (lock_first r.0 ≡ v)) }
    ensures seat { IfOk result (λ r. (r.1.table_id ≡ lock_table r.0)
        × (r.1.me ≡ (opening_view (V.fixed v), []))) }
    ensures err { IfErr result (λ r. r.v ≡ v) }
{
    let about: About<V> = (Snapshot::of(&v), n);
    let Ok(sleepers) = places(alloc) else {
        return Err(NotMade { v });
    };
    let Ok(mut slots) = Vec::with_capacity(alloc, 1) else {
        return Err(NotMade { v });
    };
    slots.push_reserved(Some(v));
    match Table::new(alloc, &[0, 0, 0], slots, &about) {
        Ok((table, place)) => Ok((
            TableLock {
                table,
                admission: Mutex::new(()),
                sleepers,
            },
            place,
        )),
        Err(Refused { slots }) => Err(NotMade { v: only(slots) }),
    }
}

// Splits the seats of the other passes off the first one's, and makes a pass of each.
fn deal<V: Kept>(
    lock: &TableLock<V>,
    mut first: Place<V>,
    mut passes: Vec<Pass>,
    n: u32,
) -> Vec<Pass>
    requires number { (1 ≤ n) × (n ≡ lock_seats lock.now) }
    requires seat { (first.table_id ≡ lock_table lock.now)
        × (first.me ≡ (opening_view (V.fixed (lock_first lock.now)), [])) }
    requires room { (passes.items ≡ []) × (n ≤ vec_capacity passes) }
    ensures all { AreAll V.fixed lock.now result.items }
    ensures new { AreDealt result.items }
{
    for number in 1..n {
        let seat = lock.table.shared.split_seat::<Deal>(&mut first);
        passes.push_reserved(Pass::of(number, seat));
    }
    match passes.insert(0, Pass::of(0, first)) {
        Ok(()) => passes,
        Err(_) => unreachable!(),
    }
}

impl<V: Kept> TableLock<V> {
    /// A lock round the value, and its passes in the order of their numbers. It takes all its memory here.
    ///
    /// There may be 1 to 34 passes, and the value's history has to be empty. It is refused for want of memory alone, and
    /// then hands the value back.
    pub fn make(alloc: Global, v: V, n: u32) -> Result<(TableLock<V>, Vec<Pass>), NotMade<V>>
        requires number { (1 ≤ n) × (n ≤ 34) }
        requires empty { V.history v ≡ [] }
        ensures passes { IfOk result (λ r. AreAll V.fixed r.0 r.1.items × AreDealt r.1.items) }
        ensures lock { IfOk result (λ r. (lock_seats r.0 ≡ n) × (lock_first r.0 ≡ v)) }
        ensures err { IfErr result (λ r. r.v ≡ v) }
    {
        let Ok(passes) = Vec::with_capacity(alloc, n as usize) else {
            return Err(NotMade { v });
        };
        let (lock, first) = lay(alloc, v, n)?;
        let passes = deal(&lock, first, passes, n);
        Ok((lock, passes))
    }
}
