//! The end at which items are put.
ghost use Rattle.std.specs.Prelude.{◌≡◌, true, false, [], ◌∷◌, ◌++◌};
ghost use Rattle.intake_ring.specs.Order.{log};

use crate::ring::{Ring, SLEEP_MOST_MS};
use crate::rule::{Log, Puts};
use crossbeam_queue::Pass;
use std::alloc::Global;
use std::sync::{Arc, Wait};
use std::time::Duration;

/// The end of a ring at which items are put. It knows what was put so far, for proofs alone.
#[derive(Drop)]
pub struct Filler<T> {
    pub(crate) ring: Arc<Ring<T>, Global>,
    pub(crate) pass: Pass<T, Log<T>>,
    ghost seated: { (pass.table_id ≡ ring.value.line.table.shared.table_id) × (pass.me.1 ≡ []) },
    ghost puts: { pass.me.0.client ≡ log true false pass.me.0.client.put [] },
}

impl<T> Filler<T> {
    ghost use Rattle.intake_ring.specs.Sides.{filler_ring, put_of};

    /// Puts an item behind the others, and waits asleep while the ring is full. It takes no memory. O(1), and a call of the
    /// system where the end that takes sleeps in it, or where this end has to.
    pub fn put<R: Wait>(&mut self, rt: &R, item: T)
        ensures ring { filler_ring self.new ≡ filler_ring self.old }
        ensures put { put_of self.new ≡ put_of self.old ++ item ∷ [] }
    {
        let mut item = item;
        for _ in rt.forever() {
            match self.ring.line.push_as::<Puts, R>(rt, &mut self.pass, item) {
                Ok(()) => {
                    self.ring.taker.wake();
                    return;
                }
                Err(back) => {
                    item = back;
                    self.ring
                        .filler
                        .sleep(rt, Duration::from_millis(SLEEP_MOST_MS));
                }
            }
        }
        unreachable!()
    }
}
