ghost use Rattle.std.specs.Prelude.{◌≡◌, ◌≤◌};

use crate::board::{Board, MADE, Place, SERVING, TICKET, TICKETS_END};
use crate::kept::Kept;
use crate::pass::Pass;
use crate::plays::{Draw, Look, Make, PassOn, Together};
use crate::turn::Held;
use crossbeam_utils::Backoff;
use sleeper::Sleeper;
use std::sync::{Mutex, Wait};

mod make;
mod sleeping;

pub use sleeping::Woken;

/// A value under a lock that its passes take in turns, by ticket. `admission` is held by the pass that has a ticket.
#[derive(Drop)]
pub struct TableLock<V: Kept> {
    pub(crate) table: Board<V>,
    pub(crate) admission: Mutex<()>,
    pub(crate) sleepers: Vec<Sleeper>,
    ghost sized: { (table.shared.table_id.words ≡ 3) × (table.shared.table_id.slots ≡ 1) },
    ghost some: { 1 ≤ table.shared.key.1 },
}

/// There was no memory for the lock. The value comes back.
#[derive(Drop)]
pub struct NotMade<V> {
    pub v: V,
}

impl<V: Kept> TableLock<V> {
    ghost use Rattle.std.specs.Prelude.{ℕ, [], ◌∷◌, Some};
    ghost use Rattle.std.specs.List.{All};
    ghost use Rattle.table_lock.specs.Entries.{mine, StartsWith};
    ghost use Rattle.table_lock.specs.Plays.{Called};
    ghost use Rattle.table_lock.specs.Views.{at_turn};
    ghost use Rattle.table_lock.specs.Passes.{AreAll, AreNumbered, IsPassOf};
    ghost use Rattle.table_lock.specs.Passes.{lock_first, lock_seats, lock_table};
    ghost use Rattle.table_lock.specs.Passes.{pass_fixed, pass_number, pass_own, pass_seen, pass_sleeps_at, pass_table};
    ghost use Rattle.table_lock.specs.Turns.{IsGrown, IsTurn};
    ghost use Rattle.table_lock.specs.Turns.{held_lock, held_number, held_seen, held_sleeps_at, held_value};
    ghost use Rattle.table_lock.specs.declared.board.Stage.TheVariants.{Out, Waiting};

    /// Waits for the pass's turn, and takes the value out of the lock. It takes no memory.
    ///
    /// The pass is one of this lock's. Passes wait asleep for a mutex, and the one that has it draws a ticket, which is
    /// served at once. The mutex says in which order they come; a ticket is what the rule rests on. Nothing is promised of
    /// either, nor of how long that takes.
    pub fn enter<'a, R: Wait>(&'a self, rt: &R, pass: Pass) -> Held<'a, V>
        requires { IsPassOf V.fixed self.now pass }
        ensures turn { IsTurn V.fixed result }
        ensures lock { held_lock result ≡ self.now }
        ensures number { held_number result ≡ pass_number pass }
        ensures sleeps { held_sleeps_at result ≡ pass_sleeps_at pass }
        ensures seen { V.history (held_value result) ≡ held_seen result }
        ensures extends { StartsWith (held_seen result) (pass_seen pass) }
        ensures own { mine (pass_number pass) (held_seen result) ≡ pass_own pass }
        ensures fixed { V.fixed (held_value result) ≡ V.fixed (lock_first self.now) }
    {
        let admitted = self.admission.lock(rt);
        let Pass {
            number,
            sleeps_at,
            badge,
        } = pass;
        let mut place: Place<V> = badge.into_seat();
        let ticket = self.table.shared.fetch_add::<Draw>(&mut place, TICKET, 1);
        self.wait_turn(rt, &mut place, ticket);
        let value = self.table.shared.exchange(&mut place, 0, None).unwrap();
        let entered = value.entries();
        Held {
            lock: self,
            number,
            sleeps_at,
            place,
            value,
            entered,
            admitted,
        }
    }

    // Looks until the ticket is served.
    fn wait_turn<R: Wait>(&self, rt: &R, place: &mut Place<V>, ticket: u64)
        requires table { place.old.table_id ≡ lock_table self.now }
        requires waits { (place.old.me.0.stage ≡ Waiting ticket) × (place.old.me.1 ≡ []) }
        ensures table { place.new.table_id ≡ place.old.table_id }
        ensures called { Called V.history V.fixed place.old.me.0 place.new.me }
    {
        let backoff = Backoff::new();
        for _ in rt.forever() {
            let serving = self.table.shared.load::<Look>(place, SERVING);
            if serving == ticket && serving < TICKETS_END {
                return;
            }
            backoff.snooze();
        }
        unreachable!()
    }

    // Counts the entry that was made, if any.
    pub(crate) fn settle(&self, place: &mut Place<V>, number: u32, grew: bool)
        requires table { place.old.table_id ≡ lock_table self.now }
        requires out { (t : ℕ) × (place.old.me.0 ≡ at_turn number (Out t) place.old.me.0) }
        requires history { (x : V) × (place.old.me.1 ≡ (0, Some x) ∷ [])
            × IsGrown number place.old.me.0.seen (V.history x) grew }
        ensures table { place.new.table_id ≡ place.old.table_id }
        ensures slot { place.new.me.1 ≡ place.old.me.1 }
        ensures out { (t : ℕ) × (x : V) × (place.old.me.1 ≡ (0, Some x) ∷ [])
            × (place.new.me.0 ≡ at_turn number (Out t) (record place.old.me.0 { seen = V.history x })) }
    {
        if grew {
            self.table.shared.fetch_add::<Make>(place, MADE, 1);
        }
    }

    // Serves the next ticket.
    pub(crate) fn pass_on(&self, number: u32, mut place: Place<V>) -> Pass
        requires table { place.table_id ≡ lock_table self.now }
        requires out { (t : ℕ) × (place.me.0 ≡ at_turn number (Out t) place.me.0) }
        requires slot { (x : V) × (place.me.1 ≡ (0, Some x) ∷ [])
            × (V.history x ≡ place.me.0.seen) × (V.fixed x ≡ place.me.0.fixed) }
        ensures table { pass_table result ≡ place.table_id }
        ensures number { pass_number result ≡ number }
        ensures seen { pass_seen result ≡ place.me.0.seen }
        ensures fixed { pass_fixed result ≡ place.me.0.fixed }
    {
        self.table
            .shared
            .fetch_add::<PassOn>(&mut place, SERVING, 1);
        Pass::of(number, place)
    }

    /// Gives the value back: its history has each pass's entries, each once, and no others.
    ///
    /// It needs all passes of this lock, in whatever order, and can't be refused. O(passes), and it takes no memory.
    pub fn close(self, mut passes: Vec<Pass>) -> V
        requires { AreAll V.fixed self passes.items }
        ensures entries { All (λ p. mine (pass_number p) (V.history result) ≡ pass_own p) passes.items }
        ensures begins { All (λ p. StartsWith (V.history result) (pass_seen p)) passes.items }
        ensures numbers { AreNumbered (lock_seats self) passes.items }
        ensures others { (i : ℕ) → lock_seats self ≤ i → mine i (V.history result) ≡ [] }
        ensures fixed { V.fixed result ≡ V.fixed (lock_first self) }
    {
        let last = passes.pop().unwrap();
        let mut place: Place<V> = last.badge.into_seat();
        while let Some(pass) = passes.pop() {
            let Pass {
                number: _,
                sleeps_at: _,
                badge,
            } = pass;
            self.table
                .shared
                .join_seat::<Together>(&mut place, badge.into_seat());
        }
        let TableLock {
            table,
            admission: _,
            sleepers,
        } = self;
        drop(sleepers);
        let mut closed = table.close_with(place);
        let value = closed.take(0);
        closed.free();
        value.unwrap()
    }
}
