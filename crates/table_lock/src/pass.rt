ghost use Rattle.std.specs.Prelude.{◌≡◌, [], ◌∷◌, Some, None};
ghost use Rattle.table_lock.specs.Views.{at_turn, view_of};
ghost use Rattle.table_lock.specs.declared.board.Stage.TheVariants.{Idle};

use crate::board::{Place, View};
use atomic_table::Badge;

/// The right to enter one lock, in turns. It has no `Clone`, and is given up while it waits and while it is in.
///
/// It carries what it has seen of the value's history and the entries that it made, for proofs alone; and the place at which
/// it sleeps (`TableLock::sleep`), if it was given one.
#[derive(Drop)]
pub struct Pass {
    pub(crate) number: u32,
    pub(crate) sleeps_at: Option<u32>,
    pub(crate) badge: Badge<View>,
    ghost seated: { badge.views ≡ at_turn number Idle (view_of badge.views) ∷ [] },
}

impl Pass {
    ghost use Rattle.table_lock.specs.Passes.{pass_fixed, pass_number, pass_seen, pass_sleeps_at, pass_table};

    // The pass that has this seat, between two turns. It has no place to sleep at.
    pub(crate) fn of<V>(number: u32, place: Place<V>) -> Pass
        requires { (place.me.1 ≡ []) × (place.me.0 ≡ at_turn number Idle place.me.0) }
        ensures table { pass_table result ≡ place.table_id }
        ensures number { pass_number result ≡ number }
        ensures seen { pass_seen result ≡ place.me.0.seen }
        ensures fixed { pass_fixed result ≡ place.me.0.fixed }
        ensures sleeps { pass_sleeps_at result ≡ None }
    {
        Pass {
            number,
            sleeps_at: None,
            badge: place.into_badge(),
        }
    }

    /// The number of the pass, counted from 0 in the order in which `make` dealt them. O(1).
    pub fn number(&self) -> u32
        ensures { result ≡ pass_number self.now }
    {
        self.number
    }

    /// The same pass, which sleeps at this place from now on. It has none yet, so that all its sleeps are at one place. O(1).
    pub fn sleeping_at(self, place: u32) -> Pass
        requires { pass_sleeps_at self ≡ None }
        ensures table { pass_table result ≡ pass_table self }
        ensures number { pass_number result ≡ pass_number self }
        ensures seen { pass_seen result ≡ pass_seen self }
        ensures fixed { pass_fixed result ≡ pass_fixed self }
        ensures sleeps { pass_sleeps_at result ≡ Some place }
    {
        let Pass {
            number,
            sleeps_at: _,
            badge,
        } = self;
        Pass {
            number,
            sleeps_at: Some(place),
            badge,
        }
    }
}
