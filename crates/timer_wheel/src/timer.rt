//! A row of a wheel.

ghost use Rattle.std.specs.Prelude.{◌≡◌};

use crate::armed::Armed;
use savi_kinds::{Addr, Moment};
use std::marker::Model;

/// An address and the moment (ms) at which it is due. It takes 32 octets in a slab, with the address as two halves; an
/// `Armed` takes 48.
#[derive(Drop)]
pub(crate) struct Timer {
    high: u64,
    low: u64,
    due: Moment,
}

impl Model for Timer {
    ghost use Rattle.timer_wheel.specs.declared.armed.Armed.{Armed};
    ghost use Rattle.timer_wheel.specs.Rows.{armed_of};

    ghost Value = { Armed };

    ghost view = { λ t. armed_of t.high t.low t.due };
}

impl Timer {
    // The row of a pair.
    #[inline(always)]
    pub(crate) fn of(armed: Armed) -> Timer
        ensures { result ≡ armed }
    {
        Timer {
            high: (armed.address.0 >> 64) as u64,
            low: (armed.address.0 % (1 << 64)) as u64,
            due: armed.due,
        }
    }

    // Its pair.
    #[inline(always)]
    pub(crate) fn armed(&self) -> Armed
        ensures { result ≡ self.now }
    {
        Armed {
            address: Addr(u128::from(self.high) * (1 << 64) + u128::from(self.low)),
            due: self.due,
        }
    }

    // Gives it another moment.
    #[inline(always)]
    pub(crate) fn set_due(&mut self, due: Moment)
        ensures { self.new ≡ record self.old { due = due } }
    {
        self.due = due;
    }
}
