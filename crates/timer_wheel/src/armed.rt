//! What is armed for an address.

ghost use Rattle.std.specs.Prelude.{◌≡◌};

use savi_kinds::{Addr, Moment};

/// How long a slice of time is, in ms.
pub(crate) const SLICE_MS: u64 = 64;

/// An address and the moment (ms) at which it is due.
#[derive(Clone, Copy, PartialEq, Eq, Debug)]
pub struct Armed {
    /// The address.
    pub address: Addr,
    /// The moment (ms) at which it is due.
    pub due: Moment,
}

impl Armed {
    ghost use Rattle.timer_wheel.specs.Rings.{slice_of, is_sooner};

    // The slice of time in which it is due.
    #[inline(always)]
    pub(crate) fn slice(&self) -> u64
        ensures { result ≡ slice_of self.now }
    {
        self.due / SLICE_MS
    }

    // Whether it is due sooner than another one, or at the same moment and of a lower address.
    #[inline(always)]
    pub(crate) fn is_before(&self, other: Armed) -> bool
        ensures { result ≡ is_sooner self.now other }
    {
        self.due < other.due || (self.due == other.due && self.address.0 < other.address.0)
    }
}
