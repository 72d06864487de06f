//! Who is given the entries of a journal that is checked.

ghost use Rattle.std.specs.Prelude.{◌≡◌, ◌∷◌, List, OnErr, OnOk, length};
ghost use Rattle.savi_kinds.specs.declared.plan.Plan.{Plan};
ghost use Rattle.hist_store.specs.Rows.{Row};
ghost use Rattle.journal_check.specs.Headers.{IsPlan};
ghost use Rattle.journal_check.specs.Watched.{ComesToWatch, WatchedEntry};

use savi_core::Core;
use savi_kinds::{Entry, Plan};
use std::alloc::{AllocError, Global};

/// Watches the check of a journal: it is given each entry that stands, once, in order.
pub trait Watcher {
    /// What `begin` with a plan may make of the first state: the second one.
    ghost begins: { Self → Plan → Self → Type 0 };

    /// What `entry` with a plan and an entry may make of the first state: the second one.
    ghost sees: { Self → Plan → WatchedEntry → Self → Type 0 };

    /// Comes once, behind the header of a journal with this plan. All memory of the watcher is taken here: `Err` comes only
    /// where there is none, and then the watcher is as it was.
    fn begin(&mut self, alloc: Global, plan: &Plan) -> Result<(), AllocError>
        requires { IsPlan plan.now }
        ensures ok { OnOk result (begins self.old plan.now self.new) }
        ensures err { OnErr result (self.new ≡ self.old) };

    /// Takes entry `n` of a segment, both counted from 0, with its octets: those of a frame as it came in, at most 1,518, or of
    /// a line of control, or none. No memory is taken.
    fn entry(&mut self, plan: &Plan, segment: u64, n: u64, e: &Entry, octets: &[u8])
        requires { ComesToWatch begins sees self.old plan.now
            (record { segment = segment; number = n; row = record { entry = e.now; octets = octets.now } }) }
        ensures { sees self.old plan.now
            (record { segment = segment; number = n; row = record { entry = e.now; octets = octets.now } }) self.new };
}

/// The watcher that does nothing.
#[derive(Drop)]
pub struct NoWatcher;

impl Watcher for NoWatcher {
    ghost begins = { λ before plan after. after ≡ before };

    ghost sees = { λ before plan entry after. after ≡ before };

    fn begin(&mut self, _alloc: Global, _plan: &Plan) -> Result<(), AllocError> {
        Ok(())
    }

    fn entry(&mut self, _plan: &Plan, _segment: u64, _n: u64, _e: &Entry, _octets: &[u8]) {}
}

/// Gives a watcher the newest entry of a switch, in the segment with this number. O(1) beside what the watcher does.
pub fn give_newest<W: Watcher>(core: &Core, segment: u64, watcher: &mut W)
    requires { (row : Row) × (past : List Row) × (core.now.past ≡ row ∷ past)
        × ComesToWatch W.begins W.sees watcher.old core.now.plan (record { segment = segment; number = length past; row = row }) }
    ensures { (row : Row) → (past : List Row) → core.now.past ≡ row ∷ past
        → W.sees watcher.old core.now.plan (record { segment = segment; number = length past; row = row }) watcher.new }
{
    let n = core.len() - 1;
    let newest = core.entry(n);
    watcher.entry(core.plan(), segment, n, &newest, core.octets(n));
}
