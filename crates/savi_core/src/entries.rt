//! Parts of entries.

ghost use Rattle.std.specs.Prelude.{◌≡◌, ◌^◌, min, max};
ghost use Rattle.savi_history.specs.Events.{plain_row};

use savi_kinds::{Act, Entry, LAST_MOMENT, Moment, PortSet};

/// The moment of an entry with a stamp behind one at this moment.
pub fn moment_at(last: Moment, stamp: u64) -> Moment
    ensures { result ≡ max last (min stamp (2 ^ 62)) }
{
    last.max(stamp.min(LAST_MOMENT))
}

/// The entry of an event that goes nowhere and on which there is no verdict.
pub fn plain_entry(by: u32, moment: Moment, act: Act) -> Entry
    ensures { result ≡ (plain_row by moment act).entry }
{
    Entry {
        by,
        moment,
        act,
        verdict: None,
        outs: PortSet::empty(),
        cuts: PortSet::empty(),
        probes: 0,
        lost: 0,
    }
}
