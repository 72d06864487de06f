//! What is remembered of ports: until when they are full, so that it is told without a look at their stations, and where the
//! next search for a free slot begins.

ghost use Rattle.std.specs.Prelude.{◌≡◌, ◌<◌, ◌≤◌, ◌+◌, ◌-◌, ◌^◌, ◌==◌, ℕ, [], min, slice_index, if◌then◌else◌};
ghost use Rattle.savi_kinds.specs.Ports.{number_of};
ghost use Rattle.bridge_fdb.specs.Full.{TellsFull};

use crate::station::{AGEING_TIME_MS, STATIONS_MOST};
use savi_kinds::{Moment, PORTS_MOST, Port};

// A moment before which a port has 256 live stations, and at which of its 256 slots the next search for a free one begins:
// port n at n - 1.
#[derive(Drop)]
pub(crate) struct Full {
    pub(crate) until: [u64; PORTS_MOST],
    pub(crate) begin: [u8; PORTS_MOST],
}

// The place of a port.
fn index(p: Port) -> usize
    ensures value { result + 1 ≡ number_of p }
    ensures bound { result < 16 }
{
    usize::from(p.get()) - 1
}

impl Full {
    // No port is full.
    pub(crate) fn nowhere() -> Full
        ensures { TellsFull result [] }
    {
        Full {
            until: [0; PORTS_MOST],
            begin: [0; PORTS_MOST],
        }
    }

    // At which of the port's slots the next search for a free one begins.
    pub(crate) fn begin(&self, p: Port) -> u8 {
        self.begin[index(p)]
    }

    // The next search begins behind this slot of the port, and behind its last one at its first one.
    pub(crate) fn begin_behind(&mut self, p: Port, slot: usize)
        ensures { self.new.until ≡ self.old.until }
    {
        self.begin[index(p)] = ((slot % STATIONS_MOST) as u8).wrapping_add(1);
    }

    pub(crate) fn until(&self, p: Port) -> Moment
        ensures { result ≡ slice_index self.now.until (number_of p - 1) }
    {
        self.until[index(p)]
    }

    pub(crate) fn set(&mut self, p: Port, t: Moment)
        ensures { (k : ℕ) → k < 16 → slice_index self.new.until k ≡ (if number_of p == k + 1 then t else slice_index self.old.until k) }
    {
        self.until[index(p)] = t;
    }

    // A station that is kept at the port was seen there at t.
    pub(crate) fn see(&mut self, p: Port, t: Moment)
        requires { t ≤ 2 ^ 62 }
        ensures lower { (k : ℕ) → k < 16 → slice_index self.new.until k ≤ slice_index self.old.until k }
        ensures own { slice_index self.new.until (number_of p - 1) ≤ t + 300000 }
    {
        let at = index(p);
        self.until[at] = self.until[at].min(t + AGEING_TIME_MS);
    }
}
