//! One station.

ghost use Rattle.std.specs.Prelude.{◌≡◌, ◌≤◌, ◌+◌, ◌^◌, ◌&&◌};

use savi_kinds::{Mac, Moment, PORTS_MOST, Port};

/// The most live stations of one port.
pub const STATIONS_MOST: usize = 256;

/// The most live stations of all ports.
pub(crate) const ALL_STATIONS_MOST: usize = STATIONS_MOST * PORTS_MOST;

/// How long a station stays live, in ms: the recommended ageing time of 300 s (IEEE 802.1Q table 8-6).
pub const AGEING_TIME_MS: u64 = 300_000;

/// A station: the MAC address, the port at which it was seen last, and when (IEEE 802.1Q section 8.8.3).
#[derive(Clone, Copy, PartialEq, Eq, Debug)]
pub struct Station {
    /// The station's MAC address.
    pub mac: Mac,
    /// The port at which it was seen last.
    pub port: Port,
    /// The moment (ms) at which it was seen there last.
    pub last: Moment,
}

impl Station {
    ghost use Rattle.savi_kinds.specs.Ports.{number_of};
    ghost use Rattle.bridge_fdb.specs.Stations.{is_live, is_at, station_end};

    // Whether the station is live at t.
    pub(crate) fn is_live(&self, t: Moment) -> bool
        ensures { result ≡ is_live t self.now }
    {
        t.saturating_sub(self.last) < AGEING_TIME_MS
    }

    // Whether it was seen last at this port.
    pub(crate) fn is_at(&self, p: Port) -> bool
        ensures { result ≡ is_at (number_of p) self.now }
    {
        self.port.get() == p.get()
    }

    // Whether it is live at the moment at which the other one was seen, and at the same port.
    pub(crate) fn is_renewed_by(&self, other: Station) -> bool
        ensures { result ≡ (is_at (number_of other.port) self.now && is_live other.last self.now) }
    {
        self.is_at(other.port) && self.is_live(other.last)
    }

    // The moment at which it ends.
    pub(crate) fn end(&self) -> Moment
        requires { self.now.last ≤ 2 ^ 62 }
        ensures { result ≡ station_end self.now }
    {
        self.last + AGEING_TIME_MS
    }
}
