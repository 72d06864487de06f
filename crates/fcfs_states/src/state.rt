// The state of an address.

ghost use Rattle.std.specs.Prelude.{◌↔◌, IsTrue};

use crate::ports::is_same;
use savi_kinds::Port;

/// The state of an address under first come, first served (RFC 6620 section 3.2). Ports are those of hosts, moments are
/// in ms. `two` says that the second probe is still to come.
#[derive(Clone, Copy, PartialEq, Eq, Debug)]
pub enum Fcfs {
    /// No port has the address (`NO_BIND`).
    NoBind,
    /// The host at p claims the address, since this moment, and nobody has objected yet (`TENTATIVE`).
    Tentative {
        p: Port,
        since: u64,
        two: bool,
    },
    /// The address is bound to p until this moment; at the moment itself it no longer is (`VALID`).
    Valid {
        p: Port,
        until: u64,
    },
    /// Whether the holder p is still there is tested, since this moment (`TESTING_TP-LT`).
    TestLt {
        p: Port,
        since: u64,
        two: bool,
    },
    /// The same, since the host at q claims the address too (`TESTING_VP`).
    TestVp {
        p: Port,
        q: Port,
        since: u64,
        two: bool,
    },
}

impl Fcfs {
    ghost use Rattle.fcfs_states.specs.States.{IsLive, IsHeld};

    /// Whether the address is live at this port: bound to it, or under a test as its holder. O(1).
    pub fn live(&self, port: Port) -> bool
        ensures { IsTrue result ↔ IsLive self.now port }
    {
        match *self {
            Fcfs::NoBind | Fcfs::Tentative { .. } => false,
            Fcfs::Valid { p, .. } | Fcfs::TestLt { p, .. } | Fcfs::TestVp { p, .. } => {
                is_same(p, port)
            }
        }
    }

    /// Whether this port holds the address, as one of the addresses that it may hold: it has a state there, or the host
    /// there claims it. O(1).
    pub fn holds(&self, port: Port) -> bool
        ensures { IsTrue result ↔ IsHeld self.now port }
    {
        match *self {
            Fcfs::NoBind => false,
            Fcfs::Tentative { p, .. } | Fcfs::Valid { p, .. } | Fcfs::TestLt { p, .. } => {
                is_same(p, port)
            }
            Fcfs::TestVp { p, q, .. } => is_same(p, port) || is_same(q, port),
        }
    }
}
