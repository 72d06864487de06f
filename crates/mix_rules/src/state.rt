// The state of an address.

ghost use Rattle.std.specs.Prelude.{◌≡◌, ◌↔◌, IsTrue, not};

use dhcp_states::Bound;
use fcfs_states::{Fcfs, is_same};
use savi_kinds::Port;

/// The state of an address: where it was fixed by configuration, and what each of the two methods says of it. In a sound
/// state, where it is fixed the other two parts are empty, and where it is bound by DHCP first come has no state or one of
/// the same port.
#[derive(Clone, Copy, PartialEq, Eq, Debug)]
pub struct AddrState {
    /// The port to which the address was bound by configuration.
    pub fixed: Option<Port>,
    /// The state under first come, first served (RFC 6620 section 3.2).
    pub fcfs: Fcfs,
    /// The binding by DHCP (RFC 7513 section 5).
    pub dhcp: Option<Bound>,
}

impl AddrState {
    ghost use Rattle.savi_kinds.specs.Ports.{number_of};
    ghost use Rattle.mix_rules.specs.States.{nobody, has_state, owner_of, IsLiveAt, IsHeldAt, is_held_at, is_fixed_to, is_bound_to};

    /// The state of an address that no port has.
    pub fn none() -> AddrState
        ensures { result ≡ nobody }
    {
        AddrState {
            fixed: None,
            fcfs: Fcfs::NoBind,
            dhcp: None,
        }
    }

    /// Whether no port has the address, so that no table need keep it. O(1).
    pub fn is_none(&self) -> bool
        ensures value { result ≡ not (has_state self.now) }
        ensures none { IsTrue result ↔ (self.now ≡ nobody) }
    {
        match (self.fixed, self.fcfs, self.dhcp) {
            (None, Fcfs::NoBind, None) => true,
            _ => false,
        }
    }

    /// The port that has the address whatever its host says: the one to which it is fixed, else the one to which DHCP
    /// bound it. O(1).
    pub fn owner(&self) -> Option<Port>
        ensures { result ≡ owner_of self.now.fixed self.now.dhcp }
    {
        match (self.fixed, self.dhcp) {
            (Some(f), _) => Some(f),
            (None, Some(bound)) => Some(bound.p),
            (None, None) => None,
        }
    }

    /// Whether the address is live at this port: the port is its owner or, without an owner, its holder by first come.
    /// O(1).
    pub fn live(&self, port: Port) -> bool
        ensures { IsTrue result ↔ IsLiveAt self.now port }
    {
        match self.owner() {
            Some(p) => is_same(p, port),
            None => self.fcfs.live(port),
        }
    }

    /// Whether this port holds the address, as one of the addresses that it may hold: it is fixed there, bound there by
    /// DHCP, or has a state of first come there, or the host there claims it while its holder is tested. O(1).
    pub fn holds(&self, port: Port) -> bool
        ensures value { result ≡ is_held_at (number_of port) self.now }
        ensures held { IsTrue result ↔ IsHeldAt self.now port }
    {
        self.fixed_at(port) || self.bound_at(port) || self.fcfs.holds(port)
    }

    fn fixed_at(&self, port: Port) -> bool
        ensures { result ≡ is_fixed_to (number_of port) self.now.fixed }
    {
        match self.fixed {
            Some(f) => is_same(f, port),
            None => false,
        }
    }

    fn bound_at(&self, port: Port) -> bool
        ensures { result ≡ is_bound_to (number_of port) self.now.dhcp }
    {
        match self.dhcp {
            Some(bound) => is_same(bound.p, port),
            None => false,
        }
    }
}
