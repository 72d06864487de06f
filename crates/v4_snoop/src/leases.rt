//! The leases that are kept.

ghost use Rattle.std.specs.Prelude.{◌≡◌, ◌==◌, ◌<◌, ◌≤◌, ◌+◌, ◌-◌, ◌*◌, ◌&&◌, ℕ, [], false, not, None, Some, List, is_some, if◌then◌else◌, slice_set, IsTrue, IfOk, MatchOption};
ghost use Rattle.savi_kinds.specs.Ports.{number_of};
ghost use Rattle.v4_snoop.specs.declared.lease.Lease.{Lease};
ghost use Rattle.v4_snoop.specs.Leased.{is_lease_of, is_lease_at, is_live_at, is_live_for, has_lease_room, with_lease};
ghost use Rattle.v4_snoop.specs.KeptLeases.{KeepsLeases, HoldsLive, HasLeaseOf, HasOneOf, HasNoneOf, IsSlotOfPort, IsIdleSlot, IsFreeFor, AreAllLive, lease_in, left_if};
ghost use Rattle.v4_snoop.specs.Snooped.{is_client};

use crate::lease::Lease;
use addr_index::AddrIndex;
use savi_kinds::{Addr, Moment, PER_PORT_MOST, PORTS_MOST, Port};
use std::alloc::{AllocError, Global};

// The slots of one port.
const PORT_SLOTS: usize = PER_PORT_MOST as usize;

// The slots of all ports.
const SLOTS: usize = PORT_SLOTS * PORTS_MOST;

// A lease stands in a slot of its port, of which every port has 64: port n those from 64 * (n - 1) on. Of these it uses as
// many as it may have live leases, so that a port with a lease in each of them has no room. A lease that has ended stays in
// its slot until another one takes it. An index has the slot of each key.
#[derive(Drop)]
pub(crate) struct Leases {
    pub(crate) slots: Vec<Option<Lease>>,
    pub(crate) index: AddrIndex,
    pub(crate) per_port: u32,
}

// A lease that was found, and its slot.
#[derive(Clone, Copy)]
pub(crate) struct Found {
    pub(crate) slot: usize,
    pub(crate) lease: Lease,
}

// A key as the index takes it.
fn place_of(key: u64) -> Addr
    ensures { result.0 ≡ key }
{
    Addr(u128::from(key))
}

// The first slot of a port.
fn first_slot(p: Port) -> usize
    ensures value { result ≡ 64 * (number_of p - 1) }
    ensures bound { result + 64 ≤ 1024 }
{
    (usize::from(p.get()) - 1) * PORT_SLOTS
}

impl Leases {
    // No lease, where a port may have so many live ones, at most 64. It takes all its memory here.
    pub(crate) fn make(alloc: Global, per_port: u32) -> Result<Leases, AllocError>
        requires { per_port ≤ 64 }
        ensures { IfOk result (λ kept. KeepsLeases kept × (kept.per_port ≡ per_port) × ((t : ℕ) → HoldsLive t [] kept.slots.items)) }
    {
        let mut slots = Vec::with_capacity(alloc, SLOTS)?;
        for _ in 0..SLOTS {
            slots.push(None)?;
        }
        Ok(Leases {
            slots,
            index: AddrIndex::make(alloc, SLOTS as u32)?,
            per_port,
        })
    }

    // The slot of the lease with this key, live or not. O(1) on average.
    fn slot_of(&self, key: u64) -> Option<usize>
        requires { KeepsLeases self.now }
        ensures { MatchOption result (HasNoneOf key self.now.slots.items) (λ slot. HasLeaseOf key (lease_in self.now.slots.items slot)) }
    {
        match self.index.get(place_of(key)) {
            Some(slot) => Some(slot as usize),
            None => None,
        }
    }

    // The lease in a slot that has one with this key.
    fn held(&self, slot: usize, key: u64) -> Lease
        requires { HasLeaseOf key (lease_in self.now.slots.items slot) }
        ensures { lease_in self.now.slots.items slot ≡ Some result }
    {
        match self.slots[slot] {
            Some(lease) => lease,
            None => unreachable!(),
        }
    }

    // The lease with this key, live or not, and its slot. O(1) on average.
    fn get(&self, key: u64) -> Option<Found>
        requires { KeepsLeases self.now }
        ensures { MatchOption result (HasNoneOf key self.now.slots.items) (λ found. HasOneOf key self.now.slots.items found.slot found.lease) }
    {
        match self.slot_of(key) {
            Some(slot) => Some(Found {
                slot,
                lease: self.held(slot, key),
            }),
            None => None,
        }
    }

    // The hardware address of the client that has the address with this key at port p at t: None exactly where it isn't live
    // there. O(1) on average.
    pub(crate) fn client_at(&self, key: u64, p: Port, t: Moment) -> Option<u64>
        requires { KeepsLeases self.now }
        ensures any { (leases : List Lease) → HoldsLive t leases self.now.slots.items → is_some result ≡ is_live_at t key (number_of p) leases }
        ensures mac { (leases : List Lease) (mac : ℕ) → HoldsLive t leases self.now.slots.items → is_client mac result ≡ is_live_for t key (number_of p) mac leases }
    {
        match self.get(key) {
            Some(found) => found.lease.client_at(p, t),
            None => None,
        }
    }

    // Whether the address with this key is live at port p at t. O(1) on average.
    pub(crate) fn is_live_at(&self, key: u64, p: Port, t: Moment) -> bool
        requires { KeepsLeases self.now }
        ensures { (leases : List Lease) → HoldsLive t leases self.now.slots.items → result ≡ is_live_at t key (number_of p) leases }
    {
        self.client_at(key, p, t).is_some()
    }

    // Whether it is live there for the client with this hardware address. O(1) on average.
    pub(crate) fn is_live_for(&self, key: u64, p: Port, t: Moment, mac: u64) -> bool
        requires { KeepsLeases self.now }
        ensures { (leases : List Lease) → HoldsLive t leases self.now.slots.items → result ≡ is_live_for t key (number_of p) mac leases }
    {
        match self.client_at(key, p, t) {
            Some(client) => client == mac,
            None => false,
        }
    }

    // Ends the lease of the address with this key at port p, if there is one. O(1) on average.
    pub(crate) fn end(&mut self, key: u64, p: Port)
        requires { KeepsLeases self.old }
        ensures kept { KeepsLeases self.new }
        ensures per_port { self.new.per_port ≡ self.old.per_port }
        ensures slots { (slot : ℕ) → lease_in self.new.slots.items slot ≡ left_if (λ lease. not (is_lease_of key lease && is_lease_at (number_of p) lease)) (lease_in self.old.slots.items slot) }
    {
        match self.get(key) {
            Some(found) => {
                if found.lease.is_at(p) {
                    self.clear(found.slot, found.lease);
                }
            }
            None => {}
        }
    }

    // Puts a lease in place of the one of its address, where its port has room for it at t: else nothing has changed. O(1)
    // on average where the port has the address; else it goes over the port's own 64 slots.
    pub(crate) fn bind(&mut self, lease: Lease, t: Moment) -> bool
        requires { KeepsLeases self.old }
        ensures kept { KeepsLeases self.new }
        ensures per_port { self.new.per_port ≡ self.old.per_port }
        ensures room { (leases : List Lease) → HoldsLive t leases self.old.slots.items → result ≡ has_lease_room self.old.per_port t lease.key (number_of lease.port) leases }
        ensures bound { IsTrue result → (leases : List Lease) → HoldsLive t leases self.old.slots.items → HoldsLive t (with_lease lease leases) self.new.slots.items }
        ensures full { result ≡ false → self.new ≡ self.old }
    {
        match self.slot_for(lease.key, lease.port, t) {
            Some(slot) => {
                self.forget(lease.key);
                self.empty(slot);
                self.fill(slot, lease);
                true
            }
            None => false,
        }
    }

    // A slot of port p for the lease with this key: the one where it stands, or one without a lease that is live at t. None
    // where the port has no room for it.
    fn slot_for(&self, key: u64, p: Port, t: Moment) -> Option<usize>
        requires { KeepsLeases self.now }
        ensures slot { MatchOption result (Unit {0}) (λ slot. IsFreeFor key self.now.slots.items self.now.per_port (number_of p) t slot) }
        ensures room { (leases : List Lease) → HoldsLive t leases self.now.slots.items → is_some result ≡ has_lease_room self.now.per_port t key (number_of p) leases }
    {
        match self.get(key) {
            Some(found) => {
                if found.lease.is_at(p) {
                    Some(found.slot)
                } else {
                    self.free_slot(p, t)
                }
            }
            None => self.free_slot(p, t),
        }
    }

    // A slot of port p that has no lease that is live at t, if there is one. It goes over the port's own slots.
    fn free_slot(&self, p: Port, t: Moment) -> Option<usize>
        requires { KeepsLeases self.now }
        ensures { MatchOption result (AreAllLive self.now.slots.items self.now.per_port (number_of p) t) (IsIdleSlot self.now.slots.items self.now.per_port (number_of p) t) }
    {
        let first = first_slot(p);
        self.idle_within(p, first, first + self.per_port as usize, t)
    }

    // The same of these slots, which are those that the port uses.
    fn idle_within(&self, p: Port, from: usize, to: usize, t: Moment) -> Option<usize>
        requires kept { KeepsLeases self.now }
        requires first { from ≡ 64 * (number_of p - 1) }
        requires last { to ≡ from + self.now.per_port }
        ensures { MatchOption result (AreAllLive self.now.slots.items self.now.per_port (number_of p) t) (IsIdleSlot self.now.slots.items self.now.per_port (number_of p) t) }
    {
        for slot in from..to {
            let Some(lease) = self.slots[slot] else {
                return Some(slot);
            };
            if !lease.is_live(t) {
                return Some(slot);
            }
        }
        None
    }

    // Takes the lease with this key away, if there is one.
    fn forget(&mut self, key: u64)
        requires { KeepsLeases self.old }
        ensures kept { KeepsLeases self.new }
        ensures per_port { self.new.per_port ≡ self.old.per_port }
        ensures slots { (slot : ℕ) → lease_in self.new.slots.items slot ≡ left_if (λ lease. not (is_lease_of key lease)) (lease_in self.old.slots.items slot) }
    {
        match self.get(key) {
            Some(found) => self.clear(found.slot, found.lease),
            None => {}
        }
    }

    // Takes the lease in a slot away, if there is one.
    fn empty(&mut self, slot: usize)
        requires kept { KeepsLeases self.old }
        requires within { slot < 1024 }
        ensures kept { KeepsLeases self.new }
        ensures per_port { self.new.per_port ≡ self.old.per_port }
        ensures slots { (other : ℕ) → lease_in self.new.slots.items other ≡ (if other == slot then None else lease_in self.old.slots.items other) }
    {
        match self.slots[slot] {
            Some(lease) => self.clear(slot, lease),
            None => {}
        }
    }

    // Takes the lease in this slot away.
    fn clear(&mut self, slot: usize, lease: Lease)
        requires kept { KeepsLeases self.old }
        requires there { lease_in self.old.slots.items slot ≡ Some lease }
        ensures kept { KeepsLeases self.new }
        ensures per_port { self.new.per_port ≡ self.old.per_port }
        ensures slots { self.new.slots.items ≡ slice_set self.old.slots.items slot None }
    {
        self.index.remove(place_of(lease.key));
        self.slots[slot] = None;
    }

    // Puts a lease whose key none has into an empty slot of its port.
    fn fill(&mut self, slot: usize, lease: Lease)
        requires kept { KeepsLeases self.old }
        requires empty { lease_in self.old.slots.items slot ≡ None }
        requires own { IsSlotOfPort self.old.per_port (number_of lease.port) slot }
        requires absent { HasNoneOf lease.key self.old.slots.items }
        ensures kept { KeepsLeases self.new }
        ensures per_port { self.new.per_port ≡ self.old.per_port }
        ensures slots { self.new.slots.items ≡ slice_set self.old.slots.items slot (Some lease) }
    {
        self.index.insert(place_of(lease.key), slot as u32);
        self.slots[slot] = Some(lease);
    }
}
