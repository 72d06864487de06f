//! The queue of one port, with all that decides on what joins it.

ghost use Rattle.std.specs.Prelude.{◌≡◌, ◌≤◌, not, [], length, map, take, drop, All, IfOk, Some, None, if◌then◌else◌};
ghost use Rattle.savi_core.specs.Lanes.{empty_lane, goes_at, goes_to, takes_one, takes_none, with_offered, with_probe, with_drained, with_ended, with_reopened};
ghost use Rattle.savi_kinds.specs.Ports.{number_of};
ghost use Rattle.savi_kinds.specs.Vlans.{numbers_of_vlan};
ghost use Rattle.savi_history.specs.Offers.{offer_of};
ghost use Rattle.egress_ring.specs.declared.item.Item.TheVariants as entries;
ghost use Rattle.savi_core.specs.Rings.{ring_item, shut_in};
ghost use Rattle.savi_core.specs.Waits.{AreThere, IsThere, queued_item};

use crate::batch::Batch;
use crate::outgoing::{put_frame, put_probe};
use crate::ports::{Ports, is_trusted};
use egress_ring::{EgressRing, Item};
use fcfs_states::Probe;
use hist_store::Hist;
use savi_access::SentProbe;
use savi_kinds::{How, Port, PortPlan, PortSet, Vlan, Vlans};
use std::alloc::{AllocError, Global};
use std::marker::Model;

/// What waits at a port, and how much may wait there. Contracts see a lane.
#[derive(Drop)]
pub struct PortQueue {
    port: Port,
    trusted: bool,
    // the VLANs of which the port is a member
    vlans: Vlans,
    room: u32,
    ring: EgressRing,
}

impl Model for PortQueue {
    ghost use Rattle.std.specs.Prelude.{◌≤◌};
    ghost use Rattle.savi_kinds.specs.Ports.{number_of};
    ghost use Rattle.egress_ring.specs.declared.item.Item.{Item as Queued};
    ghost use Rattle.savi_core.specs.Lanes.{Lane};

    ghost Value = { Lane Queued };

    ghost view = { λ q. record { number = number_of q.port; trusted = q.trusted; vlans = q.vlans.items; depth = q.ring.depth; room = q.room; items = q.ring.items } };

    ghost invariant = { λ q. q.room ≤ q.ring.depth };
}

impl PortQueue {
    /// The empty queue of a port, for `depth` items.
    pub fn make(alloc: Global, plan: &PortPlan, depth: u32) -> Result<PortQueue, AllocError>
        ensures { IfOk result (λ queue. queue ≡ empty_lane depth plan.now) }
    {
        Ok(PortQueue {
            port: plan.number,
            trusted: is_trusted(plan.role),
            vlans: vlans_of(plan),
            room: depth,
            ring: EgressRing::make(alloc, depth)?,
        })
    }

    /// How many items wait. O(1).
    pub fn len(&self) -> u32
        ensures { result ≡ length self.now.items }
    {
        self.ring.len()
    }

    // Offers an item, which joins where there is room. The answer is whether it did.
    fn offer(&mut self, item: Item) -> bool
        ensures lane { self.new ≡ with_offered item self.old }
        ensures joined { result ≡ takes_one self.old }
        ensures left_out { not result ≡ takes_none self.old }
    {
        if self.ring.len() >= self.room {
            return false;
        }
        self.ring.queue(item)
    }

    // Whether a probe in a VLAN is for this port.
    fn is_for(&self, vlan: u16, probe: Probe) -> bool
        ensures { result ≡ goes_at vlan probe self.now.number self.now.trusted self.now.vlans }
    {
        match probe {
            Probe::Trusted => self.trusted && self.vlans.as_slice().contains(&vlan),
            Probe::To(port) => port.get() == self.port.get(),
        }
    }

    // Whether this port is one of those that are shut.
    fn is_in(&self, shut: PortSet) -> bool
        ensures { result ≡ shut_in shut self.now.number }
    {
        shut.contains(self.port)
    }

    /// Offers a probe of a VLAN, where it goes to this port; to shut ports none goes. The answer is whether it joins; `None`
    /// where it goes elsewhere. O(1): of at most 8 VLANs.
    pub fn offer_probe(&mut self, vlan: u16, sent: SentProbe, shut: PortSet) -> Option<bool>
        ensures lane { self.new ≡ with_probe (shut_in shut) (ring_item (offer_of vlan sent)) (offer_of vlan sent) self.old }
        ensures joined { result ≡ (if goes_to (shut_in shut) (offer_of vlan sent) self.old then Some (takes_one self.old) else None) }
    {
        let goes = self.is_for(vlan, sent.probe) && !self.is_in(shut);
        if !goes {
            return None;
        }
        Some(self.offer(Item::Probe {
            due: sent.due,
            target: sent.address,
            vid: vlan,
        }))
    }

    /// Offers the frame of the entry with this number. The answer is whether it is left out. O(1).
    pub fn offer_frame(&mut self, n: u64) -> bool
        ensures lane { self.new ≡ with_offered (entries.Frame n) self.old }
        ensures cut { result ≡ takes_none self.old }
    {
        !self.offer(Item::Frame(n))
    }

    /// Moves so many items from the front into an empty batch, each as it goes out at this port of the plan. O(count) beside
    /// the copies of their octets.
    pub fn drain(&mut self, hist: &Hist, ports: &Ports, count: u32, into: &mut Batch)
        requires there { AreThere hist.now.rows self.old }
        requires count { count ≤ length self.old.items }
        requires most { count ≤ 256 }
        requires empty { into.old ≡ [] }
        ensures left { self.new ≡ with_drained count self.old }
        ensures taken { into.new ≡ take count (map (queued_item ports.now hist.now.rows self.old.number) self.old.items) }
    {
        move_items(&mut self.ring, hist, ports, self.port, count, into);
    }

    /// Nothing joins any more, since the port's egress has ended for this reason; after a failed write all is given up.
    /// O(n) in what is given up.
    pub fn end(&mut self, how: How)
        ensures { self.new ≡ with_ended how self.old }
    {
        self.room = 0;
        match how {
            How::Failed => self.ring.wipe(),
            _ => {}
        }
    }

    /// Items may join again, unless the port's egress has ended for good. O(1).
    pub fn reopen(&mut self, is_over: bool)
        ensures { self.new ≡ with_reopened is_over self.old }
    {
        self.room = if is_over { 0 } else { self.ring.depth() };
    }
}

// The VLANs of which a port of a plan is a member.
fn vlans_of(port: &PortPlan) -> Vlans
    ensures { result.items ≡ numbers_of_vlan port.now.vlan }
{
    let mut vlans = Vlans::new();
    match &port.vlan {
        Vlan::Access(vlan) => vlans.push(*vlan),
        Vlan::Trunk(listed) => match vlans.try_extend_from_slice(listed.as_slice()) {
            Ok(()) => {}
            Err(_) => unreachable!(),
        },
    }
    vlans
}

// Moves so many items from the front of a ring into an empty batch, each as it goes out at a port of the plan.
fn move_items(
    queue: &mut EgressRing,
    hist: &Hist,
    ports: &Ports,
    port: Port,
    count: u32,
    into: &mut Batch,
)
    requires there { All (IsThere hist.now.rows) queue.old.items }
    requires count { count ≤ length queue.old.items }
    requires most { count ≤ 256 }
    requires empty { into.old ≡ [] }
    ensures left { queue.new ≡ record queue.old { items = drop count queue.old.items } }
    ensures taken { into.new ≡ take count (map (queued_item ports.now hist.now.rows (number_of port)) queue.old.items) }
{
    while into.len() < count {
        match queue.take() {
            Some(Item::Frame(n)) => put_frame(into, hist, ports, port, n),
            Some(Item::Probe { due, target, vid }) => put_probe(
                into, ports, port, due, target, vid,
            ),
            None => unreachable!(),
        }
    }
}
