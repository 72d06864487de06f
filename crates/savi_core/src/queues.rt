//! The queues of all ports, in the order of the plan.

ghost use Rattle.std.specs.Prelude.{◌≡◌, ◌+◌, ◌<◌, ◌≤◌, ◌&&◌, not, ℕ, false, true, [], length, map, take, IfOk, slice_index_or, slice_set};
ghost use Rattle.egress_ring.specs.declared.item.Item.TheVariants as entries;
ghost use Rattle.savi_core.specs.Lanes.{cut_at, empty_lane, with_frame, with_drained, no_lane, AreEnded};
ghost use Rattle.savi_kinds.specs.Ports.{number_of};
ghost use Rattle.savi_kinds.specs.PortSets.{is_member, no_ports};
ghost use Rattle.savi_kinds.specs.ValidPlan.{IsValidPlan, numbers_of};
ghost use Rattle.savi_history.specs.Offers.{offer_of};
ghost use Rattle.savi_history.specs.Passes.{has_port, has_pass};
ghost use Rattle.savi_core.specs.Rings.{Rings, uncounted, rings_after_probe, shut_in, with_shut};
ghost use Rattle.savi_core.specs.Turns.{reopened};
ghost use Rattle.savi_core.specs.Waits.{AreThere, queued_item};

use crate::batch::Batch;
use crate::ends::Ends;
use crate::port_queue::PortQueue;
use crate::port_sets::{first, minus, without};
use crate::ports::Ports;
use addr_table::ProbeSink;
use hist_store::Hist;
use savi_access::SentProbe;
use savi_kinds::{How, Port, PortPlan, PortSet, Who};
use std::alloc::{AllocError, Global};
use std::marker::Model;

/// The queue of each port of a plan, in its order, which ports are shut, and how many probes joined and were left out since
/// the counts were reset. Contracts see the list of their lanes with the rest.
#[derive(Drop)]
pub struct Queues {
    queues: Vec<PortQueue>,
    shut: PortSet,
    queued: u32,
    lost: u32,
}

impl Model for Queues {
    ghost use Rattle.savi_core.specs.Rings.{Rings};

    ghost Value = { Rings };

    ghost view = { λ q. record { lanes = q.queues.items; shut = q.shut; queued = q.queued; lost = q.lost } };
}

impl ProbeSink for Queues {
    ghost after = { λ rings vlan sent. rings_after_probe rings (offer_of vlan sent) };

    /// Offers a probe of a VLAN to the queue of each port to which it goes, in their order; none goes to a shut port. O(n) in
    /// the ports of the plan, at most 16.
    fn take(&mut self, vlan: u16, sent: SentProbe) {
        for place in 0..self.queues.len() {
            match self.queues[place].offer_probe(vlan, sent, self.shut) {
                Some(true) => self.queued = self.queued.saturating_add(1),
                Some(false) => self.lost = self.lost.saturating_add(1),
                None => {}
            }
        }
    }
}

impl Queues {
    /// Empty queues for these ports, none of which is shut, each for `depth` items. They take all their memory here.
    pub fn make(alloc: Global, ports: &[PortPlan], depth: u32) -> Result<Queues, AllocError>
        ensures { IfOk result (λ queues. queues ≡ record { lanes = map (empty_lane depth) ports.now; shut = no_ports; queued = 0; lost = 0 }) }
    {
        let mut queues = Vec::with_capacity(alloc, ports.len())?;
        for port in ports {
            queues.push(PortQueue::make(alloc, port, depth)?)?;
        }
        Ok(Queues {
            queues,
            shut: PortSet::empty(),
            queued: 0,
            lost: 0,
        })
    }

    /// Whether a port is shut. O(1).
    pub fn is_shut(&self, port: Port) -> bool
        ensures { result ≡ shut_in self.now.shut (number_of port) }
    {
        self.shut.contains(port)
    }

    /// Shuts a port, or opens it. O(1).
    pub fn set_shut(&mut self, port: Port, is_shut: bool)
        ensures shut { shut_in self.new.shut ≡ with_shut (number_of port) is_shut (shut_in self.old.shut) }
        ensures rest { self.new ≡ record self.old { shut = self.new.shut } }
    {
        self.shut = if is_shut {
            self.shut.with(port)
        } else {
            without(self.shut, port)
        };
    }

    /// Of these ports those that aren't shut. O(1).
    pub fn not_shut(&self, set: PortSet) -> PortSet
        ensures { (n : ℕ) → 1 ≤ n → is_member result n ≡ (is_member set n && not (shut_in self.now.shut n)) }
    {
        minus(set, self.shut)
    }

    /// Counts probes from 0 on. O(1).
    pub fn reset_counts(&mut self)
        ensures { self.new ≡ uncounted self.old }
    {
        self.queued = 0;
        self.lost = 0;
    }

    /// How many probes joined at a port since the counts were reset; those at two ports are two. O(1).
    pub fn queued(&self) -> u32
        ensures { result ≡ self.now.queued }
    {
        self.queued
    }

    /// How many probes were left out at a port since the counts were reset. O(1).
    pub fn lost(&self) -> u32
        ensures { result ≡ self.now.lost }
    {
        self.lost
    }

    /// How many items wait at the port at this place of the plan. O(1).
    pub fn len(&self, place: usize) -> u32
        requires { place < length self.now.lanes }
        ensures { result ≡ length (slice_index_or self.now.lanes place no_lane).items }
    {
        self.queues[place].len()
    }

    /// Offers the frame of the entry with this number to each of these ports of the plan, the lowest first. The answer is
    /// the ports where there is no room for it. O(n) in these ports.
    pub fn offer_frame(&mut self, ports: &Ports, outs: PortSet, n: u64) -> PortSet
        requires valid { IsValidPlan ports.now }
        requires lanes { map (λ lane. lane.number) self.old.lanes ≡ numbers_of ports.now.ports }
        requires outs { (q : ℕ) → 1 ≤ q → is_member outs q ≡ true → has_port ports.now q ≡ true }
        ensures lanes { self.new ≡ record self.old { lanes = map (with_frame (entries.Frame n) outs) self.old.lanes } }
        ensures cuts { result ≡ cut_at outs self.old.lanes }
    {
        let mut left = outs;
        let mut cuts = PortSet::empty();
        while let Some(port) = first(left) {
            let place = ports.place_of(port);
            if self.queues[place].offer_frame(n) {
                cuts = cuts.with(port);
            }
            left = without(left, port);
        }
        cuts
    }

    /// Moves so many items from the front of the queue at this place of the plan into an empty batch, each as it goes out at
    /// the port there. O(count) beside the copies of their octets.
    pub fn drain(&mut self, place: usize, hist: &Hist, ports: &Ports, count: u32, into: &mut Batch)
        requires place { place < length self.old.lanes }
        requires there { AreThere hist.now.rows (slice_index_or self.old.lanes place no_lane) }
        requires count { count ≤ length (slice_index_or self.old.lanes place no_lane).items }
        requires most { count ≤ 256 }
        requires empty { into.old ≡ [] }
        ensures left { self.new ≡ record self.old { lanes = slice_set self.old.lanes place (with_drained count (slice_index_or self.old.lanes place no_lane)) } }
        ensures taken { into.new ≡ take count (map (queued_item ports.now hist.now.rows (slice_index_or self.old.lanes place no_lane).number) (slice_index_or self.old.lanes place no_lane).items) }
    {
        self.queues[place].drain(hist, ports, count, into);
    }

    /// A new history begins: items may join again at each port whose egress hasn't ended for good. `first` is the number of
    /// the first port's egress pass. O(ports), at most 16.
    pub fn reopen(&mut self, first: u32, ends: &Ends)
        requires { first + length self.old.lanes ≤ 34 }
        ensures { self.new ≡ record self.old { lanes = reopened first ends.now.ends self.old.lanes } }
    {
        for place in 0..self.queues.len() {
            self.queues[place].reopen(ends.is_over(first + place as u32));
        }
    }

    /// The ports that are shut. O(1).
    pub fn shut_ports(&self) -> PortSet
        ensures { result ≡ self.now.shut }
    {
        self.shut
    }

    /// A pass of the plan has ended for this reason. Where it is an egress nothing joins at its port any more, and after a
    /// failed write what waits there is given up. O(n) in what is given up.
    pub fn end(&mut self, ports: &Ports, who: Who, how: How)
        requires known { has_pass ports.now who ≡ true }
        requires count { length self.old.lanes ≡ length ports.now.ports }
        ensures lanes { AreEnded ports.now who how self.old.lanes self.new.lanes }
        ensures counts { self.new ≡ record self.old { lanes = self.new.lanes } }
    {
        if let Who::Egress(port) = who {
            self.queues[ports.place_of(port)].end(how);
        }
    }
}
