//! The copy of a base.

ghost use Rattle.std.specs.Prelude.{◌≡◌, ◌+◌, ◌≤◌, ◌++◌, vec_capacity, vec_len};
ghost use Rattle.checkpoint.specs.Parts.{parts_of};

use crate::columns::put_behind;
use crate::part::{Part, Way};
use crate::request_order::place_among;
use arrayvec::ArrayVec;
use bridge_fdb::{STATIONS_MOST, Station};
use control_replies::Counts;
use dhcp_states::Request;
use fcfs_states::Fcfs;
use savi_access::Row;
use savi_kinds::{How, Moment, PortSet};
use std::alloc::{AllocError, Global};
use std::marker::Model;

/// The most passes that can have ended: the ingress and the egress of each of 16 ports, control and the ticker.
pub const ENDED_MOST: usize = 34;

/// The most open requests, over all VLANs: 16 of each of 16 ports.
pub const REQUESTS_MOST: usize = 256;

/// The ports, each of which may hold so many addresses as the plan says.
const PORTS: u64 = 16;

/// The most lines of one address.
const LINES_MOST: u64 = 3;

/// What a history goes on from, kept while the tables that it was taken of move on.
///
/// Contracts see its columns, and for how many rows and stations there is room. Only `make` takes memory.
#[derive(Drop)]
pub struct Checkpoint {
    pub(crate) is_start: bool,
    pub(crate) moment: Moment,
    pub(crate) ended: Vec<(u32, How)>,
    pub(crate) shut: PortSet,
    pub(crate) counts: Counts,
    pub(crate) rows: Vec<(u16, Row)>,
    pub(crate) parts: Vec<Part>,
    pub(crate) requests: Vec<(u16, Request)>,
    pub(crate) places: ArrayVec<u16, REQUESTS_MOST>,
    pub(crate) stations: Vec<(u16, Station)>,
    pub(crate) row_room: u64,
    pub(crate) station_room: u64,
}

impl Model for Checkpoint {
    ghost use Rattle.std.specs.Prelude.{◌≤◌, ◌*◌, length, vec_capacity};
    ghost use Rattle.checkpoint.specs.Columns.{Columns};
    ghost use Rattle.checkpoint.specs.Kept.{IsKept, IsWithinRoom, HasRoom};

    ghost Value = { Columns };

    ghost view = { λ c. record {
      is_start = c.is_start;
      moment = c.moment;
      ended = c.ended.items;
      shut = c.shut;
      counts = c.counts;
      rows = c.rows.items;
      requests = c.requests.items;
      stations = c.stations.items;
      row_room = c.row_room;
      station_room = c.station_room;
    } };

    ghost invariant = { λ c. IsKept c.rows.items c.parts.items c.requests.items c.places.items c.stations.items
        × HasRoom c.row_room c.station_room (vec_capacity c.rows) (vec_capacity c.parts) (vec_capacity c.requests) (vec_capacity c.stations) (vec_capacity c.ended)
        × IsWithinRoom c.row_room c.station_room (length c.rows.items) (length c.requests.items) (length c.stations.items) (length c.ended.items) };
}

impl Checkpoint {
    ghost use Rattle.std.specs.Prelude.{◌≡◌, ◌<◌, ◌*◌, [], ◌∷◌, ◌++◌, true, false, length, IfOk};
    ghost use Rattle.checkpoint.specs.Columns.{IsUpTo, nothing_before};

    /// The start of a switch. There is room for what a plan can come to whose ports may hold `per_port` addresses each, and
    /// which has this many pairs of a port and a VLAN of it: 16 * `per_port` rows, 256 requests, and 256 stations a pair.
    /// `Err` is want of memory.
    pub fn make(alloc: Global, per_port: u32, pairs: u32) -> Result<Checkpoint, AllocError>
        ensures { IfOk result (λ c. c ≡ nothing_before (16 * per_port) (256 * pairs)) }
    {
        let row_room = PORTS * u64::from(per_port);
        let station_room = STATIONS_MOST as u64 * u64::from(pairs);
        Ok(Checkpoint {
            is_start: true,
            moment: 0,
            ended: Vec::with_capacity(alloc, ENDED_MOST)?,
            shut: PortSet::empty(),
            counts: Counts::none(),
            rows: Vec::with_capacity(alloc, row_room as usize)?,
            parts: Vec::with_capacity(alloc, (LINES_MOST * row_room) as usize)?,
            requests: Vec::with_capacity(alloc, REQUESTS_MOST)?,
            places: ArrayVec::new(),
            stations: Vec::with_capacity(alloc, station_room as usize)?,
            row_room,
            station_room,
        })
    }

    /// Begins a copy anew, of what holds at this moment (ms): these ports are shut, and this was counted. No pass has
    /// ended, and the columns are empty. It isn't the start of a switch any more. O(1) beside the drop of the requests.
    pub fn begin(&mut self, moment: Moment, shut: PortSet, counts: &Counts)
        ensures { self.new ≡ record (nothing_before self.old.row_room self.old.station_room) {
          is_start = false;
          moment = moment;
          shut = shut;
          counts = counts.now;
        } }
    {
        self.is_start = false;
        self.moment = moment;
        self.shut = shut;
        self.counts = *counts;
        self.ended.clear();
        self.rows.clear();
        self.parts.clear();
        self.requests.clear();
        self.places.clear();
        self.stations.clear();
    }

    /// Puts the pass of this number, which ended for good, behind the others. There are fewer than 34. O(1).
    pub fn put_ended(&mut self, pass: u32, how: How)
        requires { length self.old.ended < ENDED_MOST }
        ensures { self.new ≡ record self.old { ended = self.old.ended ++ (pass, how) ∷ [] } }
    {
        put_behind(&mut self.ended, (pass, how));
    }

    /// Puts an address of a VLAN with its state behind the others. There is room, and none is of a higher VLAN. O(1).
    pub fn put_row(&mut self, vlan: u16, row: Row)
        requires room { length self.old.rows < self.old.row_room }
        requires order { IsUpTo vlan self.old.rows }
        ensures { self.new ≡ record self.old { rows = self.old.rows ++ (vlan, row) ∷ [] } }
    {
        put_parts(&mut self.parts, vlan, &row);
        put_behind(&mut self.rows, (vlan, row));
    }

    /// Puts a copy of an open request of a VLAN behind the others. There are fewer than 256, and none is of a higher VLAN.
    /// O(n).
    pub fn put_request(&mut self, vlan: u16, request: &Request)
        requires room { length self.old.requests < REQUESTS_MOST }
        requires order { IsUpTo vlan self.old.requests }
        ensures { self.new ≡ record self.old { requests = self.old.requests ++ (vlan, request.now) ∷ [] } }
    {
        let one = (vlan, copy_of(request));
        let place = self.requests.len() as u16;
        let at = place_among(self.requests.as_slice(), self.places.as_slice(), &one);
        self.places.insert(at, place);
        put_behind(&mut self.requests, one);
    }

    /// Puts a station of a VLAN behind the others. There is room, and none is of a higher VLAN. O(1).
    pub fn put_station(&mut self, vlan: u16, station: Station)
        requires room { length self.old.stations < self.old.station_room }
        requires order { IsUpTo vlan self.old.stations }
        ensures { self.new ≡ record self.old { stations = self.old.stations ++ (vlan, station) ∷ [] } }
    {
        put_behind(&mut self.stations, (vlan, station));
    }
}

// Puts the parts of a row behind the others.
fn put_parts(parts: &mut Vec<Part>, vlan: u16, row: &Row)
    requires { vec_len parts.old + 3 ≤ vec_capacity parts.old }
    ensures items { parts.new.items ≡ parts.old.items ++ parts_of (vlan, row.now) }
    ensures len { vec_len parts.new ≤ vec_len parts.old + 3 }
    ensures capacity { vec_capacity parts.old ≤ vec_capacity parts.new }
{
    let address = row.address;
    if let Some(port) = row.state.fixed {
        put_behind(
            parts,
            Part {
                vlan,
                address,
                way: Way::Fixed(port),
            },
        );
    }
    if let Some(bound) = row.state.dhcp {
        put_behind(
            parts,
            Part {
                vlan,
                address,
                way: Way::Bound(bound),
            },
        );
    }
    match row.state.fcfs {
        Fcfs::NoBind => {}
        state => put_behind(
            parts,
            Part {
                vlan,
                address,
                way: Way::Claimed(state),
            },
        ),
    }
}

// The same request once more.
fn copy_of(request: &Request) -> Request
    ensures { result ≡ request.now }
{
    let mut duid = ArrayVec::new();
    match duid.try_extend_from_slice(request.duid.as_slice()) {
        Ok(()) => {}
        Err(_) => unreachable!(),
    }
    Request {
        port: request.port,
        tid: request.tid,
        duid,
        opened: request.opened,
    }
}
