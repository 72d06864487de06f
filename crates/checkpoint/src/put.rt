//! The lines of a base.

ghost use Rattle.std.specs.Prelude.{◌≡◌, ◌+◌, ◌*◌, ◌<◌, ◌≤◌, [], Some, true, false, length, map, slice_get};
ghost use Rattle.std.specs.Bool.{OnTrue};
ghost use Rattle.hist_store.specs.TextOfLines.{joined};
ghost use Rattle.checkpoint.specs.Columns.{kept_base};
ghost use Rattle.checkpoint.specs.BaseLines.{HasNothingElsewhere, base_texts, column_lines, ended_line, head_lines, passes_of, request_line, station_base_line};

use crate::checkpoint::Checkpoint;
use crate::fields::{put_key, put_sum};
use crate::head::{put_count, put_moment, put_shut};
use bridge_fdb::Station;
use control_replies::COUNTERS;
use dhcp_states::{MAX_DHCP_RESPONSE_TIME_MS, Request};
use hist_store::{JournalLine, put_hex, put_how, put_number, put_octets, put_port_field, put_who};
use savi_kinds::{How, Plan, Who, put_mac};

/// The lines in front of those of addresses: the moment, the ports that are shut, and 27 counts.
const HEAD_LINES: usize = 2 + COUNTERS as usize;

impl Checkpoint {
    /// Writes the i-th line of the base for a plan, counting from 0, in place of what the buffer held, and answers true; or
    /// answers false where the base has no more lines. The line is without its line feed. O(1).
    ///
    /// What the base has is of VLANs of the plan.
    pub fn put_line(&self, plan: &Plan, i: u32, into: &mut JournalLine) -> bool
        requires { HasNothingElsewhere plan.now (kept_base self.now) }
        ensures line { OnTrue result (Some into.new.items ≡ slice_get (base_texts plan.now (kept_base self.now)) i) }
        ensures past { result ≡ false → length (base_texts plan.now (kept_base self.now)) ≤ i }
        ensures few { result ≡ true → i < 319 + 3 * self.now.row_room + self.now.station_room }
    {
        into.clear();
        if self.is_start {
            return false;
        }
        if (i as usize) < HEAD_LINES {
            self.put_head(i, into);
            return true;
        }
        self.put_behind_head(plan, i as usize - HEAD_LINES, into)
    }

    // Writes one of the first 29 lines into an empty buffer.
    fn put_head(&self, i: u32, into: &mut JournalLine)
        requires empty { into.old.items ≡ [] }
        requires within { i < 29 }
        ensures { Some into.new.items ≡ slice_get (map joined (head_lines (kept_base self.now))) i }
    {
        match i {
            0 => put_moment(into, self.moment),
            1 => put_shut(into, self.shut),
            _ => put_count(into, &self.counts, i - 2),
        }
    }

    // Writes one of the lines of addresses, requests, stations and passes into an empty buffer, where there is one.
    fn put_behind_head(&self, plan: &Plan, i: usize, into: &mut JournalLine) -> bool
        requires empty { into.old.items ≡ [] }
        requires plan { HasNothingElsewhere plan.now (kept_base self.now) }
        ensures line { OnTrue result (Some into.new.items ≡ slice_get (map joined (column_lines plan.now (kept_base self.now))) i) }
        ensures past { result ≡ false → length (column_lines plan.now (kept_base self.now)) ≤ i }
        ensures few { result ≡ true → i < 290 + 3 * self.now.row_room + self.now.station_room }
    {
        if i < self.parts.len() {
            self.parts[i].put(into);
            return true;
        }
        let i = i - self.parts.len();
        if i < self.places.len() {
            let one = &self.requests[usize::from(self.places[i])];
            put_request(into, one.0, &one.1);
            return true;
        }
        let i = i - self.places.len();
        if i < self.stations.len() {
            let one = &self.stations[i];
            put_station(into, one.0, &one.1);
            return true;
        }
        let i = i - self.stations.len();
        if i < self.ended.len() {
            let one = self.ended[i];
            put_ended(into, plan, one.0, one.1);
            return true;
        }
        false
    }
}

// Writes the line of a request into an empty buffer.
fn put_request(into: &mut JournalLine, vlan: u16, request: &Request)
    requires { into.old.items ≡ [] }
    ensures { into.new.items ≡ joined (request_line (vlan, request.now)) }
{
    let until = u128::from(request.opened) + u128::from(MAX_DHCP_RESPONSE_TIME_MS);
    put_octets(into, b"request");
    put_number(into, u64::from(vlan));
    put_port_field(into, request.port);
    put_number(into, u64::from(request.tid));
    put_hex(into, request.duid.as_slice());
    put_sum(into, until);
}

// Writes the line of a station into an empty buffer.
fn put_station(into: &mut JournalLine, vlan: u16, station: &Station)
    requires { into.old.items ≡ [] }
    ensures { into.new.items ≡ joined (station_base_line (vlan, station.now)) }
{
    put_octets(into, b"station");
    put_key(into, put_mac(station.mac).as_str(), vlan);
    put_port_field(into, station.port);
    put_number(into, station.last);
}

// Writes the line of a pass that ended into an empty buffer.
fn put_ended(into: &mut JournalLine, plan: &Plan, pass: u32, how: How)
    requires { into.old.items ≡ [] }
    ensures { into.new.items ≡ joined (ended_line plan.now (pass, how)) }
{
    put_octets(into, b"ended");
    match pass_of(plan, pass as usize) {
        Some(who) => put_who(into, who),
        None => into.push(b' '),
    }
    put_how(into, how);
}

// The pass of this number.
fn pass_of(plan: &Plan, pass: usize) -> Option<Who>
    ensures { result ≡ slice_get (passes_of plan.now) pass }
{
    let ports = plan.ports.as_slice();
    let count = ports.len();
    if pass < count {
        return Some(Who::Ingress(ports[pass].number));
    }
    match pass - count {
        0 => Some(Who::Control),
        1 => Some(Who::Ticker),
        at if at - 2 < count => Some(Who::Egress(ports[at - 2].number)),
        _ => None,
    }
}
