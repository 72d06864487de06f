//! What a history leaves, kept for the next one.

ghost use Rattle.std.specs.Prelude.{◌≡◌, ◌≤◌, ◌+◌, [], None, length, map, slice_index_or};
ghost use Rattle.std.specs.List.Sorted.{IsStrictlyIncreasing};
ghost use Rattle.dhcp_states.specs.Requests.{open_at};
ghost use Rattle.bridge_fdb.specs.Stations.{live_at};
ghost use Rattle.savi_segments.specs.Checkpoints.{up_to, ends_of};
ghost use Rattle.checkpoint.specs.Columns.{IsUpTo};
ghost use Rattle.savi_core.specs.VlanSets.{of_sets, vlans_of_sets};
ghost use Rattle.savi_core.specs.Turns.{with_ends, with_rows, with_requests, with_stations};

use crate::ends::Ends;
use crate::vlan_set::VlanSet;
use access_table::AccessTable;
use bridge_fdb::Fdb;
use checkpoint::{Checkpoint, ENDED_MOST, REQUESTS_MOST};
use savi_access::Row;
use savi_kinds::Moment;

/// Keeps which of the first so many passes have ended for good, and how. O(passes).
pub(crate) fn keep_ends(into: &mut Checkpoint, ends: &Ends, passes: u32)
    requires empty { into.old.ended ≡ [] }
    requires few { passes ≤ ENDED_MOST }
    ensures { into.new ≡ with_ends (ends_of (λ pass. slice_index_or ends.now.ends pass None) (up_to passes)) into.old }
{
    for pass in 0..passes {
        if let Some(how) = ends.of(pass) {
            into.put_ended(pass, how);
        }
    }
}

/// Keeps the addresses of each VLAN that have a state. O(addresses).
pub(crate) fn keep_rows(into: &mut Checkpoint, sets: &[VlanSet])
    requires empty { into.old.rows ≡ [] }
    requires order { IsStrictlyIncreasing (vlans_of_sets sets.now) }
    requires room { length (of_sets (λ set. set.access.addresses.rows) sets.now) ≤ into.old.row_room }
    ensures { into.new ≡ with_rows (of_sets (λ set. set.access.addresses.rows) sets.now) into.old }
{
    for set in sets {
        keep_rows_of(into, &set.access);
    }
}

// Keeps those of a VLAN behind the others.
fn keep_rows_of(into: &mut Checkpoint, access: &AccessTable)
    requires order { IsUpTo access.now.vlan into.old.rows }
    requires room { length into.old.rows + length access.now.addresses.rows ≤ into.old.row_room }
    ensures { into.new ≡ with_rows (map (λ row. (access.now.vlan, row)) access.now.addresses.rows) into.old }
{
    for i in 0..access.size() {
        if let Some((address, state)) = access.row(i) {
            into.put_row(access.vlan(), Row { address, state });
        }
    }
}

/// Keeps the requests of each VLAN that are open at moment `t` (ms), at most 256 in all. O(n) in the requests for each.
pub(crate) fn keep_requests(into: &mut Checkpoint, sets: &[VlanSet], t: Moment)
    requires empty { into.old.requests ≡ [] }
    requires order { IsStrictlyIncreasing (vlans_of_sets sets.now) }
    requires few { length (of_sets (λ set. open_at t set.access.requests) sets.now) ≤ REQUESTS_MOST }
    ensures { into.new ≡ with_requests (of_sets (λ set. open_at t set.access.requests) sets.now) into.old }
{
    for set in sets {
        keep_requests_of(into, &set.access, t);
    }
}

// Keeps those of a VLAN behind the others.
fn keep_requests_of(into: &mut Checkpoint, access: &AccessTable, t: Moment)
    requires order { IsUpTo access.now.vlan into.old.requests }
    requires few { length into.old.requests + length (open_at t access.now.requests) ≤ REQUESTS_MOST }
    ensures { into.new ≡ with_requests (map (λ request. (access.now.vlan, request)) (open_at t access.now.requests)) into.old }
{
    for request in access.requests() {
        if request.is_open(t) {
            into.put_request(access.vlan(), request);
        }
    }
}

/// Keeps the stations of each VLAN that are live at moment `t` (ms). O(stations that are kept).
pub(crate) fn keep_stations(into: &mut Checkpoint, sets: &[VlanSet], t: Moment)
    requires empty { into.old.stations ≡ [] }
    requires order { IsStrictlyIncreasing (vlans_of_sets sets.now) }
    requires room { length (of_sets (λ set. live_at t set.fdb) sets.now) ≤ into.old.station_room }
    ensures { into.new ≡ with_stations (of_sets (λ set. live_at t set.fdb) sets.now) into.old }
{
    for set in sets {
        keep_stations_of(into, &set.fdb, set.access.vlan(), t);
    }
}

// Keeps those of a VLAN behind the others.
fn keep_stations_of(into: &mut Checkpoint, fdb: &Fdb, vlan: u16, t: Moment)
    requires order { IsUpTo vlan into.old.stations }
    requires room { length into.old.stations + length (live_at t fdb.now) ≤ into.old.station_room }
    ensures { into.new ≡ with_stations (map (λ station. (vlan, station)) (live_at t fdb.now)) into.old }
{
    let mut from = 0;
    while let Some((station, behind)) = fdb.next_station(from, t) {
        into.put_station(vlan, station);
        from = behind;
    }
}
