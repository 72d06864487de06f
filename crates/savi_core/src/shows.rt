//! What the shows of an operator print.

ghost use Rattle.std.specs.Prelude.{◌≡◌, ◌≤◌, ◌*◌, ◌+◌, ◌++◌, [], length, map, true, All};
ghost use Rattle.savi_kinds.specs.Ports.{number_of};
ghost use Rattle.savi_kinds.specs.Vlans.{access_vlan, vlans_of};
ghost use Rattle.bridge_fdb.specs.Stations.{live_at};
ghost use Rattle.control_replies.specs.Bindings.{all_binding_lines, bindings_text};
ghost use Rattle.control_replies.specs.Shows.{ports_text, stations_text};
ghost use Rattle.savi_access.specs.Plans.{times_of};
ghost use Rattle.savi_history.specs.Passes.{has_port};
ghost use Rattle.savi_core.specs.Shows.{held_by, kept_row, pending_by, station_lines, stations_told};
ghost use Rattle.savi_core.specs.VlanSets.{of_sets, vlans_of_sets};

use crate::ports::Ports;
use crate::queues::Queues;
use crate::vlan_set::VlanSet;
use access_table::AccessTable;
use bridge_fdb::Fdb;
use control_replies::{BINDING_OCTETS, END_OCTETS, PortRow, REPLY_OCTETS, Reply, STATION_OCTETS};
use fcfs_states::Times;
use savi_kinds::{Moment, Plan, Port, PortPlan, VLAN_MOST};

/// Appends to an empty reply what `show bindings` prints of the addresses of each VLAN that have a state, at most 1,024 in
/// all, by these times of the plan. O(n) in the addresses.
pub(crate) fn show_bindings(sets: &[VlanSet], times: &Times, into: &mut Reply)
    requires empty { into.old ≡ [] }
    requires vlans { All (λ set. set.access.vlan ≤ VLAN_MOST) sets.now }
    requires few { length (of_sets (λ set. set.access.addresses.rows) sets.now) ≤ 1024 }
    ensures { into.new ≡ bindings_text times.now (of_sets (λ set. set.access.addresses.rows) sets.now) }
{
    for set in sets {
        put_bindings(&set.access, times, into);
    }
    into.put_end();
}

// Appends the lines of the addresses of a VLAN that have a state.
fn put_bindings(access: &AccessTable, times: &Times, into: &mut Reply)
    requires vlan { access.now.vlan ≤ VLAN_MOST }
    requires room { length into.old + BINDING_OCTETS * length access.now.addresses.rows + END_OCTETS ≤ REPLY_OCTETS }
    ensures text { into.new ≡ into.old ++ all_binding_lines times.now (map (λ row. (access.now.vlan, row)) access.now.addresses.rows) }
    ensures size { length into.new ≤ length into.old + BINDING_OCTETS * length access.now.addresses.rows }
{
    for i in 0..access.size() {
        if let Some((address, state)) = access.row(i) {
            into.put_binding(times, access.vlan(), address, &state);
        }
    }
}

/// Appends to an empty reply what `show ports` prints at moment `t` (ms) of the ports of a plan, at most 16. It costs what
/// `AccessTable::open_requests` costs for each port.
pub(crate) fn show_ports(
    sets: &[VlanSet],
    queues: &Queues,
    ports: &Ports,
    t: Moment,
    into: &mut Reply,
)
    requires empty { into.old ≡ [] }
    requires vlans { vlans_of_sets sets.now ≡ vlans_of ports.now }
    requires lanes { length queues.now.lanes ≡ length ports.now.ports }
    ensures { into.new ≡ ports_text (map (kept_row sets.now queues.now ports.now t) ports.now.ports) }
{
    for port in ports.plan().ports.as_slice() {
        into.put_port(&port_row(sets, queues, ports, t, port));
    }
    into.put_end();
}

// What is told at moment `t` (ms) of a port of the plan.
fn port_row(sets: &[VlanSet], queues: &Queues, ports: &Ports, t: Moment, port: &PortPlan) -> PortRow
    requires vlans { vlans_of_sets sets.now ≡ vlans_of ports.now }
    requires lanes { length queues.now.lanes ≡ length ports.now.ports }
    requires known { has_port ports.now (number_of port.now.number) ≡ true }
    ensures { result ≡ kept_row sets.now queues.now ports.now t port.now }
{
    let number = port.number;
    let (held, pending) = held_and_pending(sets, ports, number, t);
    PortRow {
        number,
        role: port.role,
        is_shut: queues.is_shut(number),
        held,
        pending,
        queued: u64::from(queues.len(ports.place_of(number))),
    }
}

// How many addresses a port holds, and how many of its requests are open at moment `t` (ms).
fn held_and_pending(sets: &[VlanSet], ports: &Ports, port: Port, t: Moment) -> (u64, u64)
    requires { vlans_of_sets sets.now ≡ vlans_of ports.now }
    ensures held { result.0 ≡ held_by sets.now (number_of port) (access_vlan ports.now (number_of port)) }
    ensures pending { result.1 ≡ pending_by sets.now t (number_of port) (access_vlan ports.now (number_of port)) }
{
    let Some(set) = ports.place_of_access(port) else {
        return (0, 0);
    };
    let access = &sets[set].access;
    let held = u64::from(access.count(port));
    let pending = u64::from(access.open_requests(port, t));
    (held, pending)
}

/// Appends to an empty reply what `show stations` prints of the stations of each VLAN that are live at moment `t` (ms), in
/// order of MAC address. O(n) in the stations that are kept, at most 4,096 a VLAN.
pub(crate) fn show_stations(sets: &[VlanSet], t: Moment, into: &mut Reply)
    requires empty { into.old ≡ [] }
    requires vlans { All (λ set. set.access.vlan ≤ VLAN_MOST) sets.now }
    requires few { length sets.now ≤ 8 }
    ensures { into.new ≡ stations_text (stations_told (of_sets (λ set. live_at t set.fdb) sets.now)) }
{
    for set in sets {
        put_stations(&set.fdb, set.access.vlan(), t, into);
    }
    into.put_end();
}

// Appends the lines of the stations of a VLAN that are live at moment `t` (ms).
fn put_stations(fdb: &Fdb, vlan: u16, t: Moment, into: &mut Reply)
    requires vlan { vlan ≤ VLAN_MOST }
    requires room { length into.old + STATION_OCTETS * 4096 + END_OCTETS ≤ REPLY_OCTETS }
    ensures text { into.new ≡ into.old ++ station_lines vlan (live_at t fdb.now) }
    ensures size { length into.new ≤ length into.old + STATION_OCTETS * 4096 }
{
    let mut from = 0;
    while let Some(next) = fdb.next_row(from, t) {
        let (mac, port, until) = next.row;
        into.put_station(vlan, mac, port, until);
        from = next.behind;
    }
}

/// The times of a plan (ms). O(1).
pub(crate) fn times_of(plan: &Plan) -> Times
    ensures { result ≡ times_of plan.now }
{
    Times {
        gap: plan.gap,
        test: plan.test,
        life: plan.life,
    }
}
