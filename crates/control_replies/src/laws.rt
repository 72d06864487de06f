// How long replies are. Each function does nothing: its contract is the law.

ghost use Rattle.std.specs.Prelude.{◌≡◌, ◌+◌, ◌*◌, ◌^◌, ◌<◌, ◌≤◌, ℕ, List, length, map};
ghost use Rattle.std.specs.List.{range_with_len, AllByRecursion};
ghost use Rattle.savi_kinds.specs.declared.address.Mac.{Mac};
ghost use Rattle.savi_kinds.specs.declared.port.Port.{Port};
ghost use Rattle.savi_kinds.specs.Rules.{rule_number};
ghost use Rattle.fcfs_states.specs.declared.times.Times.{Times};
ghost use Rattle.savi_access.specs.declared.row.Row.{Row};
ghost use Rattle.control_replies.specs.declared.refusal.Refusal.{Refusal};
ghost use Rattle.control_replies.specs.declared.port_row.PortRow.{PortRow};
ghost use Rattle.control_replies.specs.declared.counts.Counts.{Counts};
ghost use Rattle.control_replies.specs.Replies.{refusal_text};
ghost use Rattle.control_replies.specs.Bindings.{IsStored, binding_lines, all_binding_lines, bindings_text};
ghost use Rattle.control_replies.specs.Shows.{HasCounts, IsStation, port_line, ports_text, station_line, stations_text};
ghost use Rattle.control_replies.specs.Counters.{AreCounts, all_rules, counters_text};

use crate::reply::{
    BINDING_OCTETS, COUNTERS_OCTETS, PORT_OCTETS, REFUSAL_OCTETS, REPLY_OCTETS, STATION_OCTETS,
};

/// Law: a refusal has at most 23 octets.
pub fn refusals_fit()
    ensures { (refusal : Refusal) → length (refusal_text refusal) ≤ REFUSAL_OCTETS }
{}

/// Law: an address of a VLAN has at most two lines, of 83 octets each, so that the lines of 1,024 addresses fit a reply.
pub fn bindings_fit()
    ensures row { (times : Times) (row : ℕ × Row) → times.test < 2 ^ 64 → IsStored row
        → length (binding_lines times row) ≤ BINDING_OCTETS }
    ensures rows { (times : Times) (rows : List (ℕ × Row)) → times.test < 2 ^ 64 → AllByRecursion IsStored rows
        → length (all_binding_lines times rows) ≤ BINDING_OCTETS * length rows }
    ensures whole { (times : Times) (rows : List (ℕ × Row)) → times.test < 2 ^ 64 → AllByRecursion IsStored rows
        → length rows ≤ 1024
        → length (bindings_text times rows) ≤ REPLY_OCTETS }
{}

/// Law: the line of a port has at most 79 octets, so that those of 16 ports fit a reply.
pub fn ports_fit()
    ensures row { (row : PortRow) → HasCounts row → length (port_line row) ≤ PORT_OCTETS }
    ensures whole { (rows : List PortRow) → AllByRecursion HasCounts rows → length rows ≤ 16
        → length (ports_text rows) ≤ REPLY_OCTETS }
{}

/// Law: the line of a station has at most 46 octets, so that those of 32,768 stations fit a reply.
pub fn stations_fit()
    ensures row { (row : ℕ × Mac × Port × ℕ) → IsStation row → length (station_line row) ≤ STATION_OCTETS }
    ensures whole { (rows : List (ℕ × Mac × Port × ℕ)) → AllByRecursion IsStation rows → length rows ≤ 32768
        → length (stations_text rows) ≤ REPLY_OCTETS }
{}

/// Law: the counters have at most 1,057 octets.
pub fn counters_fit()
    ensures { (counts : Counts) → AreCounts counts → length (counters_text counts) ≤ COUNTERS_OCTETS }
{}

/// Law: the counters are in the order of the rules' numbers, and each rule has one.
pub fn rules_are_in_order()
    ensures { map rule_number all_rules ≡ range_with_len 1 23 }
{}
