//! What a history of the switch is: which entries may stand in it, what each of them says, and what it sends.
//!
//! The definitions of `specs/` speak of whole histories, and of no machine. The functions here carry the laws on them.
//! A history is a list of rows, the newest first: what stood before an entry is the rest of the list.
//!
//! What is said of VLANs alone stands in `specs/Vlans.antt`, and what happens in one in `specs/Happenings.antt`.
//!
//! Read: RFC 6105 and RFC 7113 (router advertisements), RFC 7112 (first fragments), IEEE 802.1Q clause 8 (bridges),
//! RFC 5952 (the text of addresses), RFC 6620, RFC 7513 and RFC 8074 (what is told of addresses).
#![tactic(auto)]

mod laws;
mod station_laws;

pub use laws::{
    a_switch_starts_within_limits, a_vlan_follows_from_what_happens_in_it, adverts_are_stopped,
    each_probe_is_counted_once, frames_are_cut_for_want_of_room, frames_without_a_vlan_are_dropped,
    histories_keep_who_came_first, histories_tell_rightly, nothing_overtakes,
    packets_pass_where_their_source_is_live, probes_come_with_validation, queues_stay_within_depth,
    refused_commands_shut_no_port, shut_ports_take_no_part, ticks_change_nothing_later,
    written_addresses_are_told_apart,
};
pub use station_laws::{
    frames_go_to_known_stations, groups_are_no_stations, stations_stay_within_limits,
};
