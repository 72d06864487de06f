//! Who has access: which packets may pass an open port, by the states of addresses that earlier frames and the operator
//! left (RFC 6620, RFC 7513, RFC 8074).
//!
//! There is no machine here: `specs/` has the definitions, and each function of the modules of laws does nothing, its
//! contract is a law on them. `specs/Access.antt` is the page to read: which packets of a host may pass, in terms of who is
//! live where. Below it stand:
//!
//! - the states of all addresses as rows (`specs/Rows.antt`), how they age (`specs/Ages.antt`), which probes that sends
//!   (`specs/Sends.antt`), and what a port may hold (`specs/Rooms.antt`, `specs/Keeps.antt`);
//! - what happened to addresses, as marks, the newest first (`specs/NamedMarks.antt`), the state that its own marks give an
//!   address (`specs/States.antt`), all states of a VLAN at once (`specs/Tables.antt`), the probes between two moments
//!   (`specs/Probes.antt`), and which marks may come (`specs/Limits.antt`);
//! - what a frame comes to, step by step (`specs/Judged.antt`) and once more case by case (`specs/Cases.antt`), and what is
//!   told of requests beside addresses (`specs/Marks.antt`); that it reads the marks of its own VLAN alone, and leaves those
//!   of others as they are (`specs/VlanMarks.antt`).
//!
//! The machines `bind_table`, `timer_wheel`, `addr_table` and `access_table` are proved against these.
#![tactic(auto)]

mod address_laws;
mod laws;
mod row;
mod row_laws;
mod sent;

pub use address_laws::{
    a_change_is_one_of_the_rows, a_history_keeps_who_came_first, a_mark_moves_one_row,
    a_port_comes_to_hold_by_its_own_event, a_port_holds_addresses_of_its_vlan,
    an_address_sees_its_own_marks, few_probes_at_once, later_ageing_is_the_same,
    no_port_holds_too_many, probes_are_all_in_order, rows_are_the_states,
    states_are_read_from_any_moment, states_stay_a_base, there_is_one_table,
};
pub use laws::{
    a_frame_comes_to_its_case, a_frame_leaves_other_vlans, a_frame_meets_one_case,
    a_frame_reads_its_own_vlan, a_packet_passes_where_its_source_is_live, a_valid_plan_has_rules,
    an_address_lives_where_it_is_live, frames_keep_the_marks, frames_keep_who_came_first,
    lifetimes_are_of_32_bits, requests_stay_within_limits, states_and_requests_stay_a_base,
    trusted_ports_are_not_validated, without_validation_the_guard_decides,
};
pub use row::Row;
pub use row_laws::{one_address_changes, tables_stay_tables};
pub use sent::SentProbe;
