//! The state of one address under both methods of validation, first come and DHCPv6, beside a port that was configured.
//!
//! `AddrState::step` is one row of the table of both (`specs/Table.antt`), `AddrState::age` is ageing, in which each method
//! goes its own way (`specs/Ageing.antt`). Nothing here takes memory. The functions of `laws` carry what the two come to:
//! who has an address keeps it, but for three causes (`specs/FirstCome.antt`).
//!
//! RFC 8074 says how the methods stand together; RFC 6620 section 3.2 and RFC 7513 section 5 what their states mean.
#![tactic(auto)]

mod ageing;
mod laws;
mod owned;
mod state;
mod table;

pub use laws::{
    a_port_holds_what_it_has_room_for, a_still_state_is_not_touched, a_test_stands_in_silence,
    ageing_composes, an_address_is_live_at_one_port, every_event_meets_one_row,
    first_come_is_first_served, nobody_alone_has_no_state, only_these_end_that_an_address_is_live,
    passes_are_those_of_live_ports, states_are_read_from_any_moment, states_stay_valid,
    what_is_due_first_is_the_earliest, who_has_an_address_keeps_it,
};
pub use state::AddrState;
