//! Who came first: the state of one address that hosts configure by themselves, moved by its table.
//!
//! `Fcfs::step` is one row of the table (`specs/Table.antt`), `Fcfs::age` is ageing, closed and lazy (`specs/Ageing.antt`).
//! Nothing here takes memory. The functions of `laws` carry what the two tables come to: a live address leaves its port
//! only by a test that its holder didn't answer.
//!
//! RFC 6620 section 3.2 says what the states mean; the rows are this switch's own.
#![tactic(auto)]

mod ageing;
mod answer;
mod event;
mod laws;
mod no_bind;
mod ports;
mod state;
mod table;
mod tentative;
mod test_lt;
mod test_vp;
mod times;
mod valid;

pub use ageing::Aged;
pub use answer::{Answer, Probe, dropping, passing};
pub use event::Ev;
pub use laws::{
    a_test_stands_in_silence, ageing_composes, ageing_is_one, ageing_sends_few_probes_in_order,
    every_event_meets_one_row, first_come_is_first_served, nothing_is_due_after_ageing,
    only_a_test_ends_a_binding, states_stay_valid,
};
pub use ports::is_same;
pub use state::Fcfs;
pub use times::Times;
