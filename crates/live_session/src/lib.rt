//! A live session: how far each of its workers is by the segments so far (`specs/Standing.antt`), and what each leaves of
//! its ends by the segments of the whole session (`specs/LiveRows.antt`).
#![tactic(auto)]

mod laws;

pub use laws::{
    control_stands_on, inputs_stand_on, no_control_stands_on, outputs_stand_on,
    the_ticker_stands_on, whole_sessions_leave_rows,
};
