//! The core of the switch as a value that the passes of a session take in turns.
//!
//! The lock knows of a value which numbers fix its history and what no entry changes. `specs/RowCodes.antt`,
//! `specs/PlanCodes.antt` and `specs/BaseCodes.antt` say which numbers fix a row, a plan and a base, and the laws that no two
//! have the same. `past_seen` (`specs/Seen.antt`) reads again what a pass has seen of the history, as rows.
#![tactic(auto)]

mod keep;
mod laws;

pub use keep::KeptCore;
pub use laws::{
    a_code_says_one_history, a_code_says_one_plan, a_code_says_one_row, a_code_says_what_is_fixed,
    a_pass_knows_its_own,
};
