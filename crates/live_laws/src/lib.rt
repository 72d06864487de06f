//! How much room always suffices for a live session, by what its sources have.
//!
//! `specs/SourceInputs.antt` says which arrivals and lines all octets of the sources are. The function does nothing: its
//! contract is the law.
#![tactic(auto)]

mod laws;

pub use laws::a_budget_suffices_for_a_live_session;
