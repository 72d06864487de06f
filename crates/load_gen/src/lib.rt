//! A load for a switch, made from a seed: a plan of five ports and their captures, in memory. Three hosts
//! claim their addresses, and then send packets whose ports and sources a generator draws.
//!
//! `load` gives the plan (`specs/LoadPlan.antt`) and the captures, octet for octet: `specs/Sendings.antt` says
//! what is sent, by the numbers of `specs/Draws.antt`, and `specs/Captures.antt` which capture has it.
//! `loads_arrive` says what a reader of the captures gets.
//!
//! RFC 4862 section 5.4.2 (the claims), RFC 8200 sections 3 and 4.7 (the packets).
#![tactic(auto)]

mod capture;
mod draws;
mod frames;
mod laws;
mod made;
mod making;
mod plan;

pub use laws::loads_arrive;
pub use made::Load;
pub use making::load;
