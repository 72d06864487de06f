//! Learning from the captures of the ports of a plan: which of them have routers, and which prefixes these advertise.
//!
//! The captures are read and their arrivals taken in the order of a replay without control (`port_worker`), and each goes to
//! the report of stateful RA-Guard (`ra_learn`), which writes its lines. No history is made, so there is no limit on what
//! comes, and nothing is written at a port. An input that is at fault ends alone, and the others go on. The contract of
//! `Learning::learn` says that what is written is a plain function of the plan, the window and whole inputs, and what of the
//! octets of each source its input is, also where reads or writes fail (`specs/Learning.antt`).
#![tactic(auto)]

mod learning;

pub use learning::{Ending, Learning};
