//! The states of all addresses of a switch under both methods of validation, and what is due in them.
//!
//! Contracts see an `AddrTable` as its rows in rising order of address, the times by which they age and how many addresses a
//! port may hold (`specs/Addresses.antt`). An event moves the state of one address; ageing moves all at once, and sends
//! probes in the order in which they are due (`Ages` and `Sends` of `savi_access`): no call leaves states half aged. What
//! may still fall due falls with each probe and each change (`specs/Turns.antt`). Nothing takes memory but
//! `AddrTable::make`.
//!
//! RFC 6620 section 3.2 and RFC 7513 section 5 say what the states mean, RFC 8074 how the methods stand together.
#![tactic(auto)]

mod ageing;
mod laws;
mod passed;
mod room;
mod stored;
mod table;

pub use ageing::ProbeSink;
pub use laws::what_may_fall_due_falls;
pub use table::AddrTable;
