//! The binding table of a SAVI switch: which state each address has, found by address, and how many addresses each port
//! holds.
//!
//! Contracts see a `BindTable` as its rows in rising order of address, none without a state, which are defined, with the law
//! that they are a map, in `savi_access` (`specs/Rows.antt`). Nothing takes memory but `BindTable::make`.
//!
//! RFC 6620 section 3.2.1 (the data base of bindings), RFC 7513 section 5 (the binding state table), RFC 8074 (one table for
//! both methods).
#![tactic(auto)]

mod counts;
mod search;
mod stored;
mod table;

pub use table::{BindTable, ROWS_MOST};
