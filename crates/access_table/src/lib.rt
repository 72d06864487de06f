//! The machine that judges the frames of a VLAN: the states of all its addresses and the open requests of its DHCPv6
//! clients, by which sources are validated (RFC 6620, RFC 7513, RFC 8074).
//!
//! Contracts see an `AccessTable` as its VLAN, states and requests (`specs/Kept.antt`), and say of each call what it does to
//! whatever these stand for: a list of all that frames have told since a start, as `savi_access` has it. `judge` gives each
//! frame the verdict and the probe that `judged` there says, and then stands for the marks with those of the frame.
//! `fix` and `clear` are the commands of an operator, which are told as frames are. Nothing takes memory but
//! `AccessTable::make`.
#![tactic(auto)]

mod change;
mod frames;
mod judgement;
mod judging;
mod operator;
mod plans;
mod table;

pub use judgement::Judgement;
pub use operator::is_on_link;
pub use table::AccessTable;
