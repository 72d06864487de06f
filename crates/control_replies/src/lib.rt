//! What the switch answers on control: the text of each reply, as a list of octets.
//!
//! A `Reply` is a buffer with room for the longest reply. Each call appends a part of one: a refusal, `ok`, the lines of an
//! address, a port or a station, the counters, or the last line. The texts are in `specs/Replies.antt`,
//! `specs/Bindings.antt`, `specs/Shows.antt` and `specs/Counters.antt`; that whole replies fit is in the laws of `laws`.
//! Nothing takes memory but `Reply::make`. What is told of a switch comes from the caller: nothing here knows of histories.
#![tactic(auto)]

mod binding_line;
mod counts;
mod laws;
mod line;
mod port_row;
mod refusal;
mod reply;

pub use counts::{COUNTERS, Counts};
pub use laws::{
    bindings_fit, counters_fit, ports_fit, refusals_fit, rules_are_in_order, stations_fit,
};
pub use port_row::PortRow;
pub use refusal::Refusal;
pub use reply::{
    BINDING_OCTETS, COUNTERS_OCTETS, END_OCTETS, OK_OCTETS, PORT_OCTETS, REFUSAL_OCTETS,
    REPLY_OCTETS, Reply, STATION_OCTETS,
};
