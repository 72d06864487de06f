//! DHCPv6 as an access switch follows it: which port asked, so that a server's Reply binds the address to that port and
//! to no other, and how long a binding stands. Contracts see a `Pending` as the list of the requests that it keeps, and
//! speak of those that are open (`specs/Requests.antt`). Nothing takes memory but `Pending::make`.
//!
//! RFC 7513 sections 5, 6 and 10 (lifetimes of requests and bindings); RFC 8415 sections 7.7, 11.1 and 16.1.
#![tactic(auto)]

mod bound;
mod laws;
mod pending;
mod request;

pub use bound::{Bound, INFINITE_LIFETIME, lease_end};
pub use laws::{
    bindings_age_once, open_requests_age_once, open_requests_stay_within_limits,
    replies_name_the_asker,
};
pub use pending::{OPEN_REQUESTS_MOST, Pending};
pub use request::{DUID_OCTETS_MOST, MAX_DHCP_RESPONSE_TIME_MS, Request};
