//! The Internet checksum over the pseudo header of IPv6 and a message: `sum_of` computes it,
//! `sum_ok` tests a message that carries it, `fill_sum` puts it into a message. The contracts say
//! that each is the checksum as defined on the list of 16-bit words (`specs/InternetChecksum.antt`).
//!
//! RFC 1071 sections 1 and 2, RFC 8200 section 8.1, RFC 4443 section 2.3.
#![tactic(auto)]

mod law;
mod message;
mod words;

pub use law::sum_of_joined_parts;
pub use message::{fill_sum, sum_of, sum_ok};
