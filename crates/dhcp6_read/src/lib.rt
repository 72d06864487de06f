//! Reading the messages of DHCPv6: `dhcp` gives what an access switch needs of a message, its type, transaction id,
//! client DUID and leased addresses, or the fault that comes first in it. The contract is `Reads` of
//! `specs/Message.antt`: options are lists that fill the rest of a message, of an IA and of an address. Each message has
//! exactly one reading, and `dhcp_of` of `specs/DhcpOf.antt` computes it: the law `a_message_has_its_reading`.
//!
//! RFC 8415 sections 7.3, 8, 9, 11.1, 21.1 to 21.6, 21.13 and 21.14.
#![tactic(auto)]

mod laws;
mod lease;
mod message;
mod option;
mod reader;

pub use laws::a_message_has_its_reading;
pub use message::{
    DECLINE, DUID_LEN_MOST, Dhcp, DhcpFault, Duid, LEASES_MOST, Lease, Leases, MESSAGE_LEN_MOST,
    REBIND, RELAY_FORW, RELAY_REPL, RELEASE, RENEW, REPLY, REQUEST, SOLICIT,
};
pub use option::one_row;
pub use reader::dhcp;
