//! Reading the messages of neighbor discovery: `nd` gives the type of a message with its target, or
//! the fault of the first test that fails. The contract is `Reads` of `specs/Tests.antt`: options are
//! a list whose lengths fill what stands behind the fixed part, and the checksum is a sum of words.
//! `nd_of` of `specs/NdOf.antt` says the same so that it computes; the law `a_message_has_its_reading`
//! joins it to the relation.
//!
//! RFC 4861 sections 4, 6.1 and 7.1; RFC 4443 sections 2.1 and 2.3; RFC 4291 section 2.7.
#![tactic(auto)]

mod laws;
mod message;
mod options;
mod reader;

pub use laws::a_message_has_its_reading;
pub use message::{
    NEIGHBOR_ADVERTISEMENT, NEIGHBOR_SOLICITATION, Nd, NdFault, ON_LINK_HOP_LIMIT, REDIRECT,
    ROUTER_ADVERTISEMENT, ROUTER_SOLICITATION, SOLICITED_FLAG, SOLICITED_NODE_FIRST,
};
pub use reader::nd;
