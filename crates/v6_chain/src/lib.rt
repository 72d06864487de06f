//! The IPv6 header and the chain of extension headers behind it.
//!
//! `ip` reads the fixed header (RFC 8200 section 3), and `chain` goes from header to header (RFC 8200 section 4,
//! RFC 4302 section 2, RFC 6564 section 4) to the upper header of a packet, or says why none is to be seen (RFC 7112).
//! The contract of `chain` is a relation between a packet and the list of its headers, `specs/Outcome.antt`, and each
//! packet has exactly one outcome, which `chain_of` of `specs/ChainOf.antt` computes (`a_chain_has_its_outcome`).
#![tactic(auto)]

mod header;
mod kind;
mod laws;
mod outcome;
mod packet;
mod place;
mod walk;

pub use header::{HEADER_LEN, ip, is_multicast};
pub use kind::{
    AUTHENTICATION, DCCP, DESTINATION_OPTIONS, ESP, FRAGMENT, GRE, HOP_BY_HOP, HOST_IDENTITY,
    ICMPV6, IPV4, IPV6, L2TP, MOBILITY, NO_NEXT_HEADER, OSPF, PIM, ROUTING, SCTP, SHIM6, TCP, UDP,
    UDP_LITE, VRRP,
};
pub use laws::a_chain_has_its_outcome;
pub use outcome::{Chain, ChainFault};
pub use packet::{Ip, IpFault};
pub use walk::chain;
