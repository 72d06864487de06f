//! The header of an Ethernet frame, and its VLAN tag.
//!
//! `read` gives the two addresses and the EtherType of a frame, or says that the octets are too few or too
//! many for one. Its contract is the layout of IEEE 802.3 section 3.1.1, which RFC 2464 section 3 uses for
//! IPv6: six octets of destination, six of source, two of EtherType, and then the payload. `tag` says which
//! VLAN the tag of a frame names (IEEE 802.1Q section 9), and `untagged_header` what its header is without it.
#![tactic(auto)]

mod header;
mod laws;
mod tag_reader;
mod vlan_tag;

pub use header::{Eth, EthFault, read, untagged_header};
pub use laws::{a_tagged_frame_has_its_vlan, an_inner_frame_has_the_same_addresses};
pub use tag_reader::{CUSTOMER_TAG, SERVICE_TAG, TAGGED_OCTETS_LEAST, tag};
pub use vlan_tag::Tag;
