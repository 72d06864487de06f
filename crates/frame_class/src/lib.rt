//! One reading of a frame: `class` says what it is, from the Ethernet header to the first octets of its message, and `seen`
//! gives its VLAN tag beside the class of its inner frame. `see` puts that where it stays.
//!
//! A frame is read once, and all that is decided of it afterwards is decided of its tag and its class. The contract of a
//! class is the relation `IsClassOf` of `specs/Reading.antt`, in the terms of the readers below: the Ethernet header, the
//! fixed header and the outcome of the header chain, and the message of neighbor discovery or of DHCPv6. Each frame has
//! exactly one class, and `class_of` of `specs/ClassOf.antt` computes it: the law `a_frame_has_its_class`. What is seen of a
//! frame is its tag and the class of its inner frame (`IsSeen` and `seen_of` of `specs/Seen.antt`): the law
//! `a_frame_is_seen_once`. A tag that names no VLAN is a class of its own: `a_bad_tag_is_a_class`.
//!
//! IEEE 802.1Q section 9; RFC 2464 section 3; RFC 8200 sections 3 and 4; RFC 4443 section 2.1; RFC 4861 section 4; RFC 768;
//! RFC 8415.
#![tactic(auto)]

mod classes;
mod laws;
mod reader;

pub use classes::{Class, Read, Seen};
pub use laws::{a_bad_tag_is_a_class, a_frame_has_its_class, a_frame_is_seen_once};
pub use reader::{IPV6_TYPE, class, see, seen};
