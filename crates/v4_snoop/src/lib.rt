//! DHCPv4 snooping and ARP inspection as a monitor: which of the IPv4 and ARP frames that passed a switch came from an address
//! that wasn't leased where they came in, and which weren't what they should be.
//!
//! A client's request at a port whose sources are validated, and the acknowledgement of a server in its VLAN,
//! bind an address to the client's port and hardware address until the lease ends. Each VLAN has addresses and requests of
//! its own, and what is behind a tag is read where it stands. `Snoop::judge` is shown each frame that passed and names the
//! first reason for which it is reported. It drops nothing.
//!
//! Contracts see a `Snoop` as what it keeps, and say how that stands with all frames that passed (`HasSnooped` of
//! `specs/Snooped.antt`): reasons are those of the table `frame_reason`, clients those of `known_clients` (`specs/Reasons.antt`).
//! Nothing takes memory but `Snoop::make`.
//!
//! RFC 791 section 3.1 and RFC 768 (packets and datagrams); RFC 826 (ARP); RFC 2131 sections 2 and 3 and RFC 2132 sections 2
//! and 9 (DHCP); IEEE 802.1Q section 6.9 (the VLAN of a frame). Neither snooping nor inspection is a standard: the table and
//! the limits are this switch's own.
#![tactic(auto)]

mod arp;
mod asking;
mod inner_frame;
mod laws;
mod lease;
mod leases;
mod message;
mod options;
mod packet;
mod port_vlans;
mod reason;
mod snoop;
mod told;

pub use laws::{addresses_have_keys_of_their_own, clients_have_ids_of_their_own};
pub use reason::Reason;
pub use snoop::Snoop;
