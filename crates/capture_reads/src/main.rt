//! Reads the captures beside it with the readers, and prints what other programs print for them.
//!
//! For neighbor discovery these are the lines of tshark: number, type, source, destination, target of a
//! solicitation, target of an advertisement, with a tab between each.
//!
//! For DHCPv6 they are what tshark shows of number, type, transaction id, client's DUID, addresses and valid
//! lifetimes, and of the options a 14 for rapid commit. What is printed is the message in the class of each inner frame;
//! behind the number of a frame with a tag stands its VLAN, tshark's `vlan.id`.
//!
//! For each classic header it is the capture's name, the count of the lines that `tcpdump -tt -nn -r FILE`
//! prints, and the stamp at the head of each line in ms, which are the seconds and the first three digits
//! behind the point. For stamps in nanoseconds tcpdump is given `--time-stamp-precision=nano`.
#![tactic(auto)]

mod capture;
mod discovery;
mod leases;
mod stamps;

use std::io;

/// 88 messages of neighbor discovery between Linux hosts and radvd.
const DISCOVERY: &str = "nd-real.pcap";

/// 24 messages of DHCPv6 between three pairs of clients and servers.
const LEASES: &str = "dhcp6-real.pcap";

/// The same messages with tags as at a trunk: the k-th is of VLAN 100 + k, with the priority k modulo 8. Behind them stands
/// the first one with a priority tag, with a service tag, and with two customer tags.
const TAGGED_LEASES: &str = "dhcp6-tagged.pcap";

/// The first seconds of a Linux host, in the four classic headers.
const HEADERS: [&str; 4] = [
    "le-micro.pcap",
    "be-micro.pcap",
    "le-nano.pcap",
    "be-nano.pcap",
];

fn main(rt: HostRuntime) -> io::Result<()> {
    discovery::print_messages(&rt, DISCOVERY)?;
    leases::print_messages(&rt, LEASES)?;
    leases::print_messages(&rt, TAGGED_LEASES)?;
    for name in HEADERS {
        stamps::print_stamps(&rt, name)?;
    }
    Ok(())
}
