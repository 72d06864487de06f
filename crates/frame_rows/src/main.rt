//! The readers and the writer of frames: frames, headers and messages, whose octets were written out by the RFCs or taken
//! from real ones.
//!
//! The input is lines, of which those that begin with `#` are passed over. Those of the first part make the octets that are
//! read:
//!
//!     == TEXT                   is printed as it stands: what the lines behind it show
//!     name NAME DIGITS          octets of a part in hexadecimal digits
//!     octets PARTS              the octets are these parts: names, digits, or `DIGITS*COUNT` for digits that come so often
//!     change PLACE DIGITS       the octet at a place becomes this one, or its last bit turns where there are no digits
//!     cut PLACE                 the octets end before this place
//!     fill SRC DST NEXT PLACE   the checksum of a message is filled in at this place
//!
//! What each of these comes to is printed:
//!
//!     eth                       the header of a frame: destination, source and EtherType
//!     class                     the VLAN of a frame's tag, and the class of its inner frame, with the fields of its headers
//!     guard ROLE UNKNOWN        the rule that stops an inner frame at such a port, where unknown next headers are `drop` or
//!                               `pass`
//!     ip                        the fixed header of a packet: source, destination, next header, hop limit and length
//!     chain                     what its chain of headers comes to: the upper header, its place, whether it is a fragment
//!     body NEXT                 the same of a packet with this next-header value, and the octets behind its fixed header
//!     sum SRC DST NEXT PLACE    the checksum of a message, the message with it, and whether it is right
//!     right SRC DST NEXT 0      whether it is right
//!     nd HOP SRC DST            what a message of ICMPv6 says for neighbor discovery
//!     dhcp                      what a message of DHCPv6 says: type, id, DUID, rapid commit, and addresses with lifetimes
//!     probe MAC TARGET          the octets of a probe
#![tactic(auto)]

mod frames;
mod messages;
mod octets;
mod packets;
mod probes;
mod sums;

use anyhow::bail;
use frames::{print_class, print_eth, print_rule};
use messages::{print_datagram, print_message};
use octets::{Octets, word_of};
use packets::{print_body, print_chain, print_ip};
use probes::print_probe;
use std::alloc::Global;
use sums::{fill, print_right, print_sum};

fn main(rt: HostRuntime) -> anyhow::Result<()> {
    let mut octets = Octets::new(rt.alloc());
    for line in rt.lines(rt.alloc()) {
        let line = line?;
        follow(&rt, rt.alloc(), &mut octets, line.as_str())?;
    }
    Ok(())
}

// Does what a line says.
fn follow(rt: &impl Print, alloc: Global, octets: &mut Octets, line: &str) -> anyhow::Result<()> {
    let (word, rest) = word_of(line);
    match word {
        "" | "#" => Ok(()),
        "==" => Ok(println!(rt; "{line}")?),
        "name" => octets.name(alloc, rest),
        "octets" => octets.set(alloc, rest),
        "change" => octets.change(alloc, rest),
        "cut" => octets.cut(rest),
        "fill" => fill(&mut octets.now, rest),
        _ => {
            print!(rt; "{line}:")?;
            print(rt, alloc, octets, word, rest)
        }
    }
}

// Prints what a line comes to.
fn print(
    rt: &impl Print,
    alloc: Global,
    octets: &mut Octets,
    word: &str,
    rest: &str,
) -> anyhow::Result<()> {
    match word {
        "eth" => print_eth(rt, octets.now.as_slice()),
        "class" => print_class(rt, alloc, octets.now.as_slice()),
        "guard" => print_rule(rt, octets.now.as_slice(), rest),
        "ip" => print_ip(rt, octets.now.as_slice()),
        "chain" => print_chain(rt, octets.now.as_slice()),
        "body" => print_body(rt, alloc, octets.now.as_slice(), rest),
        "sum" => print_sum(rt, alloc, &mut octets.now, rest),
        "right" => print_right(rt, octets.now.as_slice(), rest),
        "nd" => print_message(rt, octets.now.as_slice(), rest),
        "dhcp" => print_datagram(rt, alloc, octets.now.as_slice()),
        "probe" => print_probe(rt, alloc, rest),
        _ => bail!("no line of the input: {word}"),
    }
}
