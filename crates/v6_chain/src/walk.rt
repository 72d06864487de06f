//! From header to header.

ghost use Rattle.std.specs.Prelude.{◌≡◌};
ghost use Rattle.v6_chain.specs.Packet.{IsPacket};
ghost use Rattle.v6_chain.specs.Outcome.{IsOutcome, IsWithinBody};

use crate::header::HEADER_LEN;
use crate::outcome::Chain;
use crate::packet::Ip;
use crate::place::{Place, Step};

/// What the chain of extension headers of a packet comes to. O(headers), of which there are at most 65,535 / 8.
pub fn chain(ip: &Ip, payload: &[u8]) -> Chain
    requires { IsPacket payload.now ip.now }
    ensures outcome { IsOutcome ip.now payload.now result }
    ensures only { (other : Chain) → IsOutcome ip.now payload.now other → other ≡ result }
    ensures within { IsWithinBody ip.now payload.now result }
{
    let body = &payload[HEADER_LEN..HEADER_LEN + usize::from(ip.len)];
    let mut place = Place {
        next: ip.next,
        at: 0,
        fragmented: false,
    };
    loop {
        match place.step(body) {
            Step::On(further) => place = further,
            Step::End(outcome) => return outcome,
        }
    }
}
