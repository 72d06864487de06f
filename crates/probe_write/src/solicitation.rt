// The message of a probe and the group that it goes to.

ghost use Rattle.std.specs.Prelude.{◌≡◌};
ghost use Rattle.v6_sum.specs.InternetChecksum.{checksum};
ghost use Rattle.probe_write.specs.ProbeFrame.{no_address, solicited_node_of, solicitation_of};

use nd_read::{NEIGHBOR_SOLICITATION, SOLICITED_NODE_FIRST};
use savi_kinds::Addr;
use v6_chain::ICMPV6;
use v6_sum::fill_sum;

/// Octets of a neighbor solicitation without options (RFC 4861 section 4.3).
pub const SOLICITATION_LEN: usize = 24;

/// Where the checksum stands (RFC 4443 section 2.1).
const CHECKSUM_AT: usize = 2;
/// Where the target stands (RFC 4861 section 4.3).
const TARGET_AT: usize = 8;

/// The part of the target that a solicited-node address ends with: 24 bits.
const LOW_24_BITS: u128 = 0xff_ffff;

/// The solicited-node address of a target (RFC 4291 section 2.7.1).
pub fn solicited_node(target: Addr) -> Addr
    ensures { result ≡ solicited_node_of target }
{
    Addr(SOLICITED_NODE_FIRST + (target.0 & LOW_24_BITS))
}

/// The neighbor solicitation for a target from the unspecified address, with its checksum.
pub fn solicitation(target: Addr) -> [u8; SOLICITATION_LEN]
    ensures octets { result ≡ solicitation_of target }
    ensures ok { checksum no_address (solicited_node_of target) ICMPV6 result ≡ 0 }
{
    let mut message = [0; SOLICITATION_LEN];
    message[0] = NEIGHBOR_SOLICITATION;
    message[TARGET_AT..].copy_from_slice(&target.0.to_be_bytes());
    fill_sum(
        Addr::UNSPECIFIED,
        solicited_node(target),
        ICMPV6,
        &mut message,
        CHECKSUM_AT,
    );
    message
}
