//! Reading a frame's header.

ghost use Rattle.std.specs.Prelude.{◌≡◌, ◌<◌, ◌≤◌, ◌↔◌, length, take, IfOk, IsOk};
ghost use Rattle.eth_frame.specs.Frame.{header_of};
ghost use Rattle.eth_frame.specs.Tags.{without_tag};

use crate::tag_reader::{INNER_KIND_AT, TAGGED_OCTETS_LEAST};
use byteorder::{BigEndian, ByteOrder};
use savi_kinds::{FRAME_OCTETS_LEAST, FRAME_OCTETS_MOST, Mac};

/// The octets of a MAC address (IEEE 802.3 section 3.2.3).
const MAC_LEN: usize = 6;

/// Where the source address begins.
const SOURCE_AT: usize = 6;

/// Where the EtherType begins.
pub(crate) const KIND_AT: usize = 12;

/// The header of a frame.
#[derive(Clone, Copy, PartialEq, Eq, Debug)]
pub struct Eth {
    pub dst: Mac,
    pub src: Mac,
    /// The EtherType, as 0x86DD for IPv6 (RFC 2464 section 3).
    pub kind: u16,
}

/// Why octets are no frame.
#[derive(Clone, Copy, PartialEq, Eq, Debug)]
pub enum EthFault {
    /// Fewer than 14 octets, which are those of the header.
    Runt,
    /// More than 1,518 octets.
    Long,
}

/// The header of a frame, which is given without its check sequence (IEEE 802.3 section 3.1.1). The frame
/// is refused exactly for its length. O(1).
pub fn read(frame: &[u8]) -> Result<Eth, EthFault>
    ensures runt { (result ≡ Err EthFault.Runt) ↔ (length frame.now < FRAME_OCTETS_LEAST) }
    ensures long { (result ≡ Err EthFault.Long) ↔ (FRAME_OCTETS_MOST < length frame.now) }
    ensures read { IsOk result ↔ ((FRAME_OCTETS_LEAST ≤ length frame.now) × (length frame.now ≤ FRAME_OCTETS_MOST)) }
    ensures header { IfOk result (λ eth. eth ≡ header_of frame.now) }
{
    if frame.len() < FRAME_OCTETS_LEAST {
        return Err(EthFault::Runt);
    }
    if frame.len() > FRAME_OCTETS_MOST {
        return Err(EthFault::Long);
    }
    Ok(Eth {
        dst: mac_of(frame),
        src: mac_of(&frame[SOURCE_AT..]),
        kind: BigEndian::read_u16(&frame[KIND_AT..]),
    })
}

/// The header that a frame has without its tag: the EtherType is the one behind the tag. O(1).
pub fn untagged_header(frame: &[u8]) -> Eth
    requires { TAGGED_OCTETS_LEAST ≤ length frame.now }
    ensures { result ≡ header_of (without_tag frame.now) }
{
    let dst = mac_of(frame);
    let src = mac_of(&frame[SOURCE_AT..]);
    let kind = BigEndian::read_u16(&frame[INNER_KIND_AT..]);
    Eth { dst, src, kind }
}

/// The MAC address in the first six octets.
fn mac_of(octets: &[u8]) -> Mac
    requires { MAC_LEN ≤ length octets.now }
    ensures { result.0 ≡ take MAC_LEN octets.now }
{
    let mut mac = [0; MAC_LEN];
    mac.copy_from_slice(&octets[..MAC_LEN]);
    Mac(mac)
}
