//! Reading a frame's VLAN tag.

ghost use Rattle.std.specs.Prelude.{◌≡◌, ◌+◌, ◌≤◌, length};
ghost use Rattle.eth_frame.specs.Tags.{is_tag, kind_at, names_vlan, tag_of, vid_in};

use crate::header::KIND_AT;
use crate::vlan_tag::Tag;
use byteorder::{BigEndian, ByteOrder};
use savi_kinds::{FRAME_OCTETS_LEAST, VLAN_MOST};

/// The EtherType of a customer VLAN tag (IEEE 802.1Q table 9-1).
pub const CUSTOMER_TAG: u16 = 0x8100;

/// The EtherType of a service VLAN tag (IEEE 802.1Q table 9-1).
pub const SERVICE_TAG: u16 = 0x88a8;

/// The octets of a frame's header with a tag in it.
pub const TAGGED_OCTETS_LEAST: usize = 18;

/// Where the control information of a tag begins.
const CONTROL_AT: usize = 14;

/// Where the EtherType behind a tag begins.
pub(crate) const INNER_KIND_AT: usize = 16;

/// The bits of the control information that are the number of a VLAN (IEEE 802.1Q section 9.6).
const VID_BITS: u16 = 0x0fff;

/// The least number of a VLAN: 0 is that of a priority tag, which names none (IEEE 802.1Q table 9-2).
const VLAN_LEAST: u16 = 1;

/// The tag of a frame. O(1).
pub fn tag(frame: &[u8]) -> Tag
    requires { FRAME_OCTETS_LEAST ≤ length frame.now }
    ensures { result ≡ tag_of frame.now }
{
    if !is_tag(kind_at(frame, KIND_AT)) {
        return Tag::None;
    }
    if names_vlan(frame) {
        Tag::Vid(vid_in(frame))
    } else {
        Tag::Bad
    }
}

/// Whether the tag of a frame is a whole customer tag that names a VLAN and has no other tag behind it.
fn names_vlan(frame: &[u8]) -> bool
    requires { FRAME_OCTETS_LEAST ≤ length frame.now }
    ensures { result ≡ names_vlan frame.now }
{
    if frame.len() < TAGGED_OCTETS_LEAST {
        return false;
    }
    let vid = vid_in(frame);
    kind_at(frame, KIND_AT) == CUSTOMER_TAG
        && VLAN_LEAST <= vid
        && vid <= VLAN_MOST
        && !is_tag(kind_at(frame, INNER_KIND_AT))
}

/// The number of a VLAN in the control information of a tag.
fn vid_in(frame: &[u8]) -> u16
    requires { CONTROL_AT + 2 ≤ length frame.now }
    ensures { result ≡ vid_in frame.now }
{
    BigEndian::read_u16(&frame[CONTROL_AT..]) & VID_BITS
}

/// The EtherType at a place of a frame.
fn kind_at(frame: &[u8], place: usize) -> u16
    requires { place + 2 ≤ length frame.now }
    ensures { result ≡ kind_at place frame.now }
{
    BigEndian::read_u16(&frame[place..])
}

/// Whether an EtherType is that of a tag.
fn is_tag(kind: u16) -> bool
    ensures { result ≡ is_tag kind }
{
    kind == CUSTOMER_TAG || kind == SERVICE_TAG
}
