//! Inner frames, read where they stand.

ghost use Rattle.std.specs.Prelude.{◌≡◌, ◌≤◌, length};
ghost use Rattle.eth_frame.specs.Frame.{header_of, payload_of};
ghost use Rattle.eth_frame.specs.Tags.{inner, tag_of, without_tag};

use eth_frame::{Eth, TAGGED_OCTETS_LEAST, Tag, untagged_header};
use savi_kinds::FRAME_OCTETS_LEAST;

/// The header of the inner frame of a frame with this tag. O(1).
pub(crate) fn inner_header(frame: &[u8], tag: Tag) -> Eth
    requires least { 14 ≤ length frame.now }
    requires most { length frame.now ≤ 1518 }
    requires tag { tag ≡ tag_of frame.now }
    ensures { result ≡ header_of (inner frame.now) }
{
    match tag {
        Tag::None => outer_header(frame),
        Tag::Vid(_) => untagged_header(frame),
        Tag::Bad => outer_header(frame),
    }
}

// The header of a frame, whatever tag it has.
fn outer_header(frame: &[u8]) -> Eth
    requires least { 14 ≤ length frame.now }
    requires most { length frame.now ≤ 1518 }
    ensures { result ≡ header_of frame.now }
{
    match eth_frame::read(frame) {
        Ok(eth) => eth,
        Err(_) => unreachable!(),
    }
}

/// What the inner frame of a frame with this tag carries. O(1).
pub(crate) fn inner_payload(frame: &[u8], tag: Tag) -> &[u8]
    requires least { 14 ≤ length frame.now }
    requires tag { tag ≡ tag_of frame.now }
    ensures { result.now ≡ payload_of (inner frame.now) }
{
    match tag {
        Tag::None => outer_payload(frame),
        Tag::Vid(_) => untagged_payload(frame),
        Tag::Bad => outer_payload(frame),
    }
}

// What a frame carries, whatever tag it has.
fn outer_payload(frame: &[u8]) -> &[u8]
    requires { 14 ≤ length frame.now }
    ensures { result.now ≡ payload_of frame.now }
{
    &frame[FRAME_OCTETS_LEAST..]
}

// What a frame carries without its tag: that stands behind the EtherType which the tag has behind it.
fn untagged_payload(frame: &[u8]) -> &[u8]
    requires { TAGGED_OCTETS_LEAST ≤ length frame.now }
    ensures { result.now ≡ payload_of (without_tag frame.now) }
{
    &frame[TAGGED_OCTETS_LEAST..]
}
