//! A place of the body, and the step from one header to the next.

ghost use Rattle.std.specs.Prelude.{◌≡◌, ◌^◌, ◌<◌, ◌≤◌, ℕ, List, length};
ghost use Rattle.v6_chain.specs.Kinds.{kind_of};
ghost use Rattle.v6_chain.specs.Headers.{Header, size_at, offset_of};
ghost use Rattle.v6_chain.specs.Places.{IsBehind, IsMisplaced, Steps, ComesFurther};

use crate::kind::{Kind, kind_of};
use crate::outcome::{Chain, ChainFault};
use byteorder::{BigEndian, ByteOrder};

/// The octets of a fragment header (RFC 8200 section 4.5).
const FRAGMENT_LEN: usize = 8;

/// Where the offset is in a fragment header (RFC 8200 section 4.5).
const OFFSET_AT: usize = 2;

/// How many bits stand behind the offset in its two octets (RFC 8200 section 4.5).
const OFFSET_SHIFT: u32 = 3;

/// The octets that a length octet counts, which leaves out the first 8 (RFC 6564 section 4).
const UNIT: usize = 8;

/// The octets that the length octet of an authentication header counts, which leaves out the first two units
/// (RFC 4302 section 2.2).
const AUTHENTICATION_UNIT: usize = 4;

/// A place of the body at which a header begins, or the body ends.
#[derive(Clone, Copy, Debug)]
pub struct Place {
    /// The next-header value that names what stands here.
    pub next: u8,
    /// How many octets of the body stand before it.
    pub at: usize,
    /// Whether a fragment header stands before it.
    pub fragmented: bool,
}

/// Where a step leads.
#[derive(Clone, Copy, Debug)]
pub enum Step {
    /// To the place behind an extension header.
    On(Place),
    /// To the end of the chain.
    End(Chain),
}

impl Place {
    /// The step from a place of the body. O(1).
    pub fn step(self, body: &[u8]) -> Step
        requires within { self.at ≤ length body.now }
        requires fits { length body.now < 2 ^ 16 }
        ensures steps { (first : ℕ) (headers : List Header) → IsBehind first body.now headers self → Steps first body.now headers self result }
        ensures further { ComesFurther body.now self result }
    {
        let kind = kind_of(self.next);
        if let Some(fault) = self.misplaced(kind) {
            return Step::End(Chain::Bad(fault));
        }
        let rest = &body[self.at..];
        let size = size_at(kind, rest);
        if rest.len() < size {
            return Step::End(if self.fragmented {
                Chain::Hidden
            } else {
                Chain::Bad(ChainFault::Cut)
            });
        }
        match kind {
            Kind::Upper(_) => Step::End(Chain::Upper {
                proto: self.next,
                at: self.at as u16,
                fragmented: self.fragmented,
            }),
            Kind::Unknown => Step::End(Chain::Unknown(self.next)),
            Kind::Fragment if offset_of(rest) != 0 => Step::End(Chain::Later),
            Kind::Fragment => Step::On(Place {
                next: rest[0],
                at: self.at + FRAGMENT_LEN,
                fragmented: true,
            }),
            Kind::HopByHop | Kind::Extension | Kind::Authentication => Step::On(Place {
                next: rest[0],
                at: self.at + size,
                fragmented: self.fragmented,
            }),
        }
    }

    /// The rule that what stands here breaks by its place (RFC 8200 section 4.1).
    fn misplaced(self, kind: Kind) -> Option<ChainFault>
        ensures { IsMisplaced kind self result }
    {
        match kind {
            Kind::HopByHop if self.at > 0 => Some(ChainFault::HopByHop),
            Kind::Fragment if self.fragmented => Some(ChainFault::Twice),
            _ => None,
        }
    }
}

/// How many octets a header of this kind has, by its length octet, or an upper header at least. One that is too short to
/// have a length octet is shorter than any header.
fn size_at(kind: Kind, octets: &[u8]) -> usize
    ensures { result ≡ size_at kind octets.now }
{
    let length = usize::from(octets.get(1).copied().unwrap_or(0));
    match kind {
        Kind::HopByHop | Kind::Extension => (length + 1) * UNIT,
        Kind::Authentication => (length + 2) * AUTHENTICATION_UNIT,
        Kind::Fragment => FRAGMENT_LEN,
        Kind::Upper(least) => least,
        Kind::Unknown => 0,
    }
}

/// The offset in a fragment header: the high 13 bits of two octets (RFC 8200 section 4.5).
fn offset_of(header: &[u8]) -> u16
    requires { FRAGMENT_LEN ≤ length header.now }
    ensures { result ≡ offset_of header.now }
{
    BigEndian::read_u16(&header[OFFSET_AT..]) >> OFFSET_SHIFT
}
