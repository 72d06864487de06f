//! What a router advertisement says.

ghost use Rattle.std.specs.Prelude.{◌≡◌};

use arrayvec::ArrayVec;
use savi_kinds::{Addr, Prefix};

/// The octets of the longest advertisement: what 1,518 octets of a frame leave behind the headers of Ethernet and IPv6.
pub const ADVERT_OCTETS_MOST: usize = 1_464;

/// More prefix options, of 32 octets each, than stand behind the 16 octets of the fixed part of any advertisement.
pub const ADVERT_PREFIXES_MOST: usize = 46;

/// A prefix that an advertisement names, with its valid lifetime (RFC 4861 section 4.6.2).
#[derive(Clone, Copy, PartialEq, Eq, Debug)]
pub struct AdvertPrefix {
    pub prefix: Prefix,
    /// In seconds; 0xffff_ffff stands for infinity.
    pub valid: u32,
}

impl Default for AdvertPrefix {
    ghost is_default = { λ a. (a.prefix.net.0 ≡ 0) × (a.prefix.len ≡ 128) × (a.valid ≡ 0) };

    fn default() -> Self {
        AdvertPrefix {
            prefix: Prefix {
                net: Addr(0),
                len: 128,
            },
            valid: 0,
        }
    }
}

/// The prefixes of an advertisement, as they stand in it.
pub type AdvertPrefixes = ArrayVec<AdvertPrefix, ADVERT_PREFIXES_MOST>;

/// A good router advertisement by what RA-Guard sees in it (RFC 4861 section 4.2).
#[derive(Debug, Drop)]
pub struct Ra {
    /// The router lifetime in seconds; 0 where the sender is no default router.
    pub life: u16,
    /// The prefixes of the options that count: those on the link, apart from fe80::/64 and ff00::/8.
    pub prefixes: AdvertPrefixes,
}
