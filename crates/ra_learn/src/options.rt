//! The prefix options of a router advertisement.

ghost use Rattle.std.specs.Prelude.{◌≡◌, ◌+◌, ◌-◌, ◌*◌, ◌%◌, ◌^◌, ◌≤◌, Some, None, length, MatchOption, slice_index, nat_le};
ghost use Rattle.std.specs.Option.{option_map};
ghost use Rattle.savi_kinds.specs.Prefixes.{first_of, past_of};
ghost use Rattle.nd_read.specs.OptionRow.{option_row};
ghost use Rattle.ra_learn.specs.PrefixOptions.{cleared, prefix_if_counts, counted_prefixes, is_usable, option_in};

use crate::advert::{AdvertPrefix, AdvertPrefixes};
use arrayvec::ArrayVec;
use byteorder::{BigEndian, ByteOrder};
use savi_kinds::{Addr, Prefix};

/// The unit of an option's length, in octets (RFC 4861 section 4.6).
const UNIT: usize = 8;

/// Where the type and the length of an option stand (RFC 4861 section 4.6).
const KIND_AT: usize = 0;

const UNITS_AT: usize = 1;

/// Type of a prefix option (RFC 4861 section 4.6.2).
const PREFIX_OPTION: u8 = 3;
/// The length of a prefix option, in units of 8 octets (RFC 4861 section 4.6.2).
const PREFIX_UNITS: u8 = 4;
/// Where the fields of a prefix option stand (RFC 4861 section 4.6.2).
const BITS_AT: usize = 2;

const FLAGS_AT: usize = 3;

const VALID_AT: usize = 4;

const PREFIX_AT: usize = 16;
/// The L flag of a prefix option: the prefix is on the link (RFC 4861 section 4.6.2).
const ON_LINK_FLAG: u8 = 0x80;

/// The bits of an address.
const ADDR_BITS: u8 = 128;

/// fe80:0:0:1::, behind the last of the link-local addresses (RFC 4291 section 2.5.6).
const LINK_LOCAL_PAST: u128 = 0xfe80_0000_0000_0001_0000_0000_0000_0000;

/// The prefixes that the options of an advertisement name, where they are whole options one behind the other: at most
/// 1,448 octets, so at most 45 options of 32 octets. O(n).
pub fn read_prefixes(octets: &[u8]) -> Option<AdvertPrefixes>
    requires { length octets.now ≤ 1448 }
    ensures { MatchOption result (option_row octets.now ≡ None)
        (λ prefixes. option_map counted_prefixes (option_row octets.now) ≡ Some prefixes.items) }
{
    let mut prefixes = ArrayVec::new();
    let mut rest = octets;
    'option: while let [_, units, ..] = rest {
        let len = UNIT * usize::from(*units);
        if len == 0 || rest.len() < len {
            return None;
        }
        if let Some(prefix) = prefix_if_counts(&rest[..len]) {
            prefixes.push(prefix);
        }
        rest = &rest[len..];
    }
    if rest.is_empty() {
        Some(prefixes)
    } else {
        None
    }
}

/// The prefix that an option names, where it counts.
fn prefix_if_counts(option: &[u8]) -> Option<AdvertPrefix>
    requires least { 8 ≤ length option.now }
    requires whole { length option.now ≡ 8 * slice_index option.now 1 }
    ensures value { result ≡ prefix_if_counts (option_in option.now) }
    ensures long { MatchOption result (Unit {0}) (λ a. length option.now ≡ 32) }
{
    if option[KIND_AT] != PREFIX_OPTION || option[UNITS_AT] != PREFIX_UNITS {
        return None;
    }
    let bits = option[BITS_AT];
    if option[FLAGS_AT] & ON_LINK_FLAG == 0 || bits < 1 || bits > ADDR_BITS {
        return None;
    }
    let address = BigEndian::read_u128(&option[PREFIX_AT..]);
    let prefix = Prefix {
        net: Addr(cleared(bits, address)),
        len: bits,
    };
    if !is_apart(prefix) {
        return None;
    }
    let valid = BigEndian::read_u32(&option[VALID_AT..]);
    Some(AdvertPrefix { prefix, valid })
}

/// An address with the bits past this length cleared.
fn cleared(bits: u8, address: u128) -> u128
    requires least { 1 ≤ bits }
    requires most { bits ≤ 128 }
    ensures { result ≡ cleared bits address }
{
    address - address % size_of(bits)
}

/// How many addresses a prefix of this length has.
fn size_of(bits: u8) -> u128
    requires least { 1 ≤ bits }
    requires most { bits ≤ 128 }
    ensures value { result ≡ 2 ^ (128 - bits) }
    ensures most { result ≤ 2 ^ 127 }
{
    1 << (ADDR_BITS - bits)
}

/// Whether no address of the prefix is in fe80::/64 or in ff00::/8.
fn is_apart(prefix: Prefix) -> bool
    requires least { 1 ≤ prefix.len }
    requires most { prefix.len ≤ 128 }
    ensures { result ≡ is_usable prefix }
{
    let size = size_of(prefix.len);
    let before_link_local = prefix.net.0 <= Prefix::LINK_LOCAL.net.0 - size;
    let behind_link_local = LINK_LOCAL_PAST <= prefix.net.0;
    (before_link_local || behind_link_local) && prefix.net.0 <= Prefix::MULTICAST.net.0 - size
}
