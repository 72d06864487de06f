// One option.

ghost use Rattle.std.specs.Prelude.{◌≡◌, [], length, MatchResult};
ghost use Rattle.dhcp6_read.specs.Options.{BeginsNone, EachHasOneRow};
ghost use Rattle.dhcp6_read.specs.Levels.{status_says};
ghost use Rattle.dhcp6_read.specs.Steps.{BeginsWith, TellsLeases};

use crate::message::{DECLINE, DhcpFault, RELEASE};
use byteorder::{BigEndian, ByteOrder};

/// Octets of an option's code and length (RFC 8415 section 21.1).
const OPTION_HEADER_LEN: usize = 4;
/// Where the length stands.
const OPTION_LEN_AT: usize = 2;

/// Octets of a status before its text (RFC 8415 section 21.13).
const STATUS_FIXED_LEN: usize = 2;
/// Status code of success (RFC 8415 section 21.13).
const SUCCESS: u16 = 0;

/// A law: each list of octets is one row of options, and no other.
pub fn one_row()
    ensures { EachHasOneRow }
{}

/// The option at the front of some octets (RFC 8415 section 21.1).
#[derive(Clone, Copy)]
pub struct Front<'a> {
    pub code: u16,
    pub content: &'a [u8],
    /// What stands behind it.
    pub behind: &'a [u8],
}

/// The option at the front of the octets. O(1).
pub fn split_option(octets: &[u8]) -> Result<Front<'_>, DhcpFault>
    ensures { MatchResult result
        (λ front. BeginsWith octets.now front.code front.content.now front.behind.now)
        (λ fault. (fault ≡ DhcpFault.Overrun) × BeginsNone octets.now) }
{
    if octets.len() < OPTION_HEADER_LEN {
        return Err(DhcpFault::Overrun);
    }
    let code = BigEndian::read_u16(octets);
    let len = usize::from(BigEndian::read_u16(&octets[OPTION_LEN_AT..]));
    let rest = &octets[OPTION_HEADER_LEN..];
    if rest.len() < len {
        return Err(DhcpFault::Overrun);
    }
    let (content, behind) = rest.split_at(len);
    Ok(Front {
        code,
        content,
        behind,
    })
}

/// Whether a status in a message of this type voids the addresses beside it. O(1).
pub fn is_void(kind: u8, content: &[u8]) -> Result<bool, DhcpFault>
    ensures { TellsLeases (status_says kind content.now) result [] [] }
{
    if content.len() < STATUS_FIXED_LEN {
        return Err(DhcpFault::Status);
    }
    let failed = BigEndian::read_u16(content) != SUCCESS;
    Ok(failed && kind != RELEASE && kind != DECLINE)
}
