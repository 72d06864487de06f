ghost use Rattle.std.specs.Prelude.{◌≡◌, ◌==◌, ℕ, IfSome, IfNone, position};
ghost use Rattle.savi_kinds.specs.declared.address.Prefix.{Prefix};
ghost use Rattle.savi_kinds.specs.PrefixText.{IsPrefixText, IsLengthText};

use crate::addr_text::read_addr;
use crate::address::Prefix;
use crate::decimal::read_decimal;

// The most bits that a prefix has (RFC 4291 section 2.3).
const PREFIX_BITS_MOST: u8 = 128;

/// Reads a prefix (RFC 4291 section 2.3): an address, `/`, and a length from 1 to 128 in decimal without a leading zero.
///
/// `None` for every other text, and where the address has a bit set past the length. O(n).
pub fn read_prefix(text: &[u8]) -> Option<Prefix>
    ensures read { IfSome result (IsPrefixText text.now) }
    ensures only { IfNone result ((p : Prefix) → ¬ IsPrefixText text.now p) }
{
    let slash = slash_of(text)?;
    let net = read_addr(&text[..slash])?;
    let len = read_len(&text[slash + 1..])?;
    if net.0 % (1 << (PREFIX_BITS_MOST - len)) != 0 {
        return None;
    }
    Some(Prefix { net, len })
}

// Where the first slash stands.
fn slash_of(text: &[u8]) -> Option<usize>
    ensures { result ≡ position (λ c. c == 47) text.now }
{
    text.iter().position(|c| *c == b'/')
}

// Reads the length of a prefix.
fn read_len(digits: &[u8]) -> Option<u8>
    ensures read { IfSome result (IsLengthText digits.now) }
    ensures only { IfNone result ((n : ℕ) → ¬ IsLengthText digits.now n) }
{
    let len = read_decimal(digits, u64::from(PREFIX_BITS_MOST))?;
    if len > 0 { Some(len as u8) } else { None }
}
