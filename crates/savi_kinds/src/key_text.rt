ghost use Rattle.std.specs.Prelude.{◌≡◌, ◌==◌, ◌≤◌, ℕ, IfSome, IfNone, position};
ghost use Rattle.savi_kinds.specs.declared.address.Addr.{Addr};
ghost use Rattle.savi_kinds.specs.AddrText.{IsAddrText};
ghost use Rattle.savi_kinds.specs.KeyOf.{key_of};
ghost use Rattle.savi_kinds.specs.KeyText.{IsKeyText, IsVidText, at_sign, key_text, mac_key_text, vlan_suffix};

use crate::addr_text::{put_addr, read_addr};
use crate::address::{Addr, Mac};
use crate::decimal::read_decimal;
use crate::limits::{DEFAULT_VLAN, VLAN_MOST};
use crate::mac_text::put_mac;
use arrayvec::ArrayString;

// The least number of a VLAN that is written: VLAN 1 isn't.
const WRITTEN_LEAST: u64 = 2;

/// The octets of the longest text of an address in a VLAN: an address, `@` and four digits.
pub const KEY_OCTETS: usize = 44;

/// The octets of the longest text of a MAC address in a VLAN.
pub const MAC_KEY_OCTETS: usize = 22;

/// Reads an address in a VLAN: the address alone in VLAN 1, and in another one the address, `@` and the VLAN's number from 2
/// to 4,094 in decimal without a leading zero.
///
/// `None` for every other text. O(n).
pub fn read_key(text: &[u8]) -> Option<(u16, Addr)>
    ensures read { IfSome result (λ key. IsKeyText text.now key.0 key.1) }
    ensures vlan { IfSome result (λ key. key.0 ≤ 4094) }
    ensures only { IfNone result ((vlan : ℕ) (a : Addr) → ¬ IsKeyText text.now vlan a) }
    ensures value { result ≡ key_of text.now }
{
    match at_sign_of(text) {
        Some(at) => read_sides(&text[..at], &text[at + 1..]),
        None => read_alone(text),
    }
}

// An address in a VLAN other than 1, of the texts on the two sides of the sign.
fn read_sides(address: &[u8], digits: &[u8]) -> Option<(u16, Addr)>
    ensures address { IfSome result (λ key. IsAddrText address.now key.1) }
    ensures vlan { IfSome result (λ key. IsVidText digits.now key.0) }
    ensures only { IfNone result ((vlan : ℕ) (a : Addr) → IsAddrText address.now a → ¬ IsVidText digits.now vlan) }
{
    let a = read_addr(address)?;
    let vlan = read_vid(digits)?;
    Some((vlan, a))
}

// An address in VLAN 1.
fn read_alone(text: &[u8]) -> Option<(u16, Addr)>
    ensures address { IfSome result (λ key. IsAddrText text.now key.1) }
    ensures vlan { IfSome result (λ key. key.0 ≡ 1) }
    ensures only { IfNone result ((a : Addr) → ¬ IsAddrText text.now a) }
{
    let a = read_addr(text)?;
    Some((DEFAULT_VLAN, a))
}

// Where the first at sign stands.
fn at_sign_of(text: &[u8]) -> Option<usize>
    ensures { result ≡ position (λ c. c == at_sign) text.now }
{
    text.iter().position(|c| *c == b'@')
}

// Reads the number of a VLAN other than 1.
fn read_vid(digits: &[u8]) -> Option<u16>
    ensures read { IfSome result (IsVidText digits.now) }
    ensures only { IfNone result ((vlan : ℕ) → ¬ IsVidText digits.now vlan) }
{
    let vlan = read_decimal(digits, u64::from(VLAN_MOST))?;
    if vlan >= WRITTEN_LEAST {
        Some(vlan as u16)
    } else {
        None
    }
}

/// The text of an address in a VLAN, 2 to 44 octets: the address as RFC 5952 section 4 spells it, and in another VLAN than 1
/// `@` and the VLAN's number behind it.
pub fn put_key(vlan: u16, a: Addr) -> ArrayString<KEY_OCTETS>
    requires { vlan ≤ 4094 }
    ensures { result.bytes ≡ key_text vlan a }
{
    let address = put_addr(a);
    let behind = put_vlan(vlan);
    let mut text = ArrayString::new();
    text.push_str(address.as_str());
    text.push_str(behind.as_str());
    text
}

/// The text of a MAC address in a VLAN, 17 to 22 octets: six pairs of lower-case hexadecimal digits with colons between
/// them, and in another VLAN than 1 `@` and the VLAN's number behind them.
pub fn put_mac_key(vlan: u16, m: Mac) -> ArrayString<MAC_KEY_OCTETS>
    requires { vlan ≤ 4094 }
    ensures { result.bytes ≡ mac_key_text vlan m }
{
    let mac = put_mac(m);
    let behind = put_vlan(vlan);
    let mut text = ArrayString::new();
    text.push_str(mac.as_str());
    text.push_str(behind.as_str());
    text
}

// What stands behind an address: nothing in VLAN 1, else `@` and the VLAN's number.
fn put_vlan(vlan: u16) -> ArrayString<5>
    requires { vlan ≤ 4094 }
    ensures { result.bytes ≡ vlan_suffix vlan }
{
    let mut text = ArrayString::new();
    if vlan == DEFAULT_VLAN {
        return text;
    }
    let mut digits = itoa::Buffer::new();
    text.push('@');
    text.push_str(digits.format(vlan));
    text
}
