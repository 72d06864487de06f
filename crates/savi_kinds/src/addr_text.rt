ghost use Rattle.std.specs.Prelude.{◌≡◌, ◌+◌, ◌*◌, ◌≤◌, ◌++◌, IfSome, IfNone, length};
ghost use Rattle.std.specs.Net.Text.{hex, longest_zero_run as first_longest_run};
ghost use Rattle.arrayvec.specs.ArrayString.{array_string_len};
ghost use Rattle.savi_kinds.specs.declared.address.Addr.{Addr};
ghost use Rattle.savi_kinds.specs.AddrOf.{addr_of};
ghost use Rattle.savi_kinds.specs.AddrText.{IsAddrText, addr_text, groups_text, groups_of as groups_of_addr};

use crate::address::Addr;
use crate::digit::put_digit;
use arrayvec::ArrayString;
use std::net::Ipv6Addr;

// What stands for the groups of zeros that are left out.
const COLONS: &str = "::";

// The groups of zeros that are left out at least (RFC 5952 section 4.2.2).
const RUN_LEAST: usize = 2;

// The least group that has four digits.
const FOUR_DIGITS: u16 = 0x1000;

// The least group that has three digits.
const THREE_DIGITS: u16 = 0x100;

// The least group that has two digits.
const TWO_DIGITS: u16 = 0x10;

/// Reads an IPv6 address (RFC 4291 section 2.2): eight groups of one to four hexadecimal digits of either case with
/// colons between them, or fewer groups and one `::` for one group of zeros or more.
///
/// `None` for every other text, one with an IPv4 address at its end (form 3) or with a zone among them. O(n).
pub fn read_addr(text: &[u8]) -> Option<Addr>
    ensures read { IfSome result (IsAddrText text.now) }
    ensures only { IfNone result ((a : Addr) → ¬ IsAddrText text.now a) }
    ensures value { result ≡ addr_of text.now }
{
    // The library reads form 3 too, in which alone dots stand.
    if text.contains(&b'.') {
        return None;
    }
    let address = Ipv6Addr::parse_ascii(text).ok()?;
    Some(Addr(address.to_bits()))
}

/// The text of an IPv6 address as RFC 5952 section 4 spells it, 2 to 39 octets.
pub fn put_addr(a: Addr) -> ArrayString<39>
    ensures { result.bytes ≡ addr_text a }
{
    let groups = groups_of(a);
    let (start, len) = longest_zero_run(&groups);
    let mut text = ArrayString::new();
    if len >= RUN_LEAST {
        push_groups(&mut text, &groups[..start]);
        text.push_str(COLONS);
        push_groups(&mut text, &groups[start + len..]);
    } else {
        push_groups(&mut text, &groups);
    }
    text
}

// The eight groups of an address, the highest first.
fn groups_of(a: Addr) -> [u16; 8]
    ensures { result ≡ groups_of_addr a }
{
    Ipv6Addr::from_bits(a.0).segments()
}

// Where the longest run of zeros starts and how long it is; of runs as long the first (RFC 5952 section 4.2.3).
fn longest_zero_run(groups: &[u16]) -> (usize, usize)
    ensures value { result ≡ first_longest_run groups.now }
    ensures within { result.0 + result.1 ≤ length groups.now }
{
    let mut start = groups.len();
    let mut len = 0;
    let mut run = 0;
    for i in (0..groups.len()).rev() {
        run = if groups[i] == 0 { run + 1 } else { 0 };
        if run >= len {
            start = i;
            len = run;
        }
    }
    (start, len)
}

// Writes groups with colons between them.
fn push_groups(text: &mut ArrayString<39>, groups: &[u16])
    requires { array_string_len text.old + 5 * length groups.now ≤ 40 }
    ensures bytes { text.new.bytes ≡ text.old.bytes ++ groups_text groups.now }
    ensures len { array_string_len text.new ≤ array_string_len text.old + 5 * length groups.now }
{
    for (i, group) in groups.iter().enumerate() {
        if i > 0 {
            text.push(':');
        }
        push_group(text, *group);
    }
}

// Writes a group without leading zeros (RFC 5952 section 4.1).
fn push_group(text: &mut ArrayString<39>, group: u16)
    requires { array_string_len text.old + 4 ≤ 39 }
    ensures bytes { text.new.bytes ≡ text.old.bytes ++ hex group }
    ensures len { array_string_len text.new ≤ array_string_len text.old + 4 }
{
    if group >= FOUR_DIGITS {
        text.push(put_digit((group >> 12) as u8));
    }
    if group >= THREE_DIGITS {
        text.push(put_digit((group >> 8 & 0x0f) as u8));
    }
    if group >= TWO_DIGITS {
        text.push(put_digit((group >> 4 & 0x0f) as u8));
    }
    text.push(put_digit((group & 0x0f) as u8));
}
