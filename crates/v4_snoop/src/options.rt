//! The options of a message of DHCP.

ghost use Rattle.std.specs.Prelude.{◌≡◌, ◌≢◌, ◌==◌, ◌+◌, ◌≤◌, [], Some, None, true, false, length, slice_index, is_some, MatchOption};
ghost use Rattle.std.specs.Option.{option_and_then};
ghost use Rattle.v4_snoop.specs.DhcpOptions.{dhcp_options, content_len, first_content, one_octet, four_octets};
ghost use Rattle.v4_snoop.specs.OptionFronts.{IsOptionFront};

use byteorder::{BigEndian, ByteOrder};

/// Code of padding, which has no length (RFC 2132 section 3.1).
const PAD: u8 = 0;

/// Code of the end of options (RFC 2132 section 3.2).
const END: u8 = 255;

/// Whether these octets are whole options. O(n).
pub(crate) fn are_whole(octets: &[u8]) -> bool
    ensures { result ≡ is_some (dhcp_options octets.now) }
{
    let mut rest = octets;
    'option: while !ends(rest) {
        let Some(len) = front_len(rest) else {
            return false;
        };
        rest = &rest[len..];
    }
    true
}

/// The content of the first of these options with a code, which is neither that of padding nor that of the end: None exactly
/// where none has it. O(n).
pub(crate) fn first_content(octets: &[u8], wanted: u8) -> Option<&[u8]>
    requires whole { is_some (dhcp_options octets.now) ≡ true }
    requires code { 1 ≤ wanted }
    ensures { MatchOption result
        (option_and_then (first_content wanted) (dhcp_options octets.now) ≡ None)
        (λ content. option_and_then (first_content wanted) (dhcp_options octets.now) ≡ Some content.now) }
{
    let mut rest = octets;
    'option: while !ends(rest) {
        let Some(len) = front_len(rest) else {
            return None;
        };
        if has_code(rest, wanted) {
            return Some(&rest[2..len]);
        }
        rest = &rest[len..];
    }
    None
}

// Whether the options end here.
fn ends(rest: &[u8]) -> bool
    ensures ended { result ≡ true → dhcp_options rest.now ≡ Some [] }
    ensures some { result ≡ false → 1 ≤ length rest.now }
    ensures code { result ≡ false → slice_index rest.now 0 ≢ 255 }
{
    if rest.is_empty() {
        return true;
    }
    has_code(rest, END)
}

// Whether this code is at the front.
fn has_code(rest: &[u8], code: u8) -> bool
    requires { 1 ≤ length rest.now }
    ensures { result ≡ (slice_index rest.now 0 == code) }
{
    rest[0] == code
}

// The octets of the padding or the option at the front: None exactly where it runs over.
fn front_len(rest: &[u8]) -> Option<usize>
    requires some { 1 ≤ length rest.now }
    requires code { slice_index rest.now 0 ≢ 255 }
    ensures { MatchOption result (dhcp_options rest.now ≡ None) (IsOptionFront rest.now) }
{
    if has_code(rest, PAD) {
        return Some(1);
    }
    match content_len(&rest[1..]) {
        Some(len) => Some(2 + len),
        None => None,
    }
}

// The length of an option's content, by what stands behind its code: None exactly where that isn't all there.
fn content_len(behind: &[u8]) -> Option<usize>
    ensures value { result ≡ content_len behind.now }
    ensures within { MatchOption result (Unit {0}) (λ len. 1 + len ≤ length behind.now) }
{
    let [len, more @ ..] = behind else {
        return None;
    };
    let len = usize::from(*len);
    if len <= more.len() { Some(len) } else { None }
}

/// The number that one octet is: None exactly where there isn't one alone. O(1).
pub(crate) fn one_octet(content: &[u8]) -> Option<u8>
    ensures { result ≡ one_octet content.now }
{
    if content.len() == 1 {
        Some(content[0])
    } else {
        None
    }
}

/// The number that four octets are: None exactly where there aren't four. O(1).
pub(crate) fn four_octets(content: &[u8]) -> Option<u32>
    ensures { result ≡ four_octets content.now }
{
    if content.len() == 4 {
        Some(BigEndian::read_u32(content))
    } else {
        None
    }
}
