ghost use Rattle.std.specs.Prelude.{◌≡◌, ◌+◌, ◌≤◌, ◌∷◌, ◌++◌, ℕ, List, IfSome, IfNone};
ghost use Rattle.arrayvec.specs.ArrayString.{array_string_len};
ghost use Rattle.savi_kinds.specs.declared.address.Mac.{Mac};
ghost use Rattle.savi_kinds.specs.MacText.{colon, hex_pair, mac_text, IsMacText, BeginsWithPair, BeginsWithNext};

use crate::address::Mac;
use crate::digit::put_digit;
use arrayvec::ArrayString;

/// Reads a MAC address (RFC 6991 section 3): six pairs of hexadecimal digits of either case with colons between them.
///
/// `None` for every other text.
pub fn read_mac(text: &[u8]) -> Option<Mac>
    ensures read { IfSome result (IsMacText text.now) }
    ensures only { IfNone result ((m : Mac) → ¬ IsMacText text.now m) }
{
    let (first, rest) = read_pair(text)?;
    let (second, rest) = read_next(rest)?;
    let (third, rest) = read_next(rest)?;
    let (fourth, rest) = read_next(rest)?;
    let (fifth, rest) = read_next(rest)?;
    let (sixth, rest) = read_next(rest)?;
    if rest.is_empty() {
        Some(Mac([first, second, third, fourth, fifth, sixth]))
    } else {
        None
    }
}

// Reads a colon and an octet, and gives what stands behind them.
fn read_next(text: &[u8]) -> Option<(u8, &[u8])>
    ensures read { IfSome result (λ r. BeginsWithNext text.now r.0 r.1.now) }
    ensures only { IfNone result ((octet : ℕ) (rest : List ℕ) → ¬ BeginsWithNext text.now octet rest) }
{
    match text {
        [b':', pair @ ..] => read_pair(pair),
        _ => None,
    }
}

// Reads an octet as two digits, and gives what stands behind them.
fn read_pair(text: &[u8]) -> Option<(u8, &[u8])>
    ensures read { IfSome result (λ r. BeginsWithPair text.now r.0 r.1.now) }
    ensures only { IfNone result ((octet : ℕ) (rest : List ℕ) → ¬ BeginsWithPair text.now octet rest) }
{
    let [high, low, rest @ ..] = text else {
        return None;
    };
    let high = char::from(*high).to_digit(16)?;
    let low = char::from(*low).to_digit(16)?;
    Some(((high * 16 + low) as u8, rest))
}

/// The text of a MAC address: six pairs of lower-case hexadecimal digits with colons between them, 17 octets.
pub fn put_mac(m: Mac) -> ArrayString<17>
    ensures { result.bytes ≡ mac_text m }
{
    let [first, second, third, fourth, fifth, sixth] = m.0;
    let mut text = ArrayString::new();
    push_pair(&mut text, first);
    push_next(&mut text, second);
    push_next(&mut text, third);
    push_next(&mut text, fourth);
    push_next(&mut text, fifth);
    push_next(&mut text, sixth);
    text
}

// Writes a colon and an octet.
fn push_next(text: &mut ArrayString<17>, octet: u8)
    requires { array_string_len text.old + 3 ≤ 17 }
    ensures { text.new.bytes ≡ text.old.bytes ++ colon ∷ hex_pair octet }
{
    text.push(':');
    push_pair(text, octet);
}

// Writes an octet as two digits.
fn push_pair(text: &mut ArrayString<17>, octet: u8)
    requires { array_string_len text.old + 2 ≤ 17 }
    ensures { text.new.bytes ≡ text.old.bytes ++ hex_pair octet }
{
    text.push(put_digit(octet >> 4));
    text.push(put_digit(octet & 0x0f));
}
