ghost use Rattle.std.specs.Prelude.{◌≡◌, ◌<◌, ◌≤◌, ◌%◌, ◌↔◌, ◌∷◌, ◌++◌, ℕ, List, [], IfSome, IsSomeAnd, IsTrue, codes, length};
ghost use Rattle.std.specs.Bool.{OnTrue};
ghost use Rattle.arrayvec.specs.ArrayVec.{array_vec_len};
ghost use Rattle.hex.specs.Hex.{IsBytes, encode_lower};
ghost use Rattle.savi_kinds.specs.MacText.{hex_digit};
ghost use Rattle.savi_kinds.specs.Characters.{space};
ghost use Rattle.hist_store.specs.TextOfLines.{spaced};
ghost use Rattle.hist_store.specs.LineTexts.{hex_text};

use crate::read_fields::take_field;
use arrayvec::ArrayVec;
use savi_kinds::FRAME_OCTETS_MOST;

/// A buffer for the octets of a frame or a command.
pub type LineOctets = ArrayVec<u8, FRAME_OCTETS_MOST>;

// Octets as the first field, of which there are at most so many. They are put into the empty buffer.
pub fn take_hex<'a>(text: &'a [u8], most: usize, octets: &mut LineOctets) -> Option<&'a [u8]>
    requires empty { octets.old.items ≡ [] }
    requires room { most ≤ 1518 }
    ensures read { IfSome result (λ rest. (text.now ≡ space ∷ hex_text octets.new.items ++ rest.now)
        × IsBytes octets.new.items × (array_vec_len octets.new ≤ most)) }
    ensures whole { (bytes : List ℕ) (fields : List (List ℕ)) → IsBytes bytes → length bytes ≤ most
        → text.now ≡ spaced (hex_text bytes ∷ fields)
        → IsSomeAnd result (λ rest. rest.now ≡ spaced fields) × (octets.new.items ≡ bytes) }
{
    let (field, rest) = take_field(text)?;
    if read_octets(field, most, octets) {
        Some(rest)
    } else {
        None
    }
}

// Puts the octets that the text of a field says into the empty buffer, at most so many. Whether it says any.
fn read_octets(field: &[u8], most: usize, octets: &mut LineOctets) -> bool
    requires empty { octets.old.items ≡ [] }
    requires room { most ≤ 1518 }
    ensures read { OnTrue result ((field.now ≡ hex_text octets.new.items) × IsBytes octets.new.items
        × (array_vec_len octets.new ≤ most)) }
    ensures whole { (bytes : List ℕ) → IsBytes bytes → length bytes ≤ most → field.now ≡ hex_text bytes
        → IsTrue result × (octets.new.items ≡ bytes) }
{
    if is_dash(field) {
        return true;
    }
    if field.is_empty() || field.len() % 2 != 0 || field.len() / 2 > most {
        return false;
    }
    read_digits(field, octets)
}

fn is_dash(field: &[u8]) -> bool
    ensures { IsTrue result ↔ (field.now ≡ codes "-") }
{
    field == b"-".as_slice()
}

// Puts the octets of these digits, two for each, into the empty buffer. Whether each is a digit.
fn read_digits(digits: &[u8], octets: &mut LineOctets) -> bool
    requires empty { octets.old.items ≡ [] }
    requires even { length digits.now % 2 ≡ 0 }
    requires room { length digits.now ≤ 3036 }
    ensures read { OnTrue result ((digits.now ≡ encode_lower octets.new.items) × IsBytes octets.new.items) }
    ensures whole { (bytes : List ℕ) → IsBytes bytes → digits.now ≡ encode_lower bytes
        → IsTrue result × (octets.new.items ≡ bytes) }
{
    for i in 0..digits.len() / 2 {
        let high = digit_value(digits[2 * i]);
        let low = digit_value(digits[2 * i + 1]);
        if high > 15 || low > 15 {
            return false;
        }
        octets.push(high * 16 + low);
    }
    true
}

// What each octet stands for as a digit, and 16 for what is none. Looked up, since a test of a random digit is foreseen too
// seldom by a processor.
#[rattlefmt::skip]
static DIGIT_VALUES: [u8; 256] = [
    16, 16, 16, 16, 16, 16, 16, 16, 16, 16, 16, 16, 16, 16, 16, 16,
    16, 16, 16, 16, 16, 16, 16, 16, 16, 16, 16, 16, 16, 16, 16, 16,
    16, 16, 16, 16, 16, 16, 16, 16, 16, 16, 16, 16, 16, 16, 16, 16,
     0,  1,  2,  3,  4,  5,  6,  7,  8,  9, 16, 16, 16, 16, 16, 16,
    16, 16, 16, 16, 16, 16, 16, 16, 16, 16, 16, 16, 16, 16, 16, 16,
    16, 16, 16, 16, 16, 16, 16, 16, 16, 16, 16, 16, 16, 16, 16, 16,
    16, 10, 11, 12, 13, 14, 15, 16, 16, 16, 16, 16, 16, 16, 16, 16,
    16, 16, 16, 16, 16, 16, 16, 16, 16, 16, 16, 16, 16, 16, 16, 16,
    16, 16, 16, 16, 16, 16, 16, 16, 16, 16, 16, 16, 16, 16, 16, 16,
    16, 16, 16, 16, 16, 16, 16, 16, 16, 16, 16, 16, 16, 16, 16, 16,
    16, 16, 16, 16, 16, 16, 16, 16, 16, 16, 16, 16, 16, 16, 16, 16,
    16, 16, 16, 16, 16, 16, 16, 16, 16, 16, 16, 16, 16, 16, 16, 16,
    16, 16, 16, 16, 16, 16, 16, 16, 16, 16, 16, 16, 16, 16, 16, 16,
    16, 16, 16, 16, 16, 16, 16, 16, 16, 16, 16, 16, 16, 16, 16, 16,
    16, 16, 16, 16, 16, 16, 16, 16, 16, 16, 16, 16, 16, 16, 16, 16,
    16, 16, 16, 16, 16, 16, 16, 16, 16, 16, 16, 16, 16, 16, 16, 16,
];

// What a digit stands for, and 16 for what is none.
fn digit_value(c: u8) -> u8
    ensures most { result ≤ 16 }
    ensures digit { result < 16 → c ≡ hex_digit result }
    ensures only { (value : ℕ) → value < 16 → c ≡ hex_digit value → result ≡ value }
{
    DIGIT_VALUES[usize::from(c)]
}
