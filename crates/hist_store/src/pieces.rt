ghost use Rattle.std.specs.Prelude.{◌≡◌, ◌+◌, ◌*◌, ◌<◌, ◌≤◌, ◌∷◌, ◌++◌, length, slice_index, decimal};
ghost use Rattle.arrayvec.specs.ArrayVec.{array_vec_len};
ghost use Rattle.hex.specs.Hex.{encode_lower, lower_digits};
ghost use Rattle.savi_kinds.specs.Characters.{space};
ghost use Rattle.hist_store.specs.LineTexts.{hex_text};

use crate::journal_line::JournalLine;

/// Appends these octets.
pub fn put_octets(into: &mut JournalLine, octets: &[u8])
    requires { array_vec_len into.old + length octets.now ≤ 3400 }
    ensures text { into.new.items ≡ into.old.items ++ octets.now }
    ensures size { array_vec_len into.new ≡ array_vec_len into.old + length octets.now }
{
    match into.try_extend_from_slice(octets) {
        Ok(()) => {}
        Err(_) => unreachable!(),
    }
}

/// Appends a number.
pub fn put_decimal(into: &mut JournalLine, n: u64)
    requires { array_vec_len into.old + length (decimal n) ≤ 3400 }
    ensures text { into.new.items ≡ into.old.items ++ decimal n }
    ensures size { array_vec_len into.new ≡ array_vec_len into.old + length (decimal n) }
{
    // Most numbers of a line have one digit.
    if n < 10 {
        into.push(b'0' + n as u8);
        return;
    }
    let mut digits = itoa::Buffer::new();
    put_octets(into, digits.format(n).as_bytes());
}

/// Appends a space and a number, which has at most 20 digits.
pub fn put_number(into: &mut JournalLine, n: u64)
    requires { array_vec_len into.old + 21 ≤ 3400 }
    ensures text { into.new.items ≡ into.old.items ++ space ∷ decimal n }
    ensures size { array_vec_len into.new ≤ array_vec_len into.old + 21 }
{
    into.push(b' ');
    put_decimal(into, n);
}

/// Appends a space and a word.
pub fn put_word(into: &mut JournalLine, word: &str)
    requires { array_vec_len into.old + 1 + length word.now ≤ 3400 }
    ensures text { into.new.items ≡ into.old.items ++ space ∷ word.now }
    ensures size { array_vec_len into.new ≡ array_vec_len into.old + 1 + length word.now }
{
    into.push(b' ');
    put_octets(into, word.as_bytes());
}

/// Appends a space and the digits of these octets, or `-` where there are none. O(n).
pub fn put_hex(into: &mut JournalLine, octets: &[u8])
    requires short { length octets.now ≤ 1518 }
    requires room { array_vec_len into.old + 2 + 2 * length octets.now ≤ 3400 }
    ensures text { into.new.items ≡ into.old.items ++ space ∷ hex_text octets.now }
    ensures size { array_vec_len into.new ≤ array_vec_len into.old + 2 + 2 * length octets.now }
{
    into.push(b' ');
    if octets.is_empty() {
        into.push(b'-');
        return;
    }
    into.push_digits(octets);
}

// Writes the two digits of each octet. They are computed and not looked up, so that a compiler may make many at a time.
pub(crate) fn write_digits(octets: &[u8], digits: &mut [u8])
    requires { length digits.old ≡ 2 * length octets.now }
    ensures { digits.new ≡ encode_lower octets.now }
{
    for i in 0..octets.len() {
        let high = digit_of(octets[i] >> 4);
        let low = digit_of(octets[i] & 0x0f);
        digits[2 * i] = high;
        digits[2 * i + 1] = low;
    }
}

// The digit of a value below 16. What stands between `9` and `a` is added, so that both are computed alike.
fn digit_of(value: u8) -> u8
    requires { value < 16 }
    ensures { result ≡ slice_index lower_digits value }
{
    let gap = if value < 10 { 0 } else { 39 };
    value + 48 + gap
}
