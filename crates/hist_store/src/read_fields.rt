ghost use Rattle.std.specs.Prelude.{IsTrue, ◌↔◌, ◌≡◌, ◌==◌, ◌^◌, ◌<◌, ◌≤◌, ◌∷◌, ◌++◌, ℕ, List, Option, Some, IfSome, IsSomeAnd, decimal, length};
ghost use Rattle.std.specs.List.{position, position_or_len};
ghost use Rattle.savi_kinds.specs.declared.port.Port.{Port};
ghost use Rattle.savi_kinds.specs.Characters.{space};
ghost use Rattle.hist_store.specs.TextOfLines.{spaced, HasNoSpace};
ghost use Rattle.hist_store.specs.PortTexts.{port_text};

use memchr::memchr;
use savi_kinds::{PORTS_MOST, Port, read_decimal};

// The greatest number of 32 bits.
const COUNT_MOST: u64 = 0xffff_ffff;

// The field at the front of a text, and the fields behind it, each with a space in front.
pub fn cut_field(text: &[u8]) -> (&[u8], &[u8])
    ensures read { text.now ≡ result.0.now ++ result.1.now }
    ensures whole { (field : List ℕ) (fields : List (List ℕ)) → HasNoSpace field
        → text.now ≡ field ++ spaced fields → (result.0.now ≡ field) × (result.1.now ≡ spaced fields) }
{
    text.split_at(end_at(text, b' '))
}

// Where this octet stands first, or how long the text is.
pub fn end_at(text: &[u8], stop: u8) -> usize
    ensures place { result ≡ position_or_len (λ c. c == stop) text.now }
    ensures inside { result ≤ length text.now }
{
    first_place(text, stop).unwrap_or(text.len())
}

fn first_place(text: &[u8], stop: u8) -> Option<usize>
    ensures { result ≡ position (λ c. c == stop) text.now }
{
    memchr(stop, text)
}

// The field behind the space at the front, and the fields behind it.
pub fn take_field(text: &[u8]) -> Option<(&[u8], &[u8])>
    ensures read { IfSome result (λ r. text.now ≡ space ∷ r.0.now ++ r.1.now) }
    ensures whole { (field : List ℕ) (fields : List (List ℕ)) → HasNoSpace field
        → text.now ≡ spaced (field ∷ fields) → IsSomeAnd result (λ r. (r.0.now ≡ field) × (r.1.now ≡ spaced fields)) }
{
    match text {
        [b' ', fields @ ..] => Some(cut_field(fields)),
        _ => None,
    }
}

// What stands behind this word at the front.
pub fn behind<'a>(text: &'a [u8], word: &str) -> Option<&'a [u8]>
    ensures read { IfSome result (λ rest. text.now ≡ word.now ++ rest.now) }
    ensures whole { (rest : List ℕ) → text.now ≡ word.now ++ rest → IsSomeAnd result (λ r. r.now ≡ rest) }
{
    if text.len() < word.len() {
        return None;
    }
    let (front, rest) = text.split_at(word.len());
    if is_word(front, word) {
        Some(rest)
    } else {
        None
    }
}

pub fn is_word(text: &[u8], word: &str) -> bool
    ensures { IsTrue result ↔ (text.now ≡ word.now) }
{
    text == word.as_bytes()
}

// A number of 64 bits as the first field.
pub fn take_number(text: &[u8]) -> Option<(u64, &[u8])>
    ensures read { IfSome result (λ r. (text.now ≡ space ∷ decimal r.0 ++ r.1.now) × (r.0 < 2 ^ 64)) }
    ensures whole { (n : ℕ) (fields : List (List ℕ)) → n < 2 ^ 64
        → text.now ≡ spaced (decimal n ∷ fields) → IsSomeAnd result (λ r. (r.0 ≡ n) × (r.1.now ≡ spaced fields)) }
{
    let (field, rest) = take_field(text)?;
    Some((read_number(field)?, rest))
}

// A number of 64 bits.
pub fn read_number(field: &[u8]) -> Option<u64>
    ensures read { IfSome result (λ n. (field.now ≡ decimal n) × (n < 2 ^ 64)) }
    ensures whole { (n : ℕ) → n < 2 ^ 64 → field.now ≡ decimal n → result ≡ Some n }
{
    read_decimal(field, u64::MAX)
}

// A number of 32 bits as the first field.
pub fn take_count(text: &[u8]) -> Option<(u32, &[u8])>
    ensures read { IfSome result (λ r. (text.now ≡ space ∷ decimal r.0 ++ r.1.now) × (r.0 < 2 ^ 32)) }
    ensures whole { (n : ℕ) (fields : List (List ℕ)) → n < 2 ^ 32
        → text.now ≡ spaced (decimal n ∷ fields) → IsSomeAnd result (λ r. (r.0 ≡ n) × (r.1.now ≡ spaced fields)) }
{
    let (number, rest) = take_number(text)?;
    if number > COUNT_MOST {
        return None;
    }
    Some((number as u32, rest))
}

// A port as the first field.
pub fn take_port(text: &[u8]) -> Option<(Port, &[u8])>
    ensures read { IfSome result (λ r. text.now ≡ space ∷ port_text r.0 ++ r.1.now) }
    ensures whole { (port : Port) (fields : List (List ℕ)) → text.now ≡ spaced (port_text port ∷ fields)
        → IsSomeAnd result (λ r. (r.0 ≡ port) × (r.1.now ≡ spaced fields)) }
{
    let (field, rest) = take_field(text)?;
    Some((read_port(field)?, rest))
}

// A port, by its number.
pub fn read_port(field: &[u8]) -> Option<Port>
    ensures read { IfSome result (λ port. field.now ≡ port_text port) }
    ensures whole { (port : Port) → field.now ≡ port_text port → result ≡ Some port }
{
    let number = read_number(field)?;
    if number > PORTS_MOST as u64 {
        return None;
    }
    Port::new(number as u8)
}
