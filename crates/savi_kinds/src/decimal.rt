ghost use Rattle.std.specs.Prelude.{◌≡◌, ◌≢◌, ℕ, ◌^◌, ◌<◌, ◌≤◌, ◌↔◌, IsTrue, IfSome, IfNone, decimal, length, slice_index};

use std::str;

/// Reads a number from 0 to `most` in decimal, without a sign and without a leading zero.
///
/// `None` for every other text, and for a number past `most`. O(n).
pub fn read_decimal(text: &[u8], most: u64) -> Option<u64>
    ensures read { IfSome result (λ n. (text.now ≡ decimal n) × (n ≤ most)) }
    ensures only { IfNone result ((n : ℕ) → n ≤ most → text.now ≢ decimal n) }
{
    let number = read_u64(text)?;
    if number <= most { Some(number) } else { None }
}

// Reads a number below 2^64.
fn read_u64(text: &[u8]) -> Option<u64>
    ensures read { IfSome result (λ n. (text.now ≡ decimal n) × (n < 2 ^ 64)) }
    ensures only { IfNone result ((n : ℕ) → n < 2 ^ 64 → text.now ≢ decimal n) }
{
    // Most numbers of a journal have one digit.
    if is_digit(text) {
        return Some(u64::from(text[0] - b'0'));
    }
    // No leading zero, and no sign, which `parse` would take.
    if !begins_with_one_to_nine(text) {
        return None;
    }
    let digits = str::from_utf8(text).ok()?;
    digits.parse().ok()
}

// Whether it is one digit.
fn is_digit(text: &[u8]) -> bool
    ensures { IsTrue result ↔ ((length text.now ≡ 1) × (48 ≤ slice_index text.now 0) × (slice_index text.now 0 ≤ 57)) }
{
    matches!(text, [b'0'..=b'9'])
}

// Whether the first character is a digit other than '0'.
fn begins_with_one_to_nine(text: &[u8]) -> bool
    ensures { IsTrue result ↔ ((49 ≤ slice_index text.now 0) × (slice_index text.now 0 ≤ 57)) }
{
    matches!(text, [b'1'..=b'9', ..])
}
