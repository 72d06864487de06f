//! The first field at which two lines differ.

ghost use Rattle.std.specs.Prelude.{◌≡◌, ◌==◌, ◌<◌, ◌≤◌, ◌∷◌, ℕ, List, Some, codes, decimal, drop, length};
ghost use Rattle.std.specs.List.{position, position_or_len};
ghost use Rattle.hist_store.specs.TextOfLines.{HasNoSpace, joined};
ghost use Rattle.journal_check.specs.Differing.{AreSpaceless, IsField, first_apart, letter_of};

use crate::answer::FieldText;
use savi_kinds::Act;

/// A field that would stand in a line, and the one that does.
#[derive(Drop)]
pub struct Apart {
    pub want: FieldText,
    pub have: FieldText,
}

/// The first fields that differ of a line that would stand and of one that does. O(n).
pub fn first_apart(want: &[u8], have: &[u8]) -> Apart
    ensures { (wants haves : List (List ℕ)) (field other : List ℕ) → AreSpaceless wants → AreSpaceless haves
        → want.now ≡ joined wants → have.now ≡ joined haves → first_apart wants haves ≡ Some (field, other)
        → IsField field → IsField other → (result.want ≡ field) × (result.have ≡ other) }
{
    let (field, wants) = cut_field(want);
    let (other, haves) = cut_field(have);
    if field != other {
        return texts_apart(field, other);
    }
    // No field differs.
    if want.is_empty() {
        return texts_apart(field, other);
    }
    first_apart(wants, haves)
}

/// Two numbers.
pub fn numbers_apart(want: u64, have: u64) -> Apart
    ensures want { result.want ≡ decimal want }
    ensures have { result.have ≡ decimal have }
{
    let mut digits = itoa::Buffer::new();
    let want = FieldText::of(digits.format(want).as_bytes());
    let mut digits = itoa::Buffer::new();
    let have = FieldText::of(digits.format(have).as_bytes());
    Apart { want, have }
}

/// No entry would stand where there is one of this act.
pub fn none_wanted(act: &Act) -> Apart
    ensures want { result.want ≡ codes "none" }
    ensures have { result.have ≡ letter_of act.now }
{
    texts_apart(b"none", letter_of(act))
}

fn texts_apart(want: &[u8], have: &[u8]) -> Apart
    ensures want { IsField want.now → result.want ≡ want.now }
    ensures have { IsField have.now → result.have ≡ have.now }
{
    Apart {
        want: FieldText::of(want),
        have: FieldText::of(have),
    }
}

// The letter with which the line of an act begins.
fn letter_of(act: &Act) -> &'static [u8]
    ensures { result.now ≡ letter_of act.now }
{
    match act {
        Act::Frame { .. } => b"F",
        Act::Long { .. } => b"L",
        Act::Tick { .. } => b"T",
        Act::Command { .. } => b"C",
        Act::Drain { .. } => b"D",
        Act::End { .. } => b"E",
    }
}

// The field at the front, and the fields behind it.
fn cut_field(text: &[u8]) -> (&[u8], &[u8])
    ensures whole { (field : List ℕ) (fields : List (List ℕ)) → HasNoSpace field → text.now ≡ joined (field ∷ fields)
        → (result.0.now ≡ field) × (result.1.now ≡ joined fields) }
    ensures shorter { 0 < length text.now → length result.1.now < length text.now }
{
    let (field, rest) = text.split_at(space_at(text));
    (field, behind_first(rest))
}

// What stands behind the first octet, if there is one.
fn behind_first(text: &[u8]) -> &[u8]
    ensures { result.now ≡ drop 1 text.now }
{
    match text {
        [_, rest @ ..] => rest,
        [] => text,
    }
}

// Where the first space stands, or how many octets there are.
fn space_at(text: &[u8]) -> usize
    ensures place { result ≡ position_or_len (λ octet. octet == 32) text.now }
    ensures inside { result ≤ length text.now }
{
    first_space(text).unwrap_or(text.len())
}

fn first_space(text: &[u8]) -> Option<usize>
    ensures { result ≡ position (λ octet. octet == 32) text.now }
{
    text.iter().position(|octet| *octet == b' ')
}
