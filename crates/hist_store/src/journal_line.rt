//! A buffer for a line of the journal.

ghost use Rattle.std.specs.Prelude.{◌≡◌, ◌+◌, ◌*◌, ◌<◌, ◌≤◌, ◌↔◌, [], ◌∷◌, ◌++◌, length, take, IsOk, OnOk, OnErr};
ghost use Rattle.arrayvec.specs.ArrayVec.{array_vec_len};
ghost use Rattle.hex.specs.Hex.{encode_lower};

use crate::pieces::write_digits;
use std::marker::Model;

/// The most octets of a line of the journal, its line feed aside.
pub const JOURNAL_LINE_OCTETS: usize = 3_400;

/// A buffer for a line of the journal, or for its header, which is shorter than the longest line. Contracts see what it
/// holds, as of an `ArrayVec`, which would blank it for each new line.
#[derive(Drop)]
pub struct JournalLine {
    octets: [u8; JOURNAL_LINE_OCTETS],
    len: usize,
}

impl Model for JournalLine {
    ghost use Rattle.std.specs.Prelude.{ℕ, ◌≤◌, take};
    ghost use Rattle.arrayvec.specs.ArrayVec.{ArrayVec};

    ghost Value = { ArrayVec ℕ };

    ghost view = { λ l. record { items = take l.len l.octets } };

    ghost invariant = { λ l. l.len ≤ 3400 };
}

/// There is no room for what should be appended.
#[derive(Clone, Copy, PartialEq, Eq, Debug)]
pub struct LineFull;

impl JournalLine {
    /// An empty line.
    pub fn new() -> JournalLine
        ensures { result.items ≡ [] }
    {
        JournalLine {
            octets: [0; JOURNAL_LINE_OCTETS],
            len: 0,
        }
    }

    /// How many octets it holds. O(1).
    pub fn len(&self) -> usize
        ensures value { result ≡ array_vec_len self.now }
        ensures fits { result ≤ 3400 }
    {
        self.len
    }

    /// What it holds. O(1).
    pub fn as_slice(&self) -> &[u8]
        ensures value { result.now ≡ self.now.items }
        ensures fits { length result.now ≤ 3400 }
    {
        &self.octets[..self.len]
    }

    /// Lets go of what it holds. O(1): the octets stay where they are.
    pub fn clear(&mut self)
        ensures { self.new.items ≡ [] }
    {
        self.len = 0;
    }

    /// Appends an octet, for which there is room. O(1).
    pub fn push(&mut self, octet: u8)
        requires { array_vec_len self.old < 3400 }
        ensures items { self.new.items ≡ self.old.items ++ octet ∷ [] }
        ensures len { array_vec_len self.new ≡ array_vec_len self.old + 1 }
    {
        put_octet(&mut self.octets, self.len, octet);
        self.len += 1;
    }

    /// Appends all of these octets, or nothing where there is no room for them. O(n).
    pub fn try_extend_from_slice(&mut self, other: &[u8]) -> Result<(), LineFull>
        ensures variant { IsOk result ↔ (array_vec_len self.old + length other.now ≤ 3400) }
        ensures ok { OnOk result (self.new.items ≡ self.old.items ++ other.now) }
        ensures len { OnOk result (array_vec_len self.new ≡ array_vec_len self.old + length other.now) }
        ensures err { OnErr result (self.new ≡ self.old) }
    {
        if JOURNAL_LINE_OCTETS - self.len < other.len() {
            return Err(LineFull);
        }
        put_slice(&mut self.octets, self.len, other);
        self.len += other.len();
        Ok(())
    }

    /// Appends the two digits of each of these octets, for which there is room. O(n).
    pub(crate) fn push_digits(&mut self, octets: &[u8])
        requires { array_vec_len self.old + 2 * length octets.now ≤ 3400 }
        ensures items { self.new.items ≡ self.old.items ++ encode_lower octets.now }
        ensures len { array_vec_len self.new ≡ array_vec_len self.old + 2 * length octets.now }
    {
        put_digits(&mut self.octets, self.len, octets);
        self.len += 2 * octets.len();
    }
}

// Writes an octet at this place.
fn put_octet(buffer: &mut [u8], at: usize, octet: u8)
    requires { at < length buffer.old }
    ensures { take (at + 1) buffer.new ≡ take at buffer.old ++ octet ∷ [] }
{
    buffer[at] = octet;
}

// Writes these octets from this place on.
fn put_slice(buffer: &mut [u8], at: usize, octets: &[u8])
    requires { at + length octets.now ≤ length buffer.old }
    ensures { take (at + length octets.now) buffer.new ≡ take at buffer.old ++ octets.now }
{
    buffer[at..at + octets.len()].copy_from_slice(octets);
}

// Writes the digits of these octets from this place on.
fn put_digits(buffer: &mut [u8], at: usize, octets: &[u8])
    requires { at + 2 * length octets.now ≤ length buffer.old }
    ensures { take (at + 2 * length octets.now) buffer.new ≡ take at buffer.old ++ encode_lower octets.now }
{
    write_digits(octets, &mut buffer[at..at + 2 * octets.len()]);
}
