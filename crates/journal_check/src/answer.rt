//! What a check answers.

ghost use Rattle.std.specs.Prelude.{◌≡◌, ◌≤◌, length};

use arrayvec::ArrayString;
use std::marker::Model;
use std::str;

/// The most octets of a field that is computed.
pub const FIELD_OCTETS: usize = 64;

/// The text of a field of a line, seen by contracts as the list of its octets.
#[derive(Drop)]
pub struct FieldText {
    inner: ArrayString<FIELD_OCTETS>,
}

impl Model for FieldText {
    ghost use Rattle.std.specs.Prelude.{List, ℕ};

    ghost Value = { List ℕ };

    ghost view = { λ t. t.inner.bytes };
}

impl FieldText {
    ghost use Rattle.journal_check.specs.Differing.{IsField};

    /// The text of a field of at most 64 characters, each of one octet. Other octets have any text.
    pub fn of(field: &[u8]) -> FieldText
        ensures { IsField field.now → result ≡ field.now }
    {
        match str::from_utf8(field) {
            Ok(text) => FieldText::of_text(text),
            Err(_) => FieldText {
                inner: ArrayString::new(),
            },
        }
    }

    // A longer text has any other.
    fn of_text(text: &str) -> FieldText
        ensures { length text.now ≤ 64 → result ≡ text.now }
    {
        match ArrayString::from(text) {
            Ok(inner) => FieldText { inner },
            Err(_) => FieldText {
                inner: ArrayString::new(),
            },
        }
    }

    pub fn as_str(&self) -> &str
        ensures text { result.now ≡ self.now }
        ensures short { length result.now ≤ 64 }
    {
        self.inner.as_str()
    }
}

/// What a text is, that was checked as a journal.
#[derive(Drop)]
pub enum Checked {
    /// The journal of a finished history with so many entries.
    Good {
        entries: u64,
    },
    /// The entry of this number is the first that can't stand. `want` is the field that would stand there and `have` the one
    /// that does; `want` is `none` where no such entry may come, and `have` is then the letter of the entry.
    Wrong {
        entry: u64,
        want: FieldText,
        have: FieldText,
    },
    /// The line of this number, counted from 1, is the first that may not stand in a journal there, or is missing.
    BadLine {
        n: u64,
    },
    /// A read failed.
    Failed,
    /// There was no memory, before the first entry was judged.
    NoMemory,
}

/// What a text is, once there is memory to judge it.
#[derive(Drop)]
pub(crate) enum Judged {
    Good {
        entries: u64,
    },
    Wrong {
        entry: u64,
        want: FieldText,
        have: FieldText,
    },
    BadLine {
        n: u64,
    },
    /// A read failed.
    Failed,
}

impl Judged {
    ghost use Rattle.journal_check.specs.Judging.{checked_of};

    /// The answer of the check.
    pub fn checked(self) -> Checked
        ensures { result ≡ checked_of self }
    {
        match self {
            Judged::Good { entries } => Checked::Good { entries },
            Judged::Wrong { entry, want, have } => Checked::Wrong { entry, want, have },
            Judged::BadLine { n } => Checked::BadLine { n },
            Judged::Failed => Checked::Failed,
        }
    }
}
