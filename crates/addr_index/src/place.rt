//! A place of the index.

ghost use Rattle.std.specs.Prelude.{◌≡◌, Some, None};

use crate::entry::Entry;
use std::marker::Model;

/// A place, which has an entry or none. It takes 24 octets, with the address as two halves, so that a search touches few
/// lines of a processor's cache; an `Option<Entry>` takes 48.
#[derive(Drop)]
pub(crate) struct Place {
    high: u64,
    low: u64,
    key: u32,
    is_taken: bool,
}

impl Model for Place {
    ghost use Rattle.std.specs.Prelude.{Option};
    ghost use Rattle.addr_index.specs.declared.entry.Entry.{Entry};
    ghost use Rattle.addr_index.specs.Places.{entry_if};

    ghost Value = { Option Entry };

    ghost view = { λ p. entry_if p.is_taken p.high p.low p.key };
}

impl Place {
    // A place without an entry.
    #[inline(always)]
    pub(crate) fn empty() -> Place
        ensures { result ≡ None }
    {
        Place {
            high: 0,
            low: 0,
            key: 0,
            is_taken: false,
        }
    }

    // The place of an entry.
    #[inline(always)]
    pub(crate) fn of(entry: Entry) -> Place
        ensures { result ≡ Some entry }
    {
        Place {
            high: (entry.address >> 64) as u64,
            low: (entry.address % (1 << 64)) as u64,
            key: entry.key,
            is_taken: true,
        }
    }

    // What it has.
    #[inline(always)]
    pub(crate) fn entry(&self) -> Option<Entry>
        ensures { result ≡ self.now }
    {
        if self.is_taken {
            Some(Entry {
                address: u128::from(self.high) * (1 << 64) + u128::from(self.low),
                key: self.key,
            })
        } else {
            None
        }
    }
}
