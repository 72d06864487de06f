ghost use Rattle.std.specs.Prelude.{◌≡◌, ◌≢◌, ◌≤◌, ◌<◌, ◌↔◌, ℕ, List, [], ◌∷◌, ◌++◌, IsTrue, length};
ghost use Rattle.savi_ends.specs.Octets.{Takes, NothingLeft};
ghost use Rattle.savi_ends.specs.Faults.{Rose};

use savi_ends::{Got, Source};
use std::marker::Model;

/// The most octets that are taken from a source at once.
const PIECE_OCTETS: usize = 512;

/// The next octet of an input.
#[derive(Clone, Copy)]
pub(crate) enum Octet {
    Is(u8),
    /// Nothing is left.
    End,
    /// A read failed.
    Failed,
}

/// Octets that were taken from a source and aren't used yet, seen by contracts as their list.
#[derive(Drop)]
pub(crate) struct Ahead {
    buffer: [u8; PIECE_OCTETS],
    at: usize,
    end: usize,
}

impl Model for Ahead {
    ghost use Rattle.std.specs.Prelude.{ℕ, List, ◌≤◌, take, drop};

    ghost Value = { List ℕ };

    ghost view = { λ a. drop a.at (take a.end a.buffer) };

    ghost invariant = { λ a. (a.at ≤ a.end) × (a.end ≤ 512) };
}

impl Ahead {
    ghost use Rattle.savi_ends.specs.declared.source.Got.TheVariants as got;
    ghost use Rattle.cli_lang.specs.Readers.{longest_piece};
    ghost use Rattle.cli_lang.specs.Takings.{GivesOctet};

    pub fn new() -> Ahead
        ensures { result ≡ [] }
    {
        Ahead {
            buffer: [0; PIECE_OCTETS],
            at: 0,
            end: 0,
        }
    }

    /// How many octets are held: no more than are taken from a source at once.
    pub fn held(&self) -> usize
        ensures count { result ≡ length self.now }
        ensures few { result ≤ longest_piece }
    {
        self.end - self.at
    }

    /// The next octet, from a new piece of the source where none is held.
    pub fn next<S: Source>(&mut self, source: &mut S) -> Octet
        ensures later { S.faults source.old ≤ S.faults source.new }
        ensures cause { result ≡ Octet.Failed → Rose (S.faults source.old) (S.faults source.new) }
        ensures still { result ≢ Octet.Failed → S.faults source.new ≡ S.faults source.old }
        ensures octets { (gave : List ℕ) × Takes (S.left source.old) (S.left source.new) gave × GivesOctet result (self.old ++ gave) self.new (S.left source.new) }
        ensures held { self.old ≢ [] → (source.new ≡ source.old) × ((c : ℕ) × (result ≡ Octet.Is c) × (self.old ≡ c ∷ self.new)) }
    {
        if !self.is_empty() {
            return Octet::Is(self.first());
        }
        match self.refill(source) {
            Got::Bytes(_) => Octet::Is(self.first()),
            Got::End => Octet::End,
            Got::Failed => Octet::Failed,
        }
    }

    fn is_empty(&self) -> bool
        ensures { IsTrue result ↔ (self.now ≡ []) }
    {
        self.at == self.end
    }

    // The first of the octets that are held.
    fn first(&mut self) -> u8
        requires { self.old ≢ [] }
        ensures { self.old ≡ result ∷ self.new }
    {
        let octet = self.buffer[self.at];
        self.at += 1;
        octet
    }

    // Takes a new piece in place of the octets that are held.
    fn refill<S: Source>(&mut self, source: &mut S) -> Got
        ensures later { S.faults source.old ≤ S.faults source.new }
        ensures cause { result ≡ Got.Failed → Rose (S.faults source.old) (S.faults source.new) }
        ensures still { result ≢ Got.Failed → S.faults source.new ≡ S.faults source.old }
        ensures octets { Takes (S.left source.old) (S.left source.new) self.new }
        ensures held { (self.new ≡ []) → (n : ℕ) → result ≢ got.Bytes n }
        ensures end { result ≡ Got.End → NothingLeft (S.left source.new) × (self.new ≡ []) }
        ensures failed { result ≡ Got.Failed → self.new ≡ [] }
    {
        self.at = 0;
        self.end = 0;
        let got = source.read(&mut self.buffer);
        if let Got::Bytes(n) = got {
            self.end = n;
        }
        got
    }
}
