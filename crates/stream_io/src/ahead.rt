ghost use Rattle.std.specs.Prelude.{◌≡◌, ◌≢◌, ◌≤◌, ℕ, List, [], ◌++◌, length, take, drop, min};
ghost use Rattle.savi_ends.specs.Octets.{Takes};
ghost use Rattle.savi_ends.specs.Faults.{Rose};
ghost use Rattle.stream_io.specs.Readers.{longest_piece};
ghost use Rattle.stream_io.specs.Takings.{HoldsAhead, FillsFrom, PassesOver};

use savi_ends::{Filled, Got, Source};
use std::marker::Model;

/// The most octets that are taken from a source at once.
const PIECE_OCTETS: usize = 4_096;

/// Octets that were taken from a source and aren't used yet, seen by contracts as their list.
#[derive(Drop)]
pub(crate) struct Ahead {
    buffer: [u8; PIECE_OCTETS],
    at: usize,
    end: usize,
}

impl Model for Ahead {
    ghost use Rattle.std.specs.Prelude.{ℕ, List, ◌≤◌, take, drop};

    ghost Value = { List ℕ };

    ghost view = { λ a. drop a.at (take a.end a.buffer) };

    ghost invariant = { λ a. (a.at ≤ a.end) × (a.end ≤ 4096) };
}

impl Ahead {
    pub fn new() -> Ahead
        ensures { result ≡ [] }
    {
        Ahead {
            buffer: [0; PIECE_OCTETS],
            at: 0,
            end: 0,
        }
    }

    /// How many octets are held: no more than are taken from a source at once.
    pub fn held(&self) -> usize
        ensures count { result ≡ length self.now }
        ensures few { result ≤ longest_piece }
    {
        self.end - self.at
    }

    /// Fills a buffer, and reads the source only where no octet is held. O(n) in the octets of the buffer.
    pub fn fill<S: Source>(&mut self, source: &mut S, buf: &mut [u8]) -> Filled
        ensures later { S.faults source.old ≤ S.faults source.new }
        ensures cause { result ≡ Filled.Failed → Rose (S.faults source.old) (S.faults source.new) }
        ensures still { result ≢ Filled.Failed → S.faults source.new ≡ S.faults source.old }
        ensures octets { (gave : List ℕ) × Takes (S.left source.old) (S.left source.new) gave × FillsFrom result buf.new (self.old ++ gave) self.new (S.left source.new) }
        ensures unread { length buf.old ≤ length self.old → (source.new ≡ source.old) × (self.old ≡ buf.new ++ self.new) }
    {
        let mut at = 0;
        while at < buf.len() {
            match self.hold(source) {
                Got::Bytes(_) => at += self.move_to(&mut buf[at..]),
                Got::End => return Filled::Short(at),
                Got::Failed => return Filled::Failed,
            }
        }
        Filled::Whole
    }

    /// Passes over so many octets, and reads the source only where no octet is held. O(n) in the pieces that are read.
    pub fn pass_over<S: Source>(&mut self, source: &mut S, len: usize) -> Filled
        ensures later { S.faults source.old ≤ S.faults source.new }
        ensures cause { result ≡ Filled.Failed → Rose (S.faults source.old) (S.faults source.new) }
        ensures still { result ≢ Filled.Failed → S.faults source.new ≡ S.faults source.old }
        ensures octets { (gave : List ℕ) × Takes (S.left source.old) (S.left source.new) gave × PassesOver result len (self.old ++ gave) self.new (S.left source.new) }
        ensures unread { len ≤ length self.old → source.new ≡ source.old }
    {
        let mut missing = len;
        while missing > 0 {
            match self.hold(source) {
                Got::Bytes(held) => {
                    let n = held.min(missing);
                    self.skip(n);
                    missing -= n;
                }
                Got::End => return Filled::Short(len - missing),
                Got::Failed => return Filled::Failed,
            }
        }
        Filled::Whole
    }

    // Sees to it that octets are held: takes a new piece of the source where none are.
    fn hold<S: Source>(&mut self, source: &mut S) -> Got
        ensures later { S.faults source.old ≤ S.faults source.new }
        ensures cause { result ≡ Got.Failed → Rose (S.faults source.old) (S.faults source.new) }
        ensures still { result ≢ Got.Failed → S.faults source.new ≡ S.faults source.old }
        ensures octets { (gave : List ℕ) × Takes (S.left source.old) (S.left source.new) gave × (self.new ≡ self.old ++ gave) }
        ensures holds { HoldsAhead result self.new (S.left source.new) }
        ensures unread { self.old ≢ [] → (source.new ≡ source.old) × (self.new ≡ self.old) }
    {
        if self.at < self.end {
            return Got::Bytes(self.end - self.at);
        }
        self.at = 0;
        self.end = 0;
        let got = source.read(&mut self.buffer);
        if let Got::Bytes(n) = got {
            self.end = n;
        }
        got
    }

    // Moves as many octets as are held, and as there is room for, to the front of a buffer.
    fn move_to(&mut self, buf: &mut [u8]) -> usize
        ensures count { result ≡ min (length self.old) (length buf.old) }
        ensures octets { self.old ≡ take result buf.new ++ self.new }
    {
        let n = (self.end - self.at).min(buf.len());
        buf[..n].copy_from_slice(&self.buffer[self.at..self.at + n]);
        self.at += n;
        n
    }

    // Lets go of so many of the octets that are held.
    fn skip(&mut self, n: usize)
        requires { n ≤ length self.old }
        ensures { self.new ≡ drop n self.old }
    {
        self.at += n;
    }
}
