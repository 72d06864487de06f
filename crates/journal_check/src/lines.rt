//! The lines of a text that a source gives up in pieces.

ghost use Rattle.std.specs.Prelude.{◌≤◌, ◌^◌};

use crate::feeds::line_front;
use hist_store::JournalLine;
use savi_ends::{Got, Source};

/// How many octets are read at once, at most.
const PIECE_OCTETS: usize = 16_384;

/// The place at which a line that is taken ends, at most, counted from the first octet of the text on.
const LAST_PLACE: u64 = 1 << 62;

/// A text, of which a piece is held.
#[derive(Drop)]
pub struct Lines {
    piece: [u8; PIECE_OCTETS],
    // where what is held begins in the piece, and where it ends
    at: usize,
    end: usize,
    // how many octets of the text the lines that were taken have
    place: u64,
    ghost within: { at ≤ end },
    ghost room: { end ≤ 16384 },
    ghost placed: { place ≤ 2 ^ 62 },
}

/// What came of taking a line.
#[derive(Clone, Copy, PartialEq, Eq, Debug)]
pub enum Taken {
    /// The line that was taken, without its line feed.
    Line,
    /// No line: the text ends before a line feed, or has too many octets before it, or the line ends behind the last place.
    Broken,
    /// A read failed.
    Failed,
}

/// What is behind the last line.
#[derive(Clone, Copy, PartialEq, Eq, Debug)]
pub enum Behind {
    Nothing,
    More,
    Failed,
}

// What was found in the piece.
#[derive(Clone, Copy, PartialEq, Eq, Debug)]
enum Cut {
    // The end of the line.
    Whole,
    // Octets of the line, and not its end.
    Part,
    // More octets than a line may have.
    Long,
}

impl Lines {
    ghost use Rattle.std.specs.Prelude.{◌≡◌, ◌≢◌, ◌+◌, ◌^◌, ◌<◌, ◌≤◌, [], length};
    ghost use Rattle.savi_ends.specs.Octets.{NothingLeft};
    ghost use Rattle.savi_ends.specs.Faults.{Rose};
    ghost use Rattle.journal_check.specs.Pieces.{Cuts, GaveSome, HasPassed, TookLine, held_octets, to_come, octets_ahead};

    /// A text of which nothing was read yet.
    pub fn new() -> Lines
        ensures held { held_octets result ≡ [] }
        ensures place { result.place ≡ 0 }
    {
        Lines {
            piece: [0; PIECE_OCTETS],
            at: 0,
            end: 0,
            place: 0,
        }
    }

    /// Takes the next line, in place of what the buffer held. It costs the octets of the line, beside those of the
    /// pieces that are read.
    pub fn next<S: Source>(&mut self, source: &mut S, line: &mut JournalLine) -> Taken
        ensures later { S.faults source.old ≤ S.faults source.new }
        ensures cause { result ≡ Taken.Failed → Rose (S.faults source.old) (S.faults source.new) }
        ensures still { result ≢ Taken.Failed → S.faults source.new ≡ S.faults source.old }
        ensures gave { GaveSome (S.left source.old) (S.left source.new) }
        ensures taken { TookLine result line.new.items (to_come self.old (S.left source.old)) (to_come self.new (S.left source.new)) }
        ensures passed { result ≡ Taken.Line → HasPassed self.old (S.left source.old) self.new (S.left source.new) }
        ensures further { result ≡ Taken.Line → self.old.place < self.new.place }
    {
        line.clear();
        'pieces: loop {
            match self.fill(source) {
                Behind::More => {}
                Behind::Nothing => return Taken::Broken,
                Behind::Failed => return Taken::Failed,
            }
            match self.cut(line) {
                Cut::Part => {}
                Cut::Whole => return self.pass(line.len()),
                Cut::Long => return Taken::Broken,
            }
        }
    }

    /// Sees whether anything is left. Where nothing is held, a piece is read.
    pub fn fill<S: Source>(&mut self, source: &mut S) -> Behind
        ensures later { S.faults source.old ≤ S.faults source.new }
        ensures cause { result ≡ Behind.Failed → Rose (S.faults source.old) (S.faults source.new) }
        ensures still { result ≢ Behind.Failed → S.faults source.new ≡ S.faults source.old }
        ensures gave { GaveSome (S.left source.old) (S.left source.new) }
        ensures same { octets_ahead self.new (S.left source.new) ≡ octets_ahead self.old (S.left source.old) }
        ensures place { self.new.place ≡ self.old.place }
        ensures more { result ≡ Behind.More → self.new.at < self.new.end }
        ensures some { result ≡ Behind.More → 0 < length (held_octets self.new) }
        ensures nothing { result ≡ Behind.Nothing → NothingLeft (octets_ahead self.old (S.left source.old)) }
    {
        if self.at < self.end {
            return Behind::More;
        }
        match source.read(&mut self.piece) {
            Got::Bytes(n) => {
                self.at = 0;
                self.end = n;
                Behind::More
            }
            Got::End => Behind::Nothing,
            Got::Failed => Behind::Failed,
        }
    }

    // Moves what is held behind what the buffer holds, up to a line feed, which is passed over.
    fn cut(&mut self, line: &mut JournalLine) -> Cut
        requires { self.old.at < self.old.end }
        ensures cut { Cuts result self.old self.new line.old.items line.new.items }
        ensures place { self.new.place ≡ self.old.place }
    {
        let held = &self.piece[self.at..self.end];
        let part = line_front(held);
        let len = part.len();
        let size = held.len();
        match line.try_extend_from_slice(part) {
            Ok(()) => {}
            Err(_) => return Cut::Long,
        }
        if len < size {
            self.at += len + 1;
            Cut::Whole
        } else {
            self.at += len;
            Cut::Part
        }
    }

    // Passes a line of so many octets and its line feed, if it doesn't end behind the last place.
    fn pass(&mut self, octets: usize) -> Taken
        requires { octets ≤ 3400 }
        ensures same { held_octets self.new ≡ held_octets self.old }
        ensures line { result ≡ Taken.Line → self.new.place ≡ self.old.place + octets + 1 }
        ensures broken { result ≡ Taken.Broken → 2 ^ 62 < self.old.place + octets + 1 }
        ensures never { result ≢ Taken.Failed }
    {
        let end = self.place + octets as u64 + 1;
        if end > LAST_PLACE {
            return Taken::Broken;
        }
        self.place = end;
        Taken::Line
    }
}
