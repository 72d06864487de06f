ghost use Rattle.std.specs.Prelude.{◌≡◌, ◌≢◌, ◌≤◌, ◌+◌, ◌^◌, ℕ, List, [], IfSome, length};
ghost use Rattle.savi_ends.specs.Octets.{Takes};
ghost use Rattle.savi_ends.specs.Faults.{Rose};

use crate::ahead::Ahead;
use crate::kinds::LineGot;
use crate::taking::{Taken, take_line};
use crate::text::{LAST_PLACE, Said, read_text};
use savi_ends::{Clock, Source};
use savi_kinds::CONTROL_LINE_OCTETS;
use std::marker::Model;

/// A reader of control lines, over any source.
///
/// It takes no memory, reads its source in pieces, and takes each octet once.
#[derive(Drop)]
pub struct Lines {
    state: State,
    ahead: Ahead,
}

// What a reader is ready for.
#[derive(Clone, Copy)]
enum State {
    // The line that begins at this place.
    Running { place: u64 },
    // Nothing: the input ended, is malformed at a place or has too long a line there, or a read failed.
    End,
    Malformed { at: u64 },
    Overlong { at: u64 },
    Failed,
}

impl Model for Lines {
    ghost use Rattle.cli_lang.specs.Readers.{State as Phase, IsPlaced};

    ghost Value = { Phase };

    ghost use Rattle.cli_lang.specs.ReaderStates.{state_of};

    ghost view = { λ r. state_of r.state r.ahead };

    ghost invariant = { λ r. IsPlaced (state_of r.state r.ahead) };
}

impl Lines {
    ghost use Rattle.savi_kinds.specs.declared.entry.How.TheVariants as how;
    ghost use Rattle.cli_lang.specs.Takings.{DecideLine};
    ghost use Rattle.cli_lang.specs.Readers.{Running, Ended, Answers, Stamps, KeepsUnlessLine, last_answer, longest_piece, IsPlaced};

    /// A reader at the beginning of its input.
    pub fn new() -> Lines
        ensures { result ≡ Running 0 [] }
    {
        Lines {
            state: State::Running { place: 0 },
            ahead: Ahead::new(),
        }
    }

    /// Reads the next line, of at most 120 octets, which a line feed or the input's end ends.
    ///
    /// The command is the first `len` octets of the buffer. Where the input is live, the line is the command, and its
    /// stamp (ms) is a reading of the clock, taken when the line is whole. Else it is a stamp in decimal without a leading
    /// zero, one space, and the command; any other line is `Malformed` at its place, and so is one that ends past place
    /// 2^62. A line of more than 120 octets is `Overlong` at its place. `Failed` comes only where a read failed in this
    /// call, in a line that isn't whole. Where there is no line the buffer stays as it was. After `End`, `Malformed`,
    /// `Overlong` or `Failed` the reader reads nothing and answers the same again.
    ///
    /// O(n) in the octets of the line.
    pub fn next<S: Source, C: Clock>(
        &mut self,
        source: &mut S,
        clock: &mut C,
        live: bool,
        buf: &mut [u8; CONTROL_LINE_OCTETS],
    ) -> LineGot
        ensures later { S.faults source.old ≤ S.faults source.new }
        ensures cause { result ≡ LineGot.Failed → self.old ≢ Ended how.Failed → Rose (S.faults source.old) (S.faults source.new) }
        ensures still { result ≢ LineGot.Failed → S.faults source.new ≡ S.faults source.old }

        // There are octets that the source gave in this call, and the answer is what they are behind those that were held.
        ensures octets { (gave : List ℕ) × Takes (S.left source.old) (S.left source.new) gave × Answers live self.old self.new gave buf.new (S.left source.new) result }

        // Nothing is read where the octets that are held decide the line.
        ensures unread { (place : ℕ) (held : List ℕ) → self.old ≡ Running place held → DecideLine held → source.new ≡ source.old }

        // A reader that has ended reads nothing and answers the same.
        ensures again { IfSome (last_answer self.old) (λ answer. (result ≡ answer) × (self.new ≡ self.old) × (source.new ≡ source.old) × (buf.new ≡ buf.old)) }
        ensures kept { KeepsUnlessLine result buf.old buf.new }
        ensures stamps { Stamps C.readings live clock.old clock.new result }
        ensures placed { IsPlaced self.new }
    {
        match self.state {
            State::Running { place } => self.read_at(source, clock, live, place, buf),
            State::End => LineGot::End,
            State::Malformed { at } => LineGot::Malformed { at },
            State::Overlong { at } => LineGot::Overlong { at },
            State::Failed => LineGot::Failed,
        }
    }

    // Reads the line that begins at this place, and stands behind it.
    fn read_at<S: Source, C: Clock>(
        &mut self,
        source: &mut S,
        clock: &mut C,
        live: bool,
        place: u64,
        buf: &mut [u8; CONTROL_LINE_OCTETS],
    ) -> LineGot
        requires placed { place ≤ 2 ^ 62 }
        requires running { (held : List ℕ) × (self.old ≡ Running place held) }
        ensures unread { (at : ℕ) (held : List ℕ) → self.old ≡ Running at held → DecideLine held → source.new ≡ source.old }
        ensures later { S.faults source.old ≤ S.faults source.new }
        ensures cause { result ≡ LineGot.Failed → Rose (S.faults source.old) (S.faults source.new) }
        ensures still { result ≢ LineGot.Failed → S.faults source.new ≡ S.faults source.old }
        ensures octets { (gave : List ℕ) × Takes (S.left source.old) (S.left source.new) gave × Answers live self.old self.new gave buf.new (S.left source.new) result }
        ensures kept { KeepsUnlessLine result buf.old buf.new }
        ensures stamps { Stamps C.readings live clock.old clock.new result }
        ensures placed { IsPlaced self.new }
    {
        let mut line = [0; CONTROL_LINE_OCTETS];
        match take_line(&mut self.ahead, source, &mut line) {
            Taken::Whole(n) => {
                let end = place + n as u64 + 1;
                match read_text(&line[..n], end, live, clock, buf) {
                    Some(Said { stamp, len }) => {
                        self.state = State::Running { place: end };
                        LineGot::Line { stamp, len }
                    }
                    None => self.malformed(place),
                }
            }
            Taken::Last(0) => {
                self.state = State::End;
                LineGot::End
            }
            Taken::Last(n) => match read_text(&line[..n], place + n as u64, live, clock, buf) {
                Some(Said { stamp, len }) => {
                    self.state = State::End;
                    LineGot::Line { stamp, len }
                }
                None => self.malformed(place),
            },
            Taken::Long => {
                if place + CONTROL_LINE_OCTETS as u64 + 1 > LAST_PLACE {
                    return self.malformed(place);
                }
                // for the contract: no more is held than one piece
                self.ahead.held();
                self.state = State::Overlong { at: place };
                LineGot::Overlong { at: place }
            }
            Taken::Failed => {
                self.state = State::Failed;
                LineGot::Failed
            }
        }
    }

    // The line at this place is malformed. No more is held than one piece.
    fn malformed(&mut self, place: u64) -> LineGot
        ensures answer { result ≡ LineGot.Malformed place }
        ensures state { self.new ≡ Ended (how.Malformed place) }
        ensures few { (at : ℕ) (held : List ℕ) → self.old ≡ Running at held → length held ≤ longest_piece }
    {
        self.ahead.held();
        self.state = State::Malformed { at: place };
        LineGot::Malformed { at: place }
    }
}
