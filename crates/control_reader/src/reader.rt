//! The reader.

ghost use Rattle.std.specs.Prelude.{◌≡◌, ◌≤◌, false, [], ◌∷◌, ◌++◌, length};
ghost use Rattle.intake_ring.specs.Sides.{filler_ring};
ghost use Rattle.cli_lang.specs.Readers.{Running};
ghost use Rattle.control_reader.specs.Heard.{Ended, Said, lines_put, reason_of};

use crate::arrival::{LineArrival, LinesEnd};
use crate::quit::is_quit;
use arrayvec::ArrayVec;
use cli_lang::{LineGot, Lines};
use intake_ring::Filler;
use savi_ends::{Clock, Source};
use savi_kinds::CONTROL_LINE_OCTETS;
use std::sync::Wait;

/// The reader of control: the ends of its input, and the end of the ring at which lines are put. It takes no memory.
#[derive(Drop)]
pub struct LineReader<S, C> {
    pub source: S,
    pub clock: C,
    pub filler: Filler<LineArrival>,
}

// The input of control, with its reader, and room for one line.
#[derive(Drop)]
struct LineInput<S, C> {
    source: S,
    clock: C,
    lines: Lines,
    buf: [u8; CONTROL_LINE_OCTETS],
}

impl<S: Source, C: Clock> LineReader<S, C> {
    ghost use Rattle.control_reader.specs.Readers.{HasFilledLines};

    /// Reads the lines of the input up to its end, or up to the first `quit`, and puts each in their order, with the
    /// clock's reading as its stamp (ms); where it didn't stop behind `quit` it then puts how the input ended: `End`,
    /// `Malformed`, `Overlong`, or `Failed` where a read failed. Where the ring is full, it waits for the other end. O(n)
    /// in the octets of the input.
    pub fn run<R: Wait>(self, rt: &R) -> LineReader<S, C>
        requires { lines_put self.filler ≡ [] }
        ensures { HasFilledLines S.left S.faults C.readings self result }
    {
        let LineReader {
            source,
            clock,
            mut filler,
        } = self;
        let mut input = LineInput::new(source, clock);
        for _ in rt.forever() {
            let goes_on = input.put_next(rt, &mut filler);
            if !goes_on {
                return input.into_reader(filler);
            }
        }
        unreachable!()
    }
}

impl<S, C> LineInput<S, C> {
    // An input of which nothing was read yet.
    fn new(source: S, clock: C) -> LineInput<S, C>
        ensures source { result.source ≡ source }
        ensures clock { result.clock ≡ clock }
        ensures unread { result.lines ≡ Running 0 [] }
    {
        LineInput {
            source,
            clock,
            lines: Lines::new(),
            buf: [0; CONTROL_LINE_OCTETS],
        }
    }

    // The ends, given back with that of the ring.
    fn into_reader(self, filler: Filler<LineArrival>) -> LineReader<S, C>
        ensures source { result.source ≡ self.source }
        ensures clock { result.clock ≡ self.clock }
        ensures filler { result.filler ≡ filler }
    {
        let LineInput {
            source,
            clock,
            lines: _,
            buf: _,
        } = self;
        LineReader {
            source,
            clock,
            filler,
        }
    }
}

impl<S: Source, C: Clock> LineInput<S, C> {
    ghost use Rattle.control_reader.specs.Progress.{GoesOn, GoesOnOrEnds};

    // Reads what comes next and puts it. The answer is whether the reading goes on.
    fn put_next<R: Wait>(&mut self, rt: &R, filler: &mut Filler<LineArrival>) -> bool
        ensures ring { filler_ring filler.new ≡ filler_ring filler.old }
        ensures left { (source : S) (clock : C)
            → GoesOn S.left S.faults C.readings source clock self.old (lines_put filler.old)
            → GoesOnOrEnds S.left S.faults C.readings source clock self.new (lines_put filler.new) result }
    {
        match self
            .lines
            .next(&mut self.source, &mut self.clock, true, &mut self.buf)
        {
            LineGot::Line { stamp, len } => {
                let line = &self.buf[..len as usize];
                put_line(rt, filler, stamp, line);
                !is_quit(line)
            }
            LineGot::End => put_end(rt, filler, LinesEnd::End),
            LineGot::Malformed { at } => put_end(rt, filler, LinesEnd::Malformed(at)),
            LineGot::Overlong { at } => put_end(rt, filler, LinesEnd::Overlong(at)),
            LineGot::Failed => put_end(rt, filler, LinesEnd::Failed),
        }
    }
}

// Puts a line with its stamp.
fn put_line<R: Wait>(rt: &R, filler: &mut Filler<LineArrival>, stamp: u64, line: &[u8])
    requires { length line.now ≤ 120 }
    ensures ring { filler_ring filler.new ≡ filler_ring filler.old }
    ensures put { lines_put filler.new ≡ lines_put filler.old ++ Said (record { stamp = stamp; command = line.now }) ∷ [] }
{
    let mut octets = ArrayVec::new();
    match octets.try_extend_from_slice(line) {
        Ok(()) => {}
        Err(_) => unreachable!(),
    }
    filler.put(rt, LineArrival::Line { stamp, octets });
}

// Puts how the input ended. The answer is that the reading doesn't go on.
fn put_end<R: Wait>(rt: &R, filler: &mut Filler<LineArrival>, how: LinesEnd) -> bool
    ensures ring { filler_ring filler.new ≡ filler_ring filler.old }
    ensures put { lines_put filler.new ≡ lines_put filler.old ++ Ended (reason_of how) ∷ [] }
    ensures over { result ≡ false }
{
    filler.put(rt, LineArrival::End(how));
    false
}
