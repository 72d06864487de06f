//! A journal while it is written.

ghost use Rattle.std.specs.Prelude.{All};
ghost use Rattle.savi_kinds.specs.Prefixes.{first_of};
ghost use Rattle.savi_kinds.specs.ValidPlan.{nets_of};
ghost use Rattle.savi_history.specs.Journals.{IsAddress};

use crate::buffer::Buffer;
use hist_store::{Hist, JournalLine, put_begin, put_end, put_header, put_line};
use savi_core::Core;
use savi_ends::{Put, Sink};
use savi_kinds::{Plan, PrefixPlan};

/// A journal (`docs/FORMATS.md`) while it is written: its sink, what waits for it, and whether a write of it failed.
#[derive(Drop)]
pub struct Journal<K> {
    sink: K,
    buffer: Buffer,
    failed: bool,
}

impl<K> Journal<K> {
    ghost use Rattle.std.specs.Prelude.{◌≡◌, ◌≤◌, [], false};

    /// A journal of which nothing was written yet, for this sink and by this buffer, in which nothing waits and which has room for
    /// the longest line.
    pub fn new(sink: K, buffer: Buffer) -> Journal<K>
        ensures { result ≡ record { sink = sink; buffer = buffer; failed = false } }
    {
        Journal {
            sink,
            buffer,
            failed: false,
        }
    }

    /// The sink, given back, and whether a write of it failed.
    pub fn into_parts(self) -> (K, bool)
        ensures sink { result.0 ≡ self.sink }
        ensures failed { result.1 ≡ self.failed }
    {
        let Journal {
            sink,
            buffer: _,
            failed,
        } = self;
        (sink, failed)
    }
}

impl<K: Sink> Journal<K> {
    ghost use Rattle.std.specs.Prelude.{◌≡◌, ◌≤◌, ◌++◌, ◌∷◌, [], ℕ, List, length, All};
    ghost use Rattle.savi_kinds.specs.declared.plan.Plan.{Plan};
    ghost use Rattle.savi_kinds.specs.ValidPlan.{IsValidPlan};
    ghost use Rattle.hist_store.specs.Rows.{Row};
    ghost use Rattle.hist_store.specs.LineTexts.{FitsLine};
    ghost use Rattle.hist_store.specs.TextOfLines.{lines_text};
    ghost use Rattle.hist_store.specs.JournalTexts.{entry_lines};
    ghost use Rattle.checkpoint.specs.BaseLines.{base_lines};
    ghost use Rattle.savi_segments.specs.Segments.{base_after};
    ghost use Rattle.savi_segments.specs.Journals.{journal_of};
    ghost use Rattle.savi_core.specs.Machines.{base_of};
    ghost use Rattle.journal_write.specs.Written.{HasText, IsSettled};

    /// Puts the header of a plan, behind which no segment stands yet, and writes it at once: so a run that is killed in its
    /// first segment leaves no journal of the run before. O(ports + prefixes).
    pub fn begin(&mut self, plan: &Plan)
        requires valid { IsValidPlan plan.now }
        requires room { 3401 ≤ self.old.buffer.room }
        ensures room { self.new.buffer.room ≡ self.old.buffer.room }
        ensures settled { IsSettled self.new }
        ensures begun { (first : K) → HasText K.written K.faults first self.old [] → HasText K.written K.faults first self.new (journal_of plan.now []) }
    {
        let mut line = JournalLine::new();
        put_header(plan, &mut line);
        self.begin_with(line.as_slice());
    }

    /// Does the same with the text of the header, which was made before (`put_header`). O(n) in its octets.
    pub fn begin_with(&mut self, header: &[u8])
        requires short { length header.now ≤ self.old.buffer.room }
        ensures room { self.new.buffer.room ≡ self.old.buffer.room }
        ensures settled { IsSettled self.new }
        ensures begun { (first : K) (plan : Plan) → header.now ≡ journal_of plan [] → HasText K.written K.faults first self.old [] → HasText K.written K.faults first self.new (journal_of plan []) }
    {
        self.put_at_once(header);
    }

    /// Puts the history of a switch as one more segment, behind the segments that left what it goes on from, and writes all that
    /// waits. O(n) in the octets of the segment's lines; it takes no memory.
    pub fn close(&mut self, core: &Core)
        requires room { 3401 ≤ self.old.buffer.room }
        ensures room { self.new.buffer.room ≡ self.old.buffer.room }
        ensures settled { IsSettled self.new }
        ensures closed { (first : K) (before : List (List Row)) → base_of core.now ≡ base_after core.now.plan before
            → HasText K.written K.faults first self.old (journal_of core.now.plan before)
            → HasText K.written K.faults first self.new (journal_of core.now.plan (core.now.past ∷ before)) }
    {
        let mut line = JournalLine::new();
        self.put_base_lines(core, &mut line);
        put_begin(&mut line);
        self.put(line.as_slice());
        self.put_entries(core.history(), &mut line);
        put_end(core.len(), &mut line);
        self.put_at_once(line.as_slice());
    }

    // Puts the lines of what the history of a switch goes on from.
    fn put_base_lines(&mut self, core: &Core, line: &mut JournalLine)
        requires room { 3401 ≤ self.old.buffer.room }
        ensures room { self.new.buffer.room ≡ self.old.buffer.room }
        ensures text { (first : K) (text : List ℕ) → HasText K.written K.faults first self.old text
            → HasText K.written K.faults first self.new (text ++ lines_text (base_lines core.now.plan (base_of core.now))) }
    {
        let mut i = 0;
        while core.put_base(i, line) {
            self.put(line.as_slice());
            self.put(b"\n");
            i += 1;
        }
    }

    // Puts the lines of the entries.
    fn put_entries(&mut self, hist: &Hist, line: &mut JournalLine)
        requires rows { All FitsLine hist.now.rows }
        requires room { 3401 ≤ self.old.buffer.room }
        ensures room { self.new.buffer.room ≡ self.old.buffer.room }
        ensures text { (first : K) (text : List ℕ) → HasText K.written K.faults first self.old text
            → HasText K.written K.faults first self.new (text ++ lines_text (entry_lines 0 hist.now.rows)) }
    {
        for n in 0..hist.len() {
            let entry = hist.entry(n);
            put_line(n, &entry, hist.octets(n), line);
            line.push(b'\n');
            self.put(line.as_slice());
        }
    }

    // Puts a piece, and writes it with all that waits.
    fn put_at_once(&mut self, piece: &[u8])
        requires { length piece.now ≤ self.old.buffer.room }
        ensures room { self.new.buffer.room ≡ self.old.buffer.room }
        ensures settled { IsSettled self.new }
        ensures text { (first : K) (text : List ℕ) → HasText K.written K.faults first self.old text → HasText K.written K.faults first self.new (text ++ piece.now) }
    {
        self.put(piece);
        self.settle();
    }

    // Puts a piece, unless a write failed before.
    fn put(&mut self, piece: &[u8])
        requires { length piece.now ≤ self.old.buffer.room }
        ensures room { self.new.buffer.room ≡ self.old.buffer.room }
        ensures text { (first : K) (text : List ℕ) → HasText K.written K.faults first self.old text → HasText K.written K.faults first self.new (text ++ piece.now) }
    {
        if self.failed {
            return;
        }
        match self.buffer.put(&mut self.sink, piece) {
            Put::Done => {}
            Put::Failed => self.failed = true,
        }
    }

    // Writes all that waits, unless a write failed before.
    fn settle(&mut self)
        ensures room { self.new.buffer.room ≡ self.old.buffer.room }
        ensures settled { IsSettled self.new }
        ensures text { (first : K) (text : List ℕ) → HasText K.written K.faults first self.old text → HasText K.written K.faults first self.new text }
    {
        if self.failed {
            return;
        }
        match self.buffer.flush(&mut self.sink) {
            Put::Done => {}
            Put::Failed => self.failed = true,
        }
    }
}

/// Does nothing: states what the type of the addresses of prefixes says, as the law on journals asks. O(prefixes), at most 32.
pub fn know_addresses(prefixes: &[PrefixPlan])
    ensures { All (λ net. IsAddress (first_of net)) (nets_of prefixes.now) }
{
    for plan in prefixes {
        know_address(plan.prefix.net.0);
    }
}

// Does nothing: states for a proof what the type of an address says.
fn know_address(address: u128)
    ensures { IsAddress address }
{}
