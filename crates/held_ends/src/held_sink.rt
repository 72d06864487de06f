//! A sink whose write waits.

ghost use Rattle.std.specs.Prelude.{◌≡◌, Some};

use crate::frames::{FIRST_OF_1, FIRST_OF_2, RECORD_OCTETS};
use crate::marks::{LAST_TURN, Marks};
use savi_ends::{MemSink, Put, Sink};
use std::sync::atomic::Ordering;

/// What a write waits for.
#[derive(Clone, Copy)]
pub enum Hold<'a> {
    Nothing,
    /// The sink of port 3 notes that it was given the first frame of port 1, and that of port 2. Its write of the latter
    /// returns only once the pass of port 2's input has come by for its third turn.
    Firsts(&'a Marks),
    /// The sink of control notes that it was given a reply, and that write returns only once the pass of port 1's input has
    /// come by for its third turn.
    Reply(&'a Marks),
    /// The sink of the journal notes that it has taken the line that ends a segment.
    Closed(&'a Marks),
}

/// A sink in memory.
#[derive(Drop)]
pub struct HeldSink<'a> {
    sink: MemSink,
    rt: HostRuntime,
    hold: Hold<'a>,
}

impl<'a> HeldSink<'a> {
    /// The sink, with what was written before.
    pub fn new(rt: HostRuntime, sink: MemSink, hold: Hold<'a>) -> HeldSink<'a>
        ensures { ⟦<HeldSink<'a> as Sink>⟧.faults result ≡ ⟦<MemSink as Sink>⟧.faults sink }
    {
        HeldSink { sink, rt, hold }
    }

    /// What was written.
    pub fn written(&self) -> &[u8]
        ensures { ⟦<HeldSink<'a> as Sink>⟧.written self.now ≡ Some result.now }
    {
        self.sink.written()
    }
}

impl<'a> Sink for HeldSink<'a> {
    ghost written = { λ s. ⟦<MemSink as Sink>⟧.written s.sink };

    ghost faults = { λ s. ⟦<MemSink as Sink>⟧.faults s.sink };

    fn faults(&self) -> u64 {
        self.sink.faults()
    }

    fn write(&mut self, piece: &[u8]) -> Put {
        match self.hold {
            Hold::Firsts(marks) => note_firsts(self.rt, marks, piece),
            Hold::Reply(marks) => {
                marks.replied.store(1, Ordering::SeqCst);
                marks.wait_for(self.rt, &marks.turn_of_1, LAST_TURN);
            }
            Hold::Nothing | Hold::Closed(_) => {}
        }
        let put = self.sink.write(piece);
        match self.hold {
            Hold::Closed(marks) if has_end(piece) => marks.closed.store(1, Ordering::SeqCst),
            Hold::Nothing | Hold::Firsts(_) | Hold::Reply(_) | Hold::Closed(_) => {}
        }
        put
    }
}

// Whether the last line of this piece ends a segment.
fn has_end(piece: &[u8]) -> bool {
    match str::from_utf8(piece) {
        Ok(text) => text.contains("\nend "),
        Err(_) => false,
    }
}

// Notes which of the ports' first frames are among these records, and waits where that of port 2 is.
fn note_firsts(rt: HostRuntime, marks: &Marks, records: &[u8]) {
    if has(records, FIRST_OF_1.as_slice()) {
        marks.given_of_1.store(1, Ordering::SeqCst);
    }
    if has(records, FIRST_OF_2.as_slice()) {
        marks.given.store(1, Ordering::SeqCst);
        marks.wait_for(rt, &marks.turn_of_2, LAST_TURN);
    }
}

// Whether this is one of these records.
fn has(records: &[u8], wanted: &[u8]) -> bool {
    for record in records.chunks(RECORD_OCTETS) {
        if record == wanted {
            return true;
        }
    }
    false
}
