//! Lines on their way to a sink.

ghost use Rattle.std.specs.Prelude.{◌≡◌, [], false};

use arrayvec::ArrayVec;
use savi_ends::{Put, Sink};

/// The most octets of the pieces in which lines are written, and of a line.
pub const PIECE_OCTETS: usize = 4_096;

/// Lines on their way to a sink, which takes them in pieces of whole lines. Where a write failed nothing more is written.
/// It takes no memory.
#[derive(Drop)]
pub struct Printer<K> {
    sink: K,
    waits: ArrayVec<u8, PIECE_OCTETS>,
    failed: bool,
}

impl<K> Printer<K> {
    /// A printer for this sink, for which nothing waits.
    pub fn new(sink: K) -> Printer<K>
        ensures sink { result.sink ≡ sink }
        ensures waits { result.waits.items ≡ [] }
        ensures failed { result.failed ≡ false }
    {
        Printer {
            sink,
            waits: ArrayVec::new(),
            failed: false,
        }
    }

    /// The sink, given back, and whether a write of it failed.
    pub fn into_parts(self) -> (K, bool)
        ensures sink { result.0 ≡ self.sink }
        ensures failed { result.1 ≡ self.failed }
    {
        let Printer {
            sink,
            waits: _,
            failed,
        } = self;
        (sink, failed)
    }
}

impl<K: Sink> Printer<K> {
    ghost use Rattle.std.specs.Prelude.{◌≡◌, ◌≤◌, ◌+◌, ◌++◌, [], ℕ, List, length};
    ghost use Rattle.arrayvec.specs.ArrayVec.{array_vec_len};
    ghost use Rattle.journal_write.specs.Written.{WasGiven};
    ghost use Rattle.audit_run.specs.Printed.{HasPrinted};

    /// Puts a line, or none, behind those before it. Where there is no room for it, what waits is written first. O(n) in its
    /// octets.
    pub fn put(&mut self, line: &[u8])
        requires { length line.now ≤ PIECE_OCTETS }
        ensures text { (first : K) (text : List ℕ) → HasPrinted K.written K.faults first self.old text → HasPrinted K.written K.faults first self.new (text ++ line.now) }
        ensures none { line.now ≡ [] → self.old.waits.items ≡ [] → (self.new.sink ≡ self.old.sink) × (self.new.waits.items ≡ []) }
    {
        self.make_room(line.len());
        self.add(line);
    }

    /// Writes what waits, where something does and no write failed before. Then nothing waits.
    pub fn settle(&mut self)
        ensures waits { self.new.waits.items ≡ [] }
        ensures text { (first : K) (text : List ℕ) → HasPrinted K.written K.faults first self.old text → HasPrinted K.written K.faults first self.new text }
        ensures none { self.old.waits.items ≡ [] → self.new.sink ≡ self.old.sink }
    {
        self.write_waiting();
        self.waits.clear();
    }

    // Makes room for so many octets: where there is none, what waits is written.
    fn make_room(&mut self, octets: usize)
        requires { octets ≤ PIECE_OCTETS }
        ensures room { array_vec_len self.new.waits + octets ≤ PIECE_OCTETS }
        ensures text { (first : K) (text : List ℕ) → HasPrinted K.written K.faults first self.old text → HasPrinted K.written K.faults first self.new text }
        ensures none { self.old.waits.items ≡ [] → (self.new.sink ≡ self.old.sink) × (self.new.waits.items ≡ []) }
    {
        if octets > self.waits.remaining_capacity() {
            self.settle();
        }
    }

    // Adds a line for which there is room.
    fn add(&mut self, line: &[u8])
        requires { array_vec_len self.old.waits + length line.now ≤ PIECE_OCTETS }
        ensures rest { self.new ≡ record self.old { waits = self.new.waits } }
        ensures items { self.new.waits.items ≡ self.old.waits.items ++ line.now }
    {
        match self.waits.try_extend_from_slice(line) {
            Ok(()) => {}
            Err(_) => unreachable!(),
        }
    }

    // Writes what waits, where something does and no write failed before.
    fn write_waiting(&mut self)
        ensures text { (first : K) (text : List ℕ) → HasPrinted K.written K.faults first self.old text → WasGiven K.written K.faults first self.new.sink [] self.new.failed text }
        ensures none { self.old.waits.items ≡ [] → self.new.sink ≡ self.old.sink }
    {
        if self.failed {
            return;
        }
        if self.waits.is_empty() {
            return;
        }
        match self.sink.write(self.waits.as_slice()) {
            Put::Done => {}
            Put::Failed => self.failed = true,
        }
    }
}
