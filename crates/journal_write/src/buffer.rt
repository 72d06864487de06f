//! Octets on their way to a sink, which takes them in large pieces.

use savi_ends::{Put, Sink};
use std::alloc::{AllocError, Global};
use std::marker::Model;

/// The octets of the pieces in which a journal is written.
pub const JOURNAL_PIECE_OCTETS: usize = 131_072;

/// What waits for a sink. It takes no memory after its making.
#[derive(Drop)]
pub struct Buffer {
    octets: Vec<u8>,
    room: usize,
}

impl Model for Buffer {
    ghost use Rattle.std.specs.Prelude.{◌≤◌, vec_len, vec_capacity};
    ghost use Rattle.journal_write.specs.Buffers.{Buffered};

    ghost Value = { Buffered };

    ghost view = { λ b. record { octets = b.octets.items; room = b.room } };

    ghost invariant = { λ b. (b.room ≤ vec_capacity b.octets) × (vec_len b.octets ≤ b.room) };
}

impl Buffer {
    ghost use Rattle.std.specs.Prelude.{◌≡◌, ◌≤◌, ◌+◌, ◌++◌, [], length, IfOk};
    ghost use Rattle.savi_ends.specs.declared.sink.Put.{Put};
    ghost use Rattle.savi_ends.specs.Faults.{Rose};
    ghost use Rattle.savi_ends.specs.Writes.{Extends};
    ghost use Rattle.journal_write.specs.Buffers.{Buffered, Holds};

    /// A buffer with room for so many octets, in which nothing waits. `Err` is want of memory.
    pub fn make(alloc: Global, room: usize) -> Result<Buffer, AllocError>
        ensures { IfOk result (λ b. b ≡ record { octets = []; room = room }) }
    {
        let octets = Vec::with_capacity(alloc, room)?;
        Ok(Buffer { octets, room })
    }

    /// Adds a piece. Where there is no room for it, what waits is written first, in one piece. `Failed` is the failure
    /// of that write, and a front of what waited was written; where no write failed, the answer is `Done`. O(n) in the octets.
    pub fn put<K: Sink>(&mut self, sink: &mut K, piece: &[u8]) -> Put
        requires { length piece.now ≤ self.old.room }
        ensures room { self.new.room ≡ self.old.room }
        ensures done { result ≡ Put.Done → Holds (K.written sink.old) (K.written sink.new) self.new.octets (self.old.octets ++ piece.now) }
        ensures part { result ≡ Put.Failed → Extends Put.Failed (K.written sink.old) (K.written sink.new) self.old.octets }
        ensures later { K.faults sink.old ≤ K.faults sink.new }
        ensures cause { result ≡ Put.Failed → Rose (K.faults sink.old) (K.faults sink.new) }
        ensures still { result ≡ Put.Done → K.faults sink.new ≡ K.faults sink.old }
    {
        if piece.len() > self.room - self.octets.len() {
            match self.flush(sink) {
                Put::Done => {}
                Put::Failed => return Put::Failed,
            }
        }
        self.add(piece);
        Put::Done
    }

    /// Writes what waits, in one piece. Then nothing waits, also where the write failed. `Done` is that no write failed.
    pub fn flush<K: Sink>(&mut self, sink: &mut K) -> Put
        ensures room { self.new.room ≡ self.old.room }
        ensures emptied { self.new.octets ≡ [] }
        ensures extends { Extends result (K.written sink.old) (K.written sink.new) self.old.octets }
        ensures later { K.faults sink.old ≤ K.faults sink.new }
        ensures cause { result ≡ Put.Failed → Rose (K.faults sink.old) (K.faults sink.new) }
        ensures still { result ≡ Put.Done → K.faults sink.new ≡ K.faults sink.old }
    {
        let put = sink.write(self.octets.as_slice());
        self.octets.clear();
        put
    }

    // Adds a piece for which there is room.
    fn add(&mut self, piece: &[u8])
        requires { length self.old.octets + length piece.now ≤ self.old.room }
        ensures { self.new ≡ record self.old { octets = self.old.octets ++ piece.now } }
    {
        match self.octets.extend_from_slice(piece) {
            Ok(()) => {}
            Err(_) => unreachable!(),
        }
    }
}
