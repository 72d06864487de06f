ghost use Rattle.std.specs.Prelude.{◌≡◌, ◌≤◌, ◌+◌, ◌++◌, ℕ, [], Some, length, vec_len, vec_capacity, IfOk};

use crate::sink::{Put, Sink};
use std::alloc::{AllocError, Global};

/// A sink in memory with a fixed room, which fails at the writes that it is told to fail at and where a
/// piece doesn't fit.
///
/// A write is O(n) in the octets of the piece and in the numbers of the writes that are to fail. It
/// takes no memory.
#[derive(Drop)]
pub struct MemSink {
    octets: Vec<u8>,
    room: usize,
    fails: Vec<u64>,
    writes: u64,
    faults: u64,
    ghost reserved: { room ≤ vec_capacity octets },
    ghost fits: { vec_len octets ≤ room },
}

impl MemSink {
    ghost use Rattle.savi_ends.specs.MemSinks.{sink_state};

    /// A sink with room for so many octets. The writes whose numbers, counted from 1, are in `fails`
    /// fail and write nothing. `Err` is want of memory.
    pub fn make(alloc: Global, room: usize, fails: Vec<u64>) -> Result<MemSink, AllocError>
        ensures state { IfOk result (λ s. sink_state s ≡ record { written = []; room = room; fails = fails.items; writes = 0; faults = 0 }) }
        ensures written { IfOk result (λ s. ⟦<MemSink as Sink>⟧.written s ≡ Some []) }
        ensures faults { IfOk result (λ s. ⟦<MemSink as Sink>⟧.faults s ≡ 0) }
    {
        let octets = Vec::with_capacity(alloc, room)?;
        Ok(MemSink {
            octets,
            room,
            fails,
            writes: 0,
            faults: 0,
        })
    }

    /// What was written.
    pub fn written(&self) -> &[u8]
        ensures state { result.now ≡ (sink_state self.now).written }
        ensures written { ⟦<MemSink as Sink>⟧.written self.now ≡ Some result.now }
    {
        self.octets.as_slice()
    }
}

impl Sink for MemSink {
    ghost use Rattle.savi_ends.specs.Faults.{Rose};
    ghost use Rattle.savi_ends.specs.Writes.{Extends};
    ghost use Rattle.savi_ends.specs.MemSinks.{sink_state, next_write, after_write};

    ghost written = { λ s. Some (sink_state s).written };

    ghost faults = { λ s. s.faults };

    fn faults(&self) -> u64 {
        self.faults
    }

    fn write(&mut self, piece: &[u8]) -> Put
        ensures extends { Extends result (⟦<MemSink as Sink>⟧.written self.old) (⟦<MemSink as Sink>⟧.written self.new) piece.now }
        ensures later { ⟦<MemSink as Sink>⟧.faults self.old ≤ ⟦<MemSink as Sink>⟧.faults self.new }
        ensures cause { result ≡ Put.Failed → Rose (⟦<MemSink as Sink>⟧.faults self.old) (⟦<MemSink as Sink>⟧.faults self.new) }
        ensures still { result ≡ Put.Done → ⟦<MemSink as Sink>⟧.faults self.new ≡ ⟦<MemSink as Sink>⟧.faults self.old }

        // What the write answers, and what it changes.
        ensures answers { result ≡ next_write (sink_state self.old) (length piece.now) }
        ensures state { sink_state self.new ≡ after_write (sink_state self.old) result piece.now }
    {
        self.writes = self.writes.saturating_add(1);
        if self.fails.contains(&self.writes) || piece.len() > self.room - self.octets.len() {
            self.faults = self.faults.saturating_add(1);
            return Put::Failed;
        }
        extend(&mut self.octets, piece);
        Put::Done
    }
}

// Adds octets for which there is room.
fn extend(octets: &mut Vec<u8>, piece: &[u8])
    requires { vec_len octets.old + length piece.now ≤ vec_capacity octets.old }
    ensures items { octets.new.items ≡ octets.old.items ++ piece.now }
    ensures capacity { vec_capacity octets.old ≤ vec_capacity octets.new }
{
    match octets.extend_from_slice(piece) {
        Ok(()) => {}
        Err(_) => unreachable!(),
    }
}
