//! Records that go to a sink together.

ghost use Rattle.std.specs.Prelude.{◌≡◌, ◌≤◌, ◌+◌, ◌++◌, [], Some, IfOk, length, vec_len, vec_capacity};
ghost use Rattle.std.specs.Bool.{OnFalse, OnTrue};
ghost use Rattle.savi_ends.specs.declared.sink.Put.{Put};
ghost use Rattle.savi_ends.specs.Faults.{Rose};
ghost use Rattle.savi_ends.specs.Writes.{Extends};
ghost use Rattle.savi_core.specs.Batches.{item_with};
ghost use Rattle.live_output.specs.OutputParts.{record_of};
ghost use Rattle.live_output.specs.declared.gathered.TheConstants.{GATHERED_MOST};

use crate::records::put;
use savi_ends::{Put, Sink};
use savi_kinds::{FRAME_OCTETS_OUT_MOST, Format};
use std::alloc::{AllocError, Global};

/// So many octets of records are gathered for one write.
const GATHERED_MOST: usize = 65_536;

/// Records in a row that no sink has been given yet. As a sink it takes a piece while there is room for it.
#[derive(Drop)]
pub(crate) struct Gathered {
    pub(crate) octets: Vec<u8>,
    faults: u64,
    ghost reserved: { GATHERED_MOST ≤ vec_capacity octets },
    ghost fits: { vec_len octets ≤ GATHERED_MOST },
}

impl Gathered {
    /// Nothing yet. It takes all its memory here.
    pub(crate) fn make(alloc: Global) -> Result<Gathered, AllocError>
        ensures { IfOk result (λ gathered. gathered.octets.items ≡ []) }
    {
        Ok(Gathered {
            octets: Vec::with_capacity(alloc, GATHERED_MOST)?,
            faults: 0,
        })
    }

    /// Gives up what was gathered. O(1).
    pub(crate) fn clear(&mut self)
        ensures { self.new.octets.items ≡ [] }
    {
        self.octets.clear();
    }

    /// Adds the record of a frame that is sent at this moment (ms), where there is room for it, and says whether there was.
    /// O(n) in the octets of the frame.
    pub(crate) fn add(&mut self, format: Format, moment: u64, frame: &[u8]) -> bool
        requires { length frame.now ≤ FRAME_OCTETS_OUT_MOST }
        ensures added { OnTrue result (self.new.octets.items ≡ self.old.octets.items ++ record_of format (item_with moment frame.now)) }
        ensures full { OnFalse result (self.new.octets.items ≡ self.old.octets.items) }
    {
        let before = self.octets.len();
        match put(format, self, moment, frame) {
            Put::Done => true,
            Put::Failed => {
                self.octets.truncate(before);
                false
            }
        }
    }

    /// Writes what was gathered, in one piece, where there is anything. Then nothing is gathered, also where the write
    /// failed.
    pub(crate) fn flush<K: Sink>(&mut self, sink: &mut K) -> Put
        ensures extends { Extends result (K.written sink.old) (K.written sink.new) self.old.octets.items }
        ensures emptied { self.new.octets.items ≡ [] }
        ensures later { K.faults sink.old ≤ K.faults sink.new }
        ensures cause { result ≡ Put.Failed → Rose (K.faults sink.old) (K.faults sink.new) }
        ensures still { result ≡ Put.Done → K.faults sink.new ≡ K.faults sink.old }
    {
        if self.octets.is_empty() {
            return Put::Done;
        }
        let put = sink.write(self.octets.as_slice());
        self.octets.clear();
        put
    }
}

impl Sink for Gathered {
    ghost written = { λ gathered. Some gathered.octets.items };

    ghost faults = { λ gathered. gathered.faults };

    fn faults(&self) -> u64 {
        self.faults
    }

    fn write(&mut self, piece: &[u8]) -> Put {
        if piece.len() > GATHERED_MOST - self.octets.len() {
            self.faults = self.faults.saturating_add(1);
            return Put::Failed;
        }
        append(&mut self.octets, piece);
        Put::Done
    }
}

// Adds octets for which there is room.
fn append(octets: &mut Vec<u8>, piece: &[u8])
    requires { vec_len octets.old + length piece.now ≤ vec_capacity octets.old }
    ensures items { octets.new.items ≡ octets.old.items ++ piece.now }
    ensures capacity { vec_capacity octets.old ≤ vec_capacity octets.new }
{
    match octets.extend_from_slice(piece) {
        Ok(()) => {}
        Err(_) => unreachable!(),
    }
}
