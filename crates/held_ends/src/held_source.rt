//! A source that notes what it was asked for, and may wait before it gives its second record.

ghost use Rattle.std.specs.Prelude.{◌≡◌};

use crate::frames::RECORD_OCTETS;
use crate::marks::Marks;
use savi_ends::{Got, MemSource, Source};
use std::alloc::Global;
use std::sync::atomic::Ordering;

/// What a source notes.
#[derive(Clone, Copy)]
pub enum Note<'a> {
    Nothing,
    /// The source of port 1 notes each read, and gives its second record only once the sink of port 3 was given the first
    /// frame of port 2.
    Reads(&'a Marks),
    /// The source of port 1 notes each read.
    Counts(&'a Marks),
}

/// A source of records in memory, of which a read gives one.
#[derive(Drop)]
pub struct HeldSource<'a> {
    source: MemSource,
    rt: HostRuntime,
    note: Note<'a>,
}

impl<'a> HeldSource<'a> {
    /// A source of these octets.
    pub fn new(alloc: Global, rt: HostRuntime, octets: Vec<u8>, note: Note<'a>) -> HeldSource<'a>
        ensures { ⟦<HeldSource<'a> as Source>⟧.faults result ≡ 0 }
    {
        HeldSource {
            source: MemSource::new(octets, RECORD_OCTETS, Vec::new(alloc)),
            rt,
            note,
        }
    }
}

impl<'a> Source for HeldSource<'a> {
    ghost left = { λ s. ⟦<MemSource as Source>⟧.left s.source };

    ghost faults = { λ s. ⟦<MemSource as Source>⟧.faults s.source };

    fn faults(&self) -> u64 {
        self.source.faults()
    }

    fn read(&mut self, buf: &mut [u8]) -> Got {
        match self.note {
            Note::Nothing => {}
            Note::Reads(marks) => {
                let asked = marks.asked.fetch_add(1, Ordering::SeqCst);
                if asked == 1 {
                    marks.wait_for(self.rt, &marks.given, 1);
                }
            }
            Note::Counts(marks) => {
                marks.asked.fetch_add(1, Ordering::SeqCst);
            }
        }
        self.source.read(buf)
    }
}
