ghost use Rattle.std.specs.Prelude.{◌≡◌, ◌≢◌, ◌<◌, ◌≤◌, ℕ, Some, length, min, vec_len};

use crate::piece::give;
use crate::source::{Got, Source};

/// A source over octets in memory, which gives at most so many octets in a read and fails at the reads
/// that it is told to fail at.
///
/// A read is O(n) in the octets that it gives and in the numbers of the reads that are to fail.
#[derive(Drop)]
pub struct MemSource {
    octets: Vec<u8>,
    at: usize,
    most: usize,
    fails: Vec<u64>,
    reads: u64,
    faults: u64,
    ghost within: { at ≤ vec_len octets },
    ghost gives: { 1 ≤ most },
}

impl MemSource {
    ghost use Rattle.savi_ends.specs.MemSources.{source_state};

    /// A source of these octets that gives at most `most` octets in a read. The reads whose numbers,
    /// counted from 1, are in `fails` fail and give nothing.
    pub fn new(octets: Vec<u8>, most: usize, fails: Vec<u64>) -> MemSource
        requires { 1 ≤ most }
        ensures state { source_state result ≡ record { left = octets.items; most = most; fails = fails.items; reads = 0; faults = 0 } }
        ensures left { ⟦<MemSource as Source>⟧.left result ≡ Some octets.items }
        ensures faults { ⟦<MemSource as Source>⟧.faults result ≡ 0 }
    {
        MemSource {
            octets,
            at: 0,
            most,
            fails,
            reads: 0,
            faults: 0,
        }
    }
}

impl Source for MemSource {
    ghost use Rattle.savi_ends.specs.Octets.{Takes, NothingLeft};
    ghost use Rattle.savi_ends.specs.Faults.{Rose};
    ghost use Rattle.savi_ends.specs.Reads.{octets_given, FitsIn};
    ghost use Rattle.savi_ends.specs.Pieces.{buffer_after};
    ghost use Rattle.savi_ends.specs.MemSources.{source_state, next_read, after_read};

    ghost left = { λ s. Some (source_state s).left };

    ghost faults = { λ s. s.faults };

    fn faults(&self) -> u64 {
        self.faults
    }

    fn read(&mut self, buf: &mut [u8]) -> Got
        requires { 0 < length buf.old }
        ensures count { FitsIn result (length buf.old) }
        ensures bytes { Takes (⟦<MemSource as Source>⟧.left self.old) (⟦<MemSource as Source>⟧.left self.new) (octets_given result buf.new) }
        ensures end { result ≡ Got.End → NothingLeft (⟦<MemSource as Source>⟧.left self.old) }
        ensures later { ⟦<MemSource as Source>⟧.faults self.old ≤ ⟦<MemSource as Source>⟧.faults self.new }
        ensures cause { result ≡ Got.Failed → Rose (⟦<MemSource as Source>⟧.faults self.old) (⟦<MemSource as Source>⟧.faults self.new) }
        ensures still { result ≢ Got.Failed → ⟦<MemSource as Source>⟧.faults self.new ≡ ⟦<MemSource as Source>⟧.faults self.old }

        // What the read gives, and what it changes.
        ensures gives { result ≡ next_read (source_state self.old) (length buf.old) }
        ensures state { source_state self.new ≡ after_read (source_state self.old) result }
        ensures buffer { buf.new ≡ buffer_after result (source_state self.old).left buf.old }
    {
        self.reads = self.reads.saturating_add(1);
        if self.fails.contains(&self.reads) {
            self.faults = self.faults.saturating_add(1);
            return Got::Failed;
        }
        let got = give(&self.octets[self.at..], self.most, buf);
        if let Got::Bytes(n) = got {
            self.at += n;
        }
        got
    }
}
