ghost use Rattle.std.specs.Prelude.{◌≡◌, ◌≢◌, ◌<◌, ◌≤◌, ℕ, Some, length, vec_len};

use crate::piece::give;
use crate::source::{Got, Source};

/// A source over octets in memory that never fails, and gives as many octets as there is room for.
#[derive(Drop)]
pub struct SureSource {
    octets: Vec<u8>,
    at: usize,
    ghost within: { at ≤ vec_len octets },
}

impl SureSource {
    ghost use Rattle.savi_ends.specs.MemSources.{sure_left};

    /// A source of these octets.
    pub fn new(octets: Vec<u8>) -> SureSource
        ensures octets { sure_left result ≡ octets.items }
        ensures left { ⟦<SureSource as Source>⟧.left result ≡ Some octets.items }
        ensures faults { ⟦<SureSource as Source>⟧.faults result ≡ 0 }
    {
        SureSource { octets, at: 0 }
    }
}

impl Source for SureSource {
    ghost use Rattle.std.specs.Prelude.{drop};
    ghost use Rattle.savi_ends.specs.Octets.{Takes, NothingLeft};
    ghost use Rattle.savi_ends.specs.Faults.{Rose};
    ghost use Rattle.savi_ends.specs.Reads.{octets_given, FitsIn};
    ghost use Rattle.savi_ends.specs.Pieces.{piece_of, count_given, buffer_after};
    ghost use Rattle.savi_ends.specs.MemSources.{sure_left};

    ghost left = { λ s. Some (sure_left s) };

    ghost faults = { λ s. 0 };

    fn faults(&self) -> u64 {
        0
    }

    fn read(&mut self, buf: &mut [u8]) -> Got
        requires { 0 < length buf.old }
        ensures count { FitsIn result (length buf.old) }
        ensures bytes { Takes (⟦<SureSource as Source>⟧.left self.old) (⟦<SureSource as Source>⟧.left self.new) (octets_given result buf.new) }
        ensures end { result ≡ Got.End → NothingLeft (⟦<SureSource as Source>⟧.left self.old) }
        ensures later { ⟦<SureSource as Source>⟧.faults self.old ≤ ⟦<SureSource as Source>⟧.faults self.new }
        ensures cause { result ≡ Got.Failed → Rose (⟦<SureSource as Source>⟧.faults self.old) (⟦<SureSource as Source>⟧.faults self.new) }
        ensures still { result ≢ Got.Failed → ⟦<SureSource as Source>⟧.faults self.new ≡ ⟦<SureSource as Source>⟧.faults self.old }

        // What the read gives, and what it changes.
        ensures gives { result ≡ piece_of (sure_left self.old) (length buf.old) }
        ensures state { sure_left self.new ≡ drop (count_given result) (sure_left self.old) }
        ensures buffer { buf.new ≡ buffer_after result (sure_left self.old) buf.old }
    {
        let room = buf.len();
        let got = give(&self.octets[self.at..], room, buf);
        if let Got::Bytes(n) = got {
            self.at += n;
        }
        got
    }
}
