ghost use Rattle.std.specs.Prelude.{◌≡◌, ◌≢◌, ◌≤◌, ℕ, List, IfSome};
ghost use Rattle.savi_ends.specs.Octets.{Takes};
ghost use Rattle.savi_ends.specs.Faults.{Rose};

use crate::counts::Counts;
use crate::events::take_answer;
use crate::output::Output;
use crate::split::SplitGot;
use pcapng_io::NgReader;
use savi_ends::{Sink, Source};
use savi_kinds::FRAME_OCTETS_MOST;
use std::marker::Model;

/// Splits a capture of several interfaces into a classic capture for each.
#[derive(Drop)]
pub struct Splitter {
    reader: NgReader,
    counts: Counts,
}

impl Model for Splitter {
    ghost use Rattle.pcap_split.specs.States.{Splitting, IsWithin};

    ghost Value = { Splitting };

    ghost view = { λ s. record { reading = s.reader; counts = s.counts } };

    ghost invariant = { λ s. IsWithin s.reader s.counts };
}

impl Splitter {
    ghost use Rattle.savi_kinds.specs.declared.entry.How.TheVariants as how;
    ghost use Rattle.pcapng_io.specs.Runs.{Event, at_start};
    ghost use Rattle.pcapng_io.specs.Readers.{Reading, Ended};
    ghost use Rattle.pcap_split.specs.Splits.{tally};
    ghost use Rattle.pcap_split.specs.Counts.{interfaces_of, tally_of, no_counts};
    ghost use Rattle.pcap_split.specs.Going.{Differ, HasBegun, Tells, Writes, split_behind, last_got, WriteRose};

    /// A splitter of a whole file.
    pub fn new() -> Splitter
        ensures reading { result.reading ≡ Reading at_start }
        ensures counts { result.counts ≡ no_counts }
    {
        Splitter {
            reader: NgReader::new(),
            counts: Counts {
                interfaces: 0,
                frames: 0,
                long: 0,
                skipped: 0,
            },
        }
    }

    /// What was counted so far.
    pub fn counts(&self) -> Counts
        ensures { result ≡ self.now.counts }
    {
        self.counts
    }

    /// Reads on and writes each frame to the output of its interface, up to an interface that needs an output, the end, or a
    /// read or write that failed.
    ///
    /// After `End`, `Malformed` or `Failed` it reads and writes nothing, and answers the same again.
    ///
    /// The outputs are those of the interfaces that began so far, each with the header of its capture. It takes no memory.
    /// O(n) in the octets that are read, and in the outputs for each packet.
    pub fn go_on<S: Source, K: Sink>(
        &mut self,
        source: &mut S,
        outputs: &mut [Output<K>],
    ) -> SplitGot
        requires { Differ outputs.old }
        ensures later { S.faults source.old ≤ S.faults source.new }
        ensures cause { result ≡ SplitGot.Failed → self.old.reading ≢ Ended how.Failed → Rose (S.faults source.old) (S.faults source.new) }
        ensures still { result ≢ SplitGot.Failed → S.faults source.new ≡ S.faults source.old }
        ensures unwritten { WriteRose K.faults result outputs.old outputs.new }

        // There are octets that the source gave in this call; what they tell was counted, and written to the outputs.
        ensures split { (gave : List ℕ) × (events : List Event) × Takes (S.left source.old) (S.left source.new) gave
            × Tells result self.old.reading self.new.reading gave (S.left source.new) events
            × HasBegun result (tally_of self.old.counts (interfaces_of outputs.old)) events
            × Writes K.written K.faults result events outputs.old outputs.new
            × (tally_of self.new.counts (split_behind result (interfaces_of outputs.old)) ≡ tally (tally_of self.old.counts (interfaces_of outputs.old)) events) }

        // A splitter whose capture has ended, or of which a read failed, reads and writes nothing and answers the same.
        ensures again { IfSome (last_got self.old.reading) (λ got. (result ≡ got) × (self.new ≡ self.old) × (source.new ≡ source.old) × (outputs.new ≡ outputs.old)) }
    {
        let mut buf = [0; FRAME_OCTETS_MOST];
        loop {
            let answer = self.reader.next(source, &mut buf);
            if let Some(got) = take_answer(&mut self.counts, outputs, answer, &buf) {
                return got;
            }
        }
    }
}
