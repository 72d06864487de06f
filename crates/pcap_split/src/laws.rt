ghost use Rattle.std.specs.Prelude.{◌≡◌, ℕ, List, [], ◌∷◌, ◌++◌, Option};
ghost use Rattle.savi_kinds.specs.declared.entry.How.{How};
ghost use Rattle.savi_ends.specs.Octets.{behind};
ghost use Rattle.pcap_io.specs.Captures.{header_text};
ghost use Rattle.pcapng_io.specs.Runs.{Event, at_start};
ghost use Rattle.pcapng_io.specs.Readers.{State, Reading};
ghost use Rattle.pcap_split.specs.declared.counts.Counts.{Counts};
ghost use Rattle.pcap_split.specs.declared.output.Output.{Output};
ghost use Rattle.pcap_split.specs.declared.split.SplitGot.TheVariants as got;
ghost use Rattle.pcap_split.specs.Counts.{interfaces_of, tally_of, no_counts};
ghost use Rattle.pcap_split.specs.Splits.{tally};
ghost use Rattle.pcap_split.specs.Going.{HasTold, HasBroken, HasTaken, EachOutput};
ghost use Rattle.pcap_split.specs.Wholes.{IsSplit, IsCall, IsSplitWhole, IsSplitFront};

use savi_ends::Sink;

/// Law: call after call, each output has the capture of its interface. Where a call stops at an interface whose output is
/// then opened and begun, that output has the capture of it too, which has no frame so far. At the
/// end of the file, where it is malformed and where a read failed, they are the captures of what was read.
pub fn captures_go_on<K: Sink>()
    ensures start { IsSplit K.written (Reading at_start) no_counts [] [] [] [] }
    ensures opened { (interface : ℕ) (old new : State) (counts counts' : Counts) (handed now now' : List (Output K)) (gave more : List ℕ) (left : Option (List ℕ)) (events later : List Event) (sink begun : K)
        → IsSplit K.written old counts handed now gave events
        → IsCall K.written K.faults (got.Opens interface) old new counts counts' now now' more left later
        → K.written begun ≡ behind (K.written sink) header_text
        → IsSplit K.written new counts' (handed ++ record { interface = interface; sink = sink } ∷ []) (now' ++ record { interface = interface; sink = begun } ∷ []) (gave ++ more) (events ++ later) }
    ensures ended { (ending : How) (old new : State) (counts counts' : Counts) (handed now now' : List (Output K)) (gave more : List ℕ) (left : Option (List ℕ)) (events later : List Event)
        → IsSplit K.written old counts handed now gave events
        → HasTold old new more left later ending
        → EachOutput (HasTaken K.written K.faults later) now now'
        → tally_of counts' (interfaces_of now) ≡ tally (tally_of counts (interfaces_of now)) later
        → IsSplitWhole K.written counts' handed now' (gave ++ more) left (events ++ later) ending }
    ensures broken { (old new : State) (counts counts' : Counts) (handed now now' : List (Output K)) (gave more : List ℕ) (events later : List Event)
        → IsSplit K.written old counts handed now gave events
        → HasBroken old new more later
        → EachOutput (HasTaken K.written K.faults later) now now'
        → tally_of counts' (interfaces_of now) ≡ tally (tally_of counts (interfaces_of now)) later
        → IsSplitFront K.written counts' handed now' (gave ++ more) (events ++ later) }
{}
