ghost use Rattle.std.specs.Prelude.{◌≡◌, ◌+◌, ◌^◌, ◌≤◌, ℕ, Bool, true, List, ◌++◌, length, map, Contains};
ghost use Rattle.savi_kinds.specs.declared.entry.How.TheVariants as how;
ghost use Rattle.savi_kinds.specs.Arrivals.{Arrival, Input};
ghost use Rattle.pcap_io.specs.declared.kind.HeaderKind.{HeaderKind};
ghost use Rattle.pcap_io.specs.Kinds.{little_microseconds};
ghost use Rattle.pcap_io.specs.Runs.{Arrive};
ghost use Rattle.pcap_io.specs.Captures.{Sent, AreFrames, capture_text, arrival_of};
ghost use Rattle.pcap_io.specs.Calls.{CallsGiveInput};

/// Law: every list of octets is some input, seen to end or not, whatever kinds of header are read.
pub fn octets_arrive()
    ensures { (kinds : List HeaderKind) (seen : Bool) (octets : List ℕ) → (input : Input) × Arrive kinds seen octets input }
{}

/// Law: no list of octets is two inputs.
pub fn octets_arrive_once()
    ensures { (kinds : List HeaderKind) (seen : Bool) (octets : List ℕ) (one other : Input) → Arrive kinds seen octets one → Arrive kinds seen octets other → one ≡ other }
{}

/// Law: the first octets of an input hold the first of its arrivals.
pub fn front_arrives()
    ensures { (kinds : List HeaderKind) (ends seen : Bool) (octets more : List ℕ) (part whole : Input) → Arrive kinds ends octets part → Arrive kinds seen (octets ++ more) whole → (later : List Arrival) × (whole.arrivals ≡ part.arrivals ++ later) }
{}

/// Law: what the writer wrote is read again as the same frames, by every reader that accepts its header; a frame
/// that is longer than one that comes in may be is read as a long one. The capture is no longer than an input may
/// be, 2^62 octets.
pub fn captures_are_read_again()
    ensures { (kinds : List HeaderKind) (items : List Sent) → Contains kinds little_microseconds → AreFrames items → length (capture_text items) ≤ 2 ^ 62 → Arrive kinds true (capture_text items) (record { arrivals = map arrival_of items; ending = how.End }) }
{}

/// Law: call after call, a reader's answers are the arrivals of what its source had left, each in its turn, and then how
/// the input ends; in whatever pieces the source gives its octets, and as far as no read fails.
pub fn calls_give_input()
    ensures { CallsGiveInput }
{}
