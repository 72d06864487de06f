ghost use Rattle.std.specs.Prelude.{◌≡◌, ◌≤◌, ◌^◌, ℕ, Bool, true, List, ◌++◌, length};
ghost use Rattle.savi_kinds.specs.declared.entry.How.TheVariants as how;
ghost use Rattle.savi_kinds.specs.Arrivals.{Arrival, Input};
ghost use Rattle.stream_io.specs.Records.{stream_text, AreFrames};
ghost use Rattle.stream_io.specs.Streams.{Arrive, frames_stamped};
ghost use Rattle.stream_io.specs.Calls.{CallsGiveInput, CallsBeforeFault, CallsBeforeMore, StampsAreReadings};

/// Law: every list of octets is some input, seen to end or not, whatever its clock reads.
pub fn octets_arrive()
    ensures { (seen : Bool) (readings octets : List ℕ) → (input : Input) × Arrive seen readings octets input }
{}

/// Law: no list of octets is two inputs.
pub fn octets_arrive_once()
    ensures { (seen : Bool) (readings octets : List ℕ) (one other : Input) → Arrive seen readings octets one → Arrive seen readings octets other → one ≡ other }
{}

/// Law: the first octets of an input, with the first readings of its clock, hold the first of its arrivals.
pub fn front_arrives()
    ensures { (ends seen : Bool) (readings later_readings octets more : List ℕ) (part whole : Input) → Arrive ends readings octets part → Arrive seen (readings ++ later_readings) (octets ++ more) whole → (later : List Arrival) × (whole.arrivals ≡ part.arrivals ++ later) }
{}

/// Law: what the writer wrote is read again as the same frames, as many as its clock has readings for; a frame that is
/// longer than one that comes in may be is read as a long one. The stream is no longer than an input may be, 2^62 octets.
pub fn streams_are_read_again()
    ensures { (readings : List ℕ) (frames : List (List ℕ)) → AreFrames frames → length (stream_text frames) ≤ 2 ^ 62 → Arrive true readings (stream_text frames) (record { arrivals = frames_stamped readings frames; ending = how.End }) }
{}

/// Law: call after call, a reader's answers are the records of all that its source had left, each in its turn, and then how
/// these end; in whatever pieces the source gives its octets, and as far as no read fails.
pub fn calls_give_input()
    ensures { CallsGiveInput }
{}

/// Law: the arrivals of a reader whose source failed at last are all the records of the octets that were given.
pub fn calls_before_fault()
    ensures { CallsBeforeFault }
{}

/// Law: what a reader told that goes on is a front of what it took: the first records of the octets that its source gave,
/// and none is left out.
pub fn calls_before_more()
    ensures { CallsBeforeMore }
{}

/// Law: the stamps of a reader's arrivals are the readings that its clock made, one after the other.
pub fn stamps_are_readings()
    ensures { StampsAreReadings }
{}
