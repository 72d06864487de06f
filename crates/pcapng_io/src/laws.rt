ghost use Rattle.std.specs.Prelude.{◌≡◌, ℕ, List, ◌++◌};
ghost use Rattle.pcapng_io.specs.Runs.{Event, Input, Arrive};
ghost use Rattle.pcapng_io.specs.Calls.{CallsGiveInput};

/// Law: every list of octets tells something.
pub fn octets_arrive()
    ensures { (octets : List ℕ) → (input : Input) × Arrive octets input }
{}

/// Law: no list of octets tells two things.
pub fn octets_arrive_once()
    ensures { (octets : List ℕ) (one other : Input) → Arrive octets one → Arrive octets other → one ≡ other }
{}

/// Law: the first octets of a file tell the first of its events.
pub fn front_arrives()
    ensures { (octets more : List ℕ) (part whole : Input) → Arrive octets part → Arrive (octets ++ more) whole → (later : List Event) × (whole.events ≡ part.events ++ later) }
{}

/// Law: call after call, a reader's answers are what its source's octets tell, each in its turn, and then how the file ends;
/// in whatever pieces the source gives its octets, and as far as no read fails.
pub fn calls_give_input()
    ensures { CallsGiveInput }
{}
