// The law on how much room suffices for a live session. The function does nothing: its contract is the law.

ghost use Rattle.std.specs.Prelude.{◌≡◌, ◌≤◌, false, List, ◌∷◌, ◌++◌, length, Option};
ghost use Rattle.savi_kinds.specs.Arrivals.{Input};
ghost use Rattle.savi_kinds.specs.ValidPlan.{IsValidPlan};
ghost use Rattle.savi_kinds.specs.declared.plan.Plan.{Plan};
ghost use Rattle.cli_lang.specs.Arrivals as control;
ghost use Rattle.hist_store.specs.Rows.{Row, held};
ghost use Rattle.savi_history.specs.Endings.{has_paused_end};
ghost use Rattle.savi_segments.specs.Segments.{base_after, joined};
ghost use Rattle.live_session.specs.LiveSession.{IsLive};
ghost use Rattle.savi_laws.specs.Budgets.{input_count, given_count, given_octets, lines_of, arrivals_of, entries_most};
ghost use Rattle.live_laws.specs.SourceInputs.{HaveInputs, causes_in, SufficesFor};

use savi_ends::{Clock, Ends, Sink, Source};
use savi_segments::segments_leave_what_their_rows_leave;

/// What a live session's segments hold together is no more than what its sources have: as many frames, longer frames and
/// lines at most, and as many of their octets; however the inputs end, and in whatever order the ports have their turns
/// (`given`). So each segment comes to at most 34 entries, and 256 for each of them and for each address that has a state in
/// what it goes on from (`entries`). With room for so many beside the 4,130 entries that stay free, none of them for an
/// address at the start, and for those octets beside those of the longest frame, the session is of one segment, and no pass
/// is paused for want of room (`enough`).
pub fn a_budget_suffices_for_a_live_session<S: Source, K: Sink, C: Clock>()
    ensures given { (plan : Plan) (segments : List (List Row)) (old_ports new_ports : List (Ends S K C))
        (old_control new_control : Option (Ends S K C)) (old_clock new_clock : C) (lines : Option control.Input) (inputs : List Input)
        → IsLive S.left K.written S.faults K.faults C.readings plan segments old_ports new_ports old_control new_control old_clock new_clock
        → HaveInputs S.left plan old_ports old_control lines inputs
        → (input_count (joined segments) ≤ given_count (lines_of lines) (arrivals_of inputs))
        × (held (joined segments) ≤ given_octets (lines_of lines) (arrivals_of inputs)) }
    ensures entries { (plan : Plan) (segments : List (List Row)) (old_ports new_ports : List (Ends S K C))
        (old_control new_control : Option (Ends S K C)) (old_clock new_clock : C) (lines : Option control.Input) (inputs : List Input)
        (later before : List (List Row)) (segment : List Row)
        → IsValidPlan plan
        → IsLive S.left K.written S.faults K.faults C.readings plan segments old_ports new_ports old_control new_control old_clock new_clock
        → HaveInputs S.left plan old_ports old_control lines inputs
        → segments ≡ later ++ segment ∷ before
        → length segment ≤ entries_most (causes_in plan (base_after plan before) lines inputs) }
    ensures enough { (plan : Plan) (segments : List (List Row)) (old_ports new_ports : List (Ends S K C))
        (old_control new_control : Option (Ends S K C)) (old_clock new_clock : C) (lines : Option control.Input) (inputs : List Input)
        → IsValidPlan plan
        → IsLive S.left K.written S.faults K.faults C.readings plan segments old_ports new_ports old_control new_control old_clock new_clock
        → HaveInputs S.left plan old_ports old_control lines inputs
        → SufficesFor plan lines inputs → (length segments ≡ 1) × (has_paused_end (joined segments) ≡ false) }
{
    segments_leave_what_their_rows_leave();
}
