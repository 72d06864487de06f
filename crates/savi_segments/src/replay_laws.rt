// The laws on replays in segments. Each function does nothing: its contract is the law.

ghost use Rattle.std.specs.Prelude.{◌≡◌, ◌<◌, ◌⊎◌, ℕ, true, List, [], length, slice_index, Option, Some, None, All};
ghost use Rattle.savi_kinds.specs.Arrivals.{Input};
ghost use Rattle.savi_kinds.specs.ValidPlan.{IsValidPlan, numbers_of};
ghost use Rattle.savi_kinds.specs.declared.entry.How.TheVariants as hows;
ghost use Rattle.savi_kinds.specs.declared.plan.Plan.{Plan};
ghost use Rattle.cli_lang.specs.Arrivals as control;
ghost use Rattle.hist_store.specs.Rows.{Row};
ghost use Rattle.savi_history.specs.ControlInputs.{control_end, entered_lines};
ghost use Rattle.savi_history.specs.Endings.{has_failed, has_failed_write};
ghost use Rattle.savi_history.specs.EnteredLines.{AreEntered};
ghost use Rattle.savi_history.specs.PortInputs.{input_end};
ghost use Rattle.savi_history.specs.PortOutputs.{TookPieces, output_end, pieces};
ghost use Rattle.savi_history.specs.Readable.{IsInput, IsControl, IsControlInput};
ghost use Rattle.savi_history.specs.Replay.{Stops};
ghost use Rattle.savi_segments.specs.Given.{AreOfOctets};
ghost use Rattle.savi_segments.specs.Replay.{replayed};
ghost use Rattle.savi_segments.specs.Segments.{AreLegal, IsWholeSession};
ghost use Rattle.savi_segments.specs.Sent.{sent_in, replies_in, FitsOutputIn, FitsRepliesIn};
ghost use Rattle.savi_segments.specs.Unbroken.{unbroken};

/// A replay of what readers may give, of lines on control, where it has an input, and of one input for each port of the
/// plan, is a whole session, whichever writes failed: each segment is legal from what those before it leave, in each of them
/// every pass has ended, in each but the newest an input is paused, and in the newest none is.
pub fn replays_are_whole_sessions()
    ensures { (plan : Plan) (lines : Option control.Input) (inputs : List Input) (stops : Stops)
        → IsValidPlan plan → length inputs ≡ length plan.ports → IsControl lines → All IsInput inputs → AreOfOctets lines inputs
        → IsWholeSession plan (replayed plan lines inputs stops) }
{}

/// A read that failed in legal segments is one of the input of a port of the plan, or of control's, and they say so there.
pub fn failed_reads_are_of_inputs()
    ensures { (plan : Plan) (segments : List (List Row)) → AreLegal plan segments
        → let rows = unbroken segments in has_failed rows ≡ true
        → ((k : ℕ) × (k < length plan.ports) × (input_end (slice_index (numbers_of plan.ports) k) rows ≡ Some hows.Failed))
        ⊎ (control_end rows ≡ Some hows.Failed) }
{}

/// A write that failed in legal segments is one of the output of a port of the plan, or of a reply, and they say so of that
/// port or of control (`found`). Of all rows that say so of some port or of control, a write failed.
pub fn failed_writes_are_of_outputs()
    ensures found { (plan : Plan) (segments : List (List Row)) → AreLegal plan segments
        → let rows = unbroken segments in has_failed_write rows ≡ true
        → ((k : ℕ) × (k < length plan.ports) × (output_end (slice_index (numbers_of plan.ports) k) rows ≡ Some hows.Failed))
        ⊎ (control_end rows ≡ Some hows.Unwritten) }
    ensures told { (port : ℕ) (past : List Row) → output_end port past ≡ Some hows.Failed → has_failed_write past ≡ true }
    ensures unwritten { (past : List Row) → control_end past ≡ Some hows.Unwritten → has_failed_write past ≡ true }
{}

/// In a replay with these stops, what the sink of a port took of the pieces of its output fits how the segments say that the
/// output ended: all of it, or, where a write failed, a front of it with all that the drains before the last one took.
pub fn outputs_fit()
    ensures { (plan : Plan) (lines : Option control.Input) (inputs : List Input) (stops : Stops)
        (before after : Option (List ℕ)) (k : ℕ)
        → IsValidPlan plan → length inputs ≡ length plan.ports → IsControl lines → All IsInput inputs → k < length plan.ports
        → let port = slice_index (numbers_of plan.ports) k in let segments = replayed plan lines inputs stops in
        TookPieces before after (pieces (sent_in plan port segments)) (stops.ports port)
        → FitsOutputIn plan before after port segments }
{}

/// In a replay with these stops, what control's sink took of the replies fits how the segments say that control ended: all
/// of them, or, where one could not be written, all but the last one and a front of that.
pub fn replies_fit()
    ensures { (plan : Plan) (lines : Option control.Input) (inputs : List Input) (stops : Stops) (before after : Option (List ℕ))
        → let segments = replayed plan lines inputs stops in IsControl lines → IsWholeSession plan segments
        → TookPieces before after (replies_in plan segments) stops.control → FitsRepliesIn plan before after segments }
{}

/// Without an input of control no line stands in a replay, and control ends as an input does that holds nothing.
pub fn no_command_without_control()
    ensures { (plan : Plan) (inputs : List Input) (stops : Stops) → AreLegal plan (replayed plan None inputs stops)
        → let rows = unbroken (replayed plan None inputs stops) in
        (entered_lines rows ≡ []) × (control_end rows ≡ Some hows.End) }
{}

/// The lines that a replay enters are those of control's input in their order, by how control ends: all of them, also those
/// for which there was no room in the segment that went on then; those up to and with the first `quit`; or those up to and
/// with one whose reply could not be written, with no `quit` before it.
pub fn lines_are_entered()
    ensures { (plan : Plan) (input : control.Input) (inputs : List Input) (stops : Stops) → IsControlInput input
        → AreLegal plan (replayed plan (Some input) inputs stops)
        → let rows = unbroken (replayed plan (Some input) inputs stops) in AreEntered input (entered_lines rows) (control_end rows) }
{}
