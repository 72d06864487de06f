// How far the workers of a live session are, by its segments so far, and what each leaves of its ends. Each function does
// nothing: its contract is the law.

ghost use Rattle.std.specs.Prelude.{◌≡◌, ℕ, Bool, true, false, List, [], ◌∷◌, Option, None};
ghost use mathlib.Core.List.{IsPrefix};
ghost use Rattle.savi_kinds.specs.declared.plan.Plan.{Plan};
ghost use Rattle.savi_kinds.specs.declared.plan.Format.{Format};
ghost use Rattle.hist_store.specs.Rows.{Row};
ghost use Rattle.savi_history.specs.Legal.{IsLegal};
ghost use Rattle.savi_history.specs.Passes.{control_pass, egress_pass, has_ended, has_port, place_of, ticker_pass};
ghost use Rattle.savi_segments.specs.Segments.{IsWholeSession, base_after};
ghost use Rattle.core_keep.specs.Seen.{IsLater};
ghost use Rattle.parcel_ring.specs.Handed.{Handed};
ghost use Rattle.port_reader.specs.Rows.{WasPut};
ghost use Rattle.control_reader.specs.Heard.{HeardLine};
ghost use Rattle.control_reader.specs.Rows.{WerePut};
ghost use Rattle.live_session.specs.LiveRows.{ControlRow, EgressRow, IngressRow, NoControlRow, TickerRow};
ghost use Rattle.live_session.specs.Standing.{ControlStands, InputStands, NoControlStands, OutputStands, TickerStands};

use control_reader::reader_and_answers_leave_one_row;
use port_reader::reader_and_judge_leave_one_row;
use savi_ends::{Clock, Ends, Sink, Source};

/// Law: what stands of the judge of a port stands at the start of a session, where nothing was taken (`start`), while other
/// passes go on in the newest segment (`later`), where the next one begins (`next`), and over a legal segment before which
/// the pass had ended for good (`over`).
pub fn inputs_stand_on()
    ensures start { (port : ℕ) → InputStands port [] [] None }
    ensures later { (plan : Plan) (before : List (List Row)) (found now : List Row) (port : ℕ) (taken : List Handed) (kept : Option Handed)
        → IsLegal plan (base_after plan before) now → IsLater (place_of plan port) found now
        → InputStands port (found ∷ before) taken kept → InputStands port (now ∷ before) taken kept }
    ensures next { (before : List (List Row)) (port : ℕ) (taken : List Handed) (kept : Option Handed)
        → InputStands port before taken kept → InputStands port ([] ∷ before) taken kept }
    ensures over { (plan : Plan) (before : List (List Row)) (segment : List Row) (port : ℕ) (taken : List Handed) (kept : Option Handed)
        → IsLegal plan (base_after plan before) segment → has_ended (base_after plan before) (place_of plan port) [] ≡ true
        → InputStands port before taken kept → InputStands port (segment ∷ before) taken kept }
{}

/// Law: the same of what stands of the output of a port, whose sink was `old` at the start of the session, where nothing was
/// begun.
pub fn outputs_stand_on<K: Sink>()
    ensures start { (format : Format) (plan : Plan) (port : ℕ) (sink : K) → OutputStands K.written K.faults format plan port [] false sink sink }
    ensures later { (plan : Plan) (before : List (List Row)) (found now : List Row) (format : Format) (port : ℕ) (begun : Bool) (old new : K)
        → IsLegal plan (base_after plan before) now → IsLater (egress_pass plan port) found now
        → OutputStands K.written K.faults format plan port (found ∷ before) begun old new
        → OutputStands K.written K.faults format plan port (now ∷ before) begun old new }
    ensures next { (plan : Plan) (before : List (List Row)) (format : Format) (port : ℕ) (begun : Bool) (old new : K)
        → OutputStands K.written K.faults format plan port before begun old new
        → OutputStands K.written K.faults format plan port ([] ∷ before) begun old new }
    ensures over { (plan : Plan) (before : List (List Row)) (segment : List Row) (format : Format) (port : ℕ) (begun : Bool) (old new : K)
        → IsLegal plan (base_after plan before) segment → has_ended (base_after plan before) (egress_pass plan port) [] ≡ true
        → OutputStands K.written K.faults format plan port before begun old new
        → OutputStands K.written K.faults format plan port (segment ∷ before) begun old new }
{}

/// Law: the same of what stands of control, whose sink was `old` at the start of the session.
pub fn control_stands_on<K: Sink>()
    ensures start { (plan : Plan) (sink : K) → ControlStands K.written K.faults plan [] [] None sink sink }
    ensures later { (plan : Plan) (before : List (List Row)) (found now : List Row) (taken : List HeardLine) (kept : Option HeardLine) (old new : K)
        → IsLegal plan (base_after plan before) now → IsLater (control_pass plan) found now
        → ControlStands K.written K.faults plan (found ∷ before) taken kept old new
        → ControlStands K.written K.faults plan (now ∷ before) taken kept old new }
    ensures next { (plan : Plan) (before : List (List Row)) (taken : List HeardLine) (kept : Option HeardLine) (old new : K)
        → ControlStands K.written K.faults plan before taken kept old new
        → ControlStands K.written K.faults plan ([] ∷ before) taken kept old new }
    ensures over { (plan : Plan) (before : List (List Row)) (segment : List Row) (taken : List HeardLine) (kept : Option HeardLine) (old new : K)
        → IsLegal plan (base_after plan before) segment → has_ended (base_after plan before) (control_pass plan) [] ≡ true
        → ControlStands K.written K.faults plan before taken kept old new
        → ControlStands K.written K.faults plan (segment ∷ before) taken kept old new }
{}

/// Law: the same where there is no control.
pub fn no_control_stands_on()
    ensures start { NoControlStands [] }
    ensures later { (plan : Plan) (before : List (List Row)) (found now : List Row)
        → IsLegal plan (base_after plan before) now → IsLater (control_pass plan) found now
        → NoControlStands (found ∷ before) → NoControlStands (now ∷ before) }
    ensures next { (before : List (List Row)) → NoControlStands before → NoControlStands ([] ∷ before) }
    ensures over { (plan : Plan) (before : List (List Row)) (segment : List Row)
        → IsLegal plan (base_after plan before) segment → has_ended (base_after plan before) (control_pass plan) [] ≡ true
        → NoControlStands before → NoControlStands (segment ∷ before) }
{}

/// Law: the same of what stands of the ticker, whose clock was `old` at the start of the session.
pub fn the_ticker_stands_on<C: Clock>()
    ensures start { (plan : Plan) (clock : C) → TickerStands C.readings plan [] clock clock }
    ensures later { (plan : Plan) (before : List (List Row)) (found now : List Row) (old new : C)
        → IsLegal plan (base_after plan before) now → IsLater (ticker_pass plan) found now
        → TickerStands C.readings plan (found ∷ before) old new → TickerStands C.readings plan (now ∷ before) old new }
    ensures next { (plan : Plan) (before : List (List Row)) (old new : C)
        → TickerStands C.readings plan before old new → TickerStands C.readings plan ([] ∷ before) old new }
    ensures over { (plan : Plan) (before : List (List Row)) (segment : List Row) (old new : C)
        → IsLegal plan (base_after plan before) segment → has_ended (base_after plan before) (ticker_pass plan) [] ≡ true
        → TickerStands C.readings plan before old new → TickerStands C.readings plan (segment ∷ before) old new }
{}

/// Law: in a whole session what stands of each worker is the row of its ends. Of a port's source and of control's that is so
/// where a front was taken of what the reader put.
pub fn whole_sessions_leave_rows<S: Source, K: Sink, C: Clock>()
    ensures ingress { (plan : Plan) (segments : List (List Row)) (format : Format) (port : ℕ) (put taken : List Handed) (kept : Option Handed)
        (old new : S) (clock later : C)
        → IsWholeSession plan segments → has_port plan port ≡ true
        → WasPut S.left S.faults C.readings format put old new clock later → IsPrefix taken put → InputStands port segments taken kept
        → IngressRow S.left S.faults C.readings format port segments old new clock later }
    ensures egress { (plan : Plan) (segments : List (List Row)) (format : Format) (port : ℕ) (begun : Bool) (old new : K)
        → IsWholeSession plan segments → has_port plan port ≡ true
        → OutputStands K.written K.faults format plan port segments begun old new
        → EgressRow K.written K.faults format plan port segments old new }
    ensures control { (plan : Plan) (segments : List (List Row)) (put taken : List HeardLine) (kept : Option HeardLine) (old new : Ends S K C)
        → IsWholeSession plan segments
        → WerePut S.left S.faults C.readings put old.source new.source old.clock new.clock → IsPrefix taken put
        → ControlStands K.written K.faults plan segments taken kept old.sink new.sink
        → ControlRow S.left K.written S.faults K.faults C.readings plan segments old new }
    ensures none { (plan : Plan) (segments : List (List Row)) → IsWholeSession plan segments → NoControlStands segments → NoControlRow segments }
    ensures ticker { (plan : Plan) (segments : List (List Row)) (old new : C)
        → IsWholeSession plan segments → TickerStands C.readings plan segments old new
        → TickerRow C.readings plan segments old new }
{
    reader_and_judge_leave_one_row::<S, C>();
    reader_and_answers_leave_one_row::<S, C>();
}
