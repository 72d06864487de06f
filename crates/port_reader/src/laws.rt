//! What a reader and a judge leave of a port together. Each function does nothing: its contract is the law.

ghost use Rattle.std.specs.Prelude.{◌≡◌, ℕ, List, Option, Some};
ghost use mathlib.Core.List.{IsPrefix};
ghost use Rattle.savi_kinds.specs.declared.plan.Format.{Format};
ghost use Rattle.savi_kinds.specs.declared.entry.How.{How};
ghost use Rattle.savi_kinds.specs.Arrivals.{Arrival};
ghost use Rattle.parcel_ring.specs.Handed.{Handed};
ghost use Rattle.port_reader.specs.Rows.{WasPut, whole};
ghost use Rattle.port_reader.specs.Judging.{JudgesSo, EnteredRow};

/// Law: an input that came whole, in front of another one that did, is that one: only the last of what comes is an end.
pub fn only_the_last_is_an_end()
    ensures { (arrivals taken : List Arrival) (ending how : How) → IsPrefix (whole taken how) (whole arrivals ending)
        → (taken ≡ arrivals) × (how ≡ ending) }
{}

/// Law: where a reader put all of its input, and a judge took a front of that up to an end, what was entered is what the
/// history has to hold of the port's source and clock.
pub fn reader_and_judge_leave_one_row<S, C>()
    ensures { (left : S → Option (List ℕ)) (faults : S → ℕ) (readings : C → Option (List ℕ)) (format : Format)
        (put taken : List Handed) (kept : Option Handed) (entered : List Arrival) (ending : How) (source new_source : S) (clock new_clock : C)
        → WasPut left faults readings format put source new_source clock new_clock → JudgesSo entered (Some ending) taken kept
        → IsPrefix taken put
        → EnteredRow left faults readings format entered (Some ending) source new_source clock new_clock }
{}
