//! What the reader of control and who answers its lines leave together. Each function does nothing: its contract is the law.

ghost use Rattle.std.specs.Prelude.{ℕ, List, Option, Some};
ghost use mathlib.Core.List.{IsPrefix};
ghost use Rattle.savi_kinds.specs.declared.entry.How.{How};
ghost use Rattle.cli_lang.specs.Arrivals.{Line};
ghost use Rattle.control_reader.specs.Heard.{HeardLine};
ghost use Rattle.control_reader.specs.Answered.{AnswersSo};
ghost use Rattle.control_reader.specs.Rows.{SourceRow, WerePut};

/// Law: where a reader put all lines of its input, and a front of that was taken up to control's end, the lines that were
/// entered are what the history has to hold of control's source and clock.
pub fn reader_and_answers_leave_one_row<S, C>()
    ensures { (left : S → Option (List ℕ)) (faults : S → ℕ) (readings : C → Option (List ℕ)) (put taken : List HeardLine)
        (kept : Option HeardLine) (entered : List Line) (ending : How) (source new_source : S) (clock new_clock : C)
        → WerePut left faults readings put source new_source clock new_clock → AnswersSo entered (Some ending) taken kept
        → IsPrefix taken put
        → SourceRow left faults readings entered ending source new_source clock new_clock }
{}
