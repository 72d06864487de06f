//! The audit of a whole text.

ghost use Rattle.std.specs.Prelude.{◌≡◌, ◌≢◌, ◌⊎◌, ◌≤◌, ℕ, IfSome};
ghost use Rattle.savi_ends.specs.Faults.{Rose};
ghost use Rattle.journal_check.specs.Answers.{HasReadHeader, IfRead, IsAnswer};
ghost use Rattle.journal_check.specs.Laws.{IsFinishedJournal};
ghost use Rattle.journal_check.specs.Pieces.{GaveSome};
ghost use Rattle.audit_run.specs.Auditing.{IsUnbegun};
ghost use Rattle.audit_run.specs.Audited.{Audits};

use crate::auditor::Auditor;
use journal_check::{Checked, check_with, octets_have_one_history};
use savi_ends::{Sink, Source};
use std::alloc::Global;

/// Checks the text that a source gives up as `check` does, with the same answer, and audits the entries in front of the
/// first fault: where the source tells its text, each of them, in order. Where a read failed, the first ones were audited, and
/// where there was no memory, or a line of the header is bad, none.
///
/// It costs what `check` does, and beside it what `Snoop::judge` costs for each frame that passed. All memory is taken
/// before the first entry is judged.
pub fn audit<S: Source, K: Sink>(alloc: Global, source: &mut S, auditor: &mut Auditor<K>) -> Checked
    ensures later { S.faults source.old ≤ S.faults source.new }
    ensures cause { result ≡ Checked.Failed → Rose (S.faults source.old) (S.faults source.new) }
    ensures still { result ≢ Checked.Failed → S.faults source.new ≡ S.faults source.old }
    ensures gave { GaveSome (S.left source.old) (S.left source.new) }
    ensures memory { result ≡ Checked.NoMemory → (source.new ≡ source.old) ⊎ HasReadHeader (S.left source.old) (S.left source.new) }
    ensures answer { IfRead result (IfSome (S.left source.old) (λ octets. IsAnswer octets result)) }
    ensures only { IfRead result (IfSome (S.left source.old) (λ octets. (answer : Checked) → IsAnswer octets answer → result ≡ answer)) }
    ensures good { (entries : ℕ) → result ≡ Checked.Good entries → IfSome (S.left source.old) (λ octets. IsFinishedJournal octets entries) }
    ensures journal { (entries : ℕ) → IfRead result (IfSome (S.left source.old) (λ octets. IsFinishedJournal octets entries → result ≡ Checked.Good entries)) }
    ensures audits { (first : K) → IsUnbegun K.written K.faults first auditor.old → Audits K.written K.faults first (S.left source.old) result auditor.old auditor.new }
{
    octets_have_one_history();
    check_with(alloc, source, auditor)
}
