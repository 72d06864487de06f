//! Judges the lines behind a header, one by one, with a switch that enters each event again.

ghost use Rattle.std.specs.Prelude.{◌≡◌, ◌<◌, ◌^◌, ◌↔◌, ℕ, List, Some, length, IfNone, IfSome, IsTrue};
ghost use Rattle.hist_store.specs.Rows.{Row};
ghost use Rattle.hist_store.specs.TextOfLines.{joined};
ghost use Rattle.hist_store.specs.LineTexts.{FitsLine, line_fields};
ghost use Rattle.hist_store.specs.EntryLines.{SaysEntry, act_said};
ghost use Rattle.hist_store.specs.JournalTexts.{journal_end_line};
ghost use Rattle.journal_check.specs.Differing.{first_apart, IsField, IsSameComputed, IsSameQueued};
ghost use Rattle.journal_check.specs.Turns.{MadeTurn};

use crate::apart::{Apart, first_apart, none_wanted, numbers_apart};
use crate::coming::is_finished;
use crate::putting::{Put, put_event};
use arrayvec::ArrayVec;
use hist_store::{JournalLine, put_line, read_line, read_setting};
use savi_core::{Batch, Core};
use savi_kinds::{Entry, Moment, PortSet, Rule, Scope, Verdict};

/// What a line is behind the lines before it.
#[derive(Drop)]
pub enum Turn {
    /// The line of an entry that stands, and that was entered.
    Stands,
    /// The line of the next entry, which can't stand.
    Wrong(Apart),
    /// The last line of a finished history.
    Last,
    /// Another line.
    Bad,
}

/// Judges a line, and enters the event of its entry where that may come. It costs what the switch takes for the event,
/// beside O(n) in the octets of the line.
pub fn take_turn(core: &mut Core, batch: &mut Batch, line: &[u8]) -> Turn
    ensures { MadeTurn core.old line.now core.new result }
{
    let mut octets = ArrayVec::new();
    match read_line(line, &mut octets) {
        Some(read) => judge_numbered(core, batch, read.0, &read.1, octets.as_slice(), line),
        None => last(core, line),
    }
}

// Judges the line of the entry with this number and these octets.
fn judge_numbered(
    core: &mut Core,
    batch: &mut Batch,
    n: u64,
    entry: &Entry,
    octets: &[u8],
    line: &[u8],
) -> Turn
    requires { SaysEntry line.now n (record { entry = entry.now; octets = octets.now }) }
    ensures { MadeTurn core.old line.now core.new result }
{
    if n == core.len() {
        judge(core, batch, entry, octets, line)
    } else {
        Turn::Bad
    }
}

// Judges a line that isn't that of an entry.
fn last(core: &Core, line: &[u8]) -> Turn
    requires { (row : Row) → ¬ SaysEntry line.now (length core.now.past) row }
    ensures { MadeTurn core.now line.now core.now result }
{
    if !is_last_line(line, core.len()) {
        return Turn::Bad;
    }
    if is_finished(core) {
        Turn::Last
    } else {
        Turn::Bad
    }
}

// Whether a line is the last one of a journal with so many entries.
fn is_last_line(line: &[u8], count: u64) -> bool
    ensures { IsTrue result ↔ (line.now ≡ joined (journal_end_line count)) }
{
    match read_setting(line, "end") {
        Some(said) => said == count,
        None => false,
    }
}

// Judges the line of the next entry, with these octets.
fn judge(core: &mut Core, batch: &mut Batch, entry: &Entry, octets: &[u8], line: &[u8]) -> Turn
    requires { SaysEntry line.now (length core.old.past) (record { entry = entry.now; octets = octets.now }) }
    ensures { MadeTurn core.old line.now core.new result }
{
    let n = core.len();
    match put_event(core, batch, entry, octets) {
        Put::Entered(want) => match compare(n, want, entry, octets, line) {
            None => Turn::Stands,
            Some(apart) => Turn::Wrong(apart),
        },
        Put::Never => Turn::Wrong(none_wanted(&entry.act)),
        Put::Other(want, have) => Turn::Wrong(numbers_apart(want, have)),
    }
}

// The first computed fields that differ of the entry that stands for an event and of the one that the line has.
fn compare(n: u64, want: Entry, have: &Entry, octets: &[u8], line: &[u8]) -> Option<Apart>
    requires fits { FitsLine (record { entry = want; octets = octets.now }) }
    requires says { SaysEntry line.now n (record { entry = have.now; octets = octets.now }) }
    requires act { act_said want.act ≡ have.now.act }
    ensures same { IfNone result (IsSameComputed want have.now) }
    ensures apart { IfSome result (λ apart. first_apart (line_fields n (record { entry = want; octets = octets.now }))
        (line_fields n (record { entry = have.now; octets = octets.now })) ≡ Some (apart.want, apart.have)) }
{
    if is_same(&want, have) {
        None
    } else {
        know_fits(
            want.by,
            want.moment,
            want.outs,
            want.cuts,
            want.probes,
            want.lost,
        );
        Some(fields_apart(n, &want, octets, line))
    }
}

// Each number that is computed of an event fits its field.
fn know_fits(by: u32, moment: Moment, outs: PortSet, cuts: PortSet, probes: u32, lost: u32)
    ensures by { by < 2 ^ 32 }
    ensures moment { moment < 2 ^ 64 }
    ensures outs { outs.0 < 2 ^ 16 }
    ensures cuts { cuts.0 < 2 ^ 16 }
    ensures probes { probes < 2 ^ 32 }
    ensures lost { lost < 2 ^ 32 }
{}

// Whether what is computed of two entries of one event is the same.
fn is_same(want: &Entry, have: &Entry) -> bool
    ensures { IsTrue result ↔ IsSameComputed want.now have.now }
{
    want.by == have.by
        && want.moment == have.moment
        && is_same_verdict(want.verdict, have.verdict)
        && has_same_queued(want, have)
}

// Whether two verdicts are one, or there is neither.
fn is_same_verdict(want: Option<Verdict>, have: Option<Verdict>) -> bool
    ensures { IsTrue result ↔ (want ≡ have) }
{
    match (want, have) {
        (None, None) => true,
        (Some(Verdict::Pass(want)), Some(Verdict::Pass(have))) => is_same_scope(want, have),
        (Some(Verdict::Drop(want)), Some(Verdict::Drop(have))) => is_same_rule(want, have),
        _ => false,
    }
}

fn is_same_scope(want: Scope, have: Scope) -> bool
    ensures { IsTrue result ↔ (want ≡ have) }
{
    match (want, have) {
        (Scope::All, Scope::All) | (Scope::TrustedOnly, Scope::TrustedOnly) => true,
        (Scope::TrustedAnd(want), Scope::TrustedAnd(have)) => want == have,
        _ => false,
    }
}

fn is_same_rule(want: Rule, have: Rule) -> bool
    ensures { IsTrue result ↔ (want ≡ have) }
{
    want == have
}

// Whether as much was queued and left out.
fn has_same_queued(want: &Entry, have: &Entry) -> bool
    ensures { IsTrue result ↔ IsSameQueued want.now have.now }
{
    want.outs == have.outs
        && want.cuts == have.cuts
        && want.probes == have.probes
        && want.lost == have.lost
}

// The first fields that differ of the line of an entry and of a line.
fn fields_apart(n: u64, want: &Entry, octets: &[u8], line: &[u8]) -> Apart
    requires fits { FitsLine (record { entry = want.now; octets = octets.now }) }
    ensures { (have : Row) (field other : List ℕ) → SaysEntry line.now n have
        → first_apart (line_fields n (record { entry = want.now; octets = octets.now })) (line_fields n have) ≡ Some (field, other)
        → IsField field → IsField other → (result.want ≡ field) × (result.have ≡ other) }
{
    let mut again = JournalLine::new();
    put_line(n, want, octets, &mut again);
    first_apart(again.as_slice(), line)
}
