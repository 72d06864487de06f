//! The end of a run: its summary, its lines on standard error and its status.

ghost use Rattle.std.specs.Prelude.{◌≡◌, IfNone, IfSome, List};
ghost use Rattle.hist_store.specs.Rows.{Row};
ghost use Rattle.savi_ends.specs.declared.world.Std.{Std};
ghost use Rattle.savi_ends.specs.Places.{IsReady, OthersStay};
ghost use Rattle.savi_history.specs.Shown.{counts_of};
ghost use Rattle.savi_history.specs.Summary.{summary_text};
ghost use Rattle.savi_segments.specs.Counted.{all_dropped, summary_by};
ghost use Rattle.savi_segments.specs.Segments.{joined};
ghost use Rattle.savi_segments.specs.Unbroken.{unbroken};
ghost use Rattle.savi_core.specs.Machines.{base_of};
ghost use Rattle.switch_report.specs.Sums.{sum_of};
ghost use Rattle.switch_report.specs.RunLines.{memory_line};
ghost use Rattle.switch_run.specs.Causes.{Keeps, TookOrPart};
ghost use Rattle.switch_run.specs.Played.{IsOutcomeOf};
ghost use Rattle.switch_run.specs.Session.{IsSummed, ToldBy, told_status};

use crate::ends_told::tell_told;
use crate::outcome::Outcome;
use crate::top::{MALFORMED, NO_MEMORY, READ_FAULT, WRITE_FAULT};
use savi_core::Core;
use savi_ends::{Put, Sink, Std, World};
use savi_kinds::{How, Who};
use switch_report::{
    Summary, put_summary, tell_memory, told_failed, told_failed_write, told_malformed,
};

/// The counters of rules, which stand in front of the others.
const RULES: u32 = 23;

/// Writes the summary of a session, tells standard error how it ended, and answers the status. `None` is that there was no
/// memory.
pub fn conclude<W: World>(outcome: Option<Outcome>, world: &mut W, errors: &mut W::K) -> u8
    requires { IsReady (λ k. W.K.faults k ≡ 0) ((W.book world.old).std Std.Out) }
    ensures none { IfNone outcome ((result ≡ 1) × (ToldBy W.K.faults W.K.written errors.old errors.new memory_line × (W.book world.new ≡ W.book world.old))) }
    ensures some { IfSome outcome (λ o. (segments : List (List Row)) → IsOutcomeOf segments o → IsSummed W.K.written W.K.faults (ToldBy W.K.faults W.K.written errors.old errors.new) (joined segments) (unbroken segments) o.journal_written ((W.book world.old).std Std.Out) ((W.book world.new).std Std.Out) result) }
    ensures others { OthersStay (W.book world.old).std (W.book world.new).std Std.Out }
    ensures rest { W.book world.new ≡ record (W.book world.old) { std = (W.book world.new).std } }
{
    let Some(outcome) = outcome else {
        let _put = tell_memory(errors);
        return NO_MEMORY;
    };
    let journal_written = outcome.journal_written;
    let summary_written = write_summary(sum_up(&outcome.core, outcome.entries), world);
    tell_told(outcome.ends.as_slice(), journal_written, errors);
    status_told(outcome.ends.as_slice(), journal_written && summary_written)
}

/// The summary of so many entries by the counters of a switch. O(1).
pub(crate) fn sum_up(core: &Core, entries: u64) -> Summary
    ensures { sum_of result ≡ summary_by entries (counts_of (base_of core.now) core.now.past) }
{
    let dropped = all_dropped(core);
    let passed = core.count(RULES);
    Summary {
        entries,
        frames: passed.saturating_add(dropped),
        passed,
        dropped,
        cut: core.count(RULES + 1),
        probes: core.count(RULES + 2),
        lost: core.count(RULES + 3),
    }
}

// How many frames all rules dropped.
fn all_dropped(core: &Core) -> u64
    ensures { result ≡ all_dropped (counts_of (base_of core.now) core.now.past) }
{
    let mut dropped: u64 = 0;
    for i in 0..RULES {
        dropped = dropped.saturating_add(core.count(i));
    }
    dropped
}

// The status by how passes ended for good, and by whether all was written.
fn status_told(ends: &[(Who, How)], written: bool) -> u8
    ensures { result ≡ told_status written ends.now }
{
    if told_failed(ends) {
        READ_FAULT
    } else if told_failed_write(ends) || !written {
        WRITE_FAULT
    } else if told_malformed(ends) {
        MALFORMED
    } else {
        0
    }
}

/// Writes the summary to standard output. The answer is false where the write failed.
pub(crate) fn write_summary<W: World>(summary: Summary, world: &mut W) -> bool
    requires { IsReady (λ k. W.K.faults k ≡ 0) ((W.book world.old).std Std.Out) }
    ensures took { Keeps (TookOrPart W.K.faults W.K.written result (summary_text (sum_of summary))) ((W.book world.old).std Std.Out) ((W.book world.new).std Std.Out) }
    ensures others { OthersStay (W.book world.old).std (W.book world.new).std Std.Out }
    ensures rest { W.book world.new ≡ record (W.book world.old) { std = (W.book world.new).std } }
{
    let line = put_summary(summary);
    write_line(line.as_slice(), world)
}

/// Writes a line to standard output. The answer is false where the write failed.
pub(crate) fn write_line<W: World>(line: &[u8], world: &mut W) -> bool
    requires { IsReady (λ k. W.K.faults k ≡ 0) ((W.book world.old).std Std.Out) }
    ensures took { Keeps (TookOrPart W.K.faults W.K.written result line.now) ((W.book world.old).std Std.Out) ((W.book world.new).std Std.Out) }
    ensures others { OthersStay (W.book world.old).std (W.book world.new).std Std.Out }
    ensures rest { W.book world.new ≡ record (W.book world.old) { std = (W.book world.new).std } }
{
    let mut out = world.std(Std::Out);
    let put = out.write(line);
    world.keep_std(Std::Out, out);
    match put {
        Put::Done => true,
        Put::Failed => false,
    }
}
