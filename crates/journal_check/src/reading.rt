//! The check of a whole text.

ghost use Rattle.std.specs.Prelude.{◌≡◌, ◌≢◌, ◌⊎◌, ◌↔◌, ◌≤◌, ◌<◌, ◌^◌, ℕ, true, [], IfOk, IfSome, IsTrue, OnErr};
ghost use Rattle.savi_ends.specs.Octets.{in_front};
ghost use Rattle.savi_ends.specs.Faults.{Rose};
ghost use Rattle.hist_store.specs.declared.version.Version.{Version};
ghost use Rattle.checkpoint.specs.Bases.{empty};
ghost use Rattle.savi_history.specs.Endings.{has_pause};
ghost use Rattle.savi_core.specs.Machines.{base_of, started};
ghost use Rattle.journal_check.specs.Seen.{seen};
ghost use Rattle.journal_check.specs.Pieces.{GaveSome, seen_if_told, to_come};
ghost use Rattle.journal_check.specs.Headers.{IsPlan, head_text};
ghost use Rattle.journal_check.specs.Answers.{Ends, HasReadHeader, IfRead, IsAnswer, IsAnswerBehind};
ghost use Rattle.journal_check.specs.Watched.{HasWatched, IsGiven, IsWatched};
ghost use Rattle.journal_check.specs.Judging.{checked_of};
ghost use Rattle.journal_check.specs.Laws.{IsFinishedJournal};

use crate::answer::{Checked, Judged};
use crate::apart::Apart;
use crate::header::{header_length, read_header};
use crate::laws::{octets_have_one_answer, octets_have_one_history};
use crate::lines::{Behind, Lines, Taken};
use crate::lists::Lists;
use crate::openings::{Before, begin_segment};
use crate::turns::{Turn, take_turn};
use crate::watcher::{NoWatcher, Watcher, give_newest};
use hist_store::{JournalLine, Version};
use savi_core::{Batch, Core};
use savi_ends::Source;
use savi_kinds::Plan;
use std::alloc::{AllocError, Global};

/// Checks the text that a source gives up, in either version. It costs what a switch takes for the events and for going on
/// from segment to segment, beside O(n) in the octets; the memory is that of one segment.
///
/// The answer is the one that the octets have (`specs/Answers.antt`), where the source tells them: `Good` exactly where
/// they are the journal of a whole session, in at most 2^62 octets. `Failed` comes exactly where a read failed, and no
/// read is tried again. All memory is taken before the first entry is judged: `NoMemory` comes only where nothing was
/// read, or the header.
pub fn check<S: Source>(alloc: Global, source: &mut S) -> Checked
    ensures later { S.faults source.old ≤ S.faults source.new }
    ensures cause { result ≡ Checked.Failed → Rose (S.faults source.old) (S.faults source.new) }
    ensures still { result ≢ Checked.Failed → S.faults source.new ≡ S.faults source.old }
    ensures gave { GaveSome (S.left source.old) (S.left source.new) }
    ensures memory { result ≡ Checked.NoMemory → (source.new ≡ source.old) ⊎ HasReadHeader (S.left source.old) (S.left source.new) }
    ensures answer { IfRead result (IfSome (S.left source.old) (λ octets. IsAnswer octets result)) }
    ensures only { IfRead result (IfSome (S.left source.old) (λ octets. (answer : Checked) → IsAnswer octets answer → result ≡ answer)) }
    ensures good { (entries : ℕ) → result ≡ Checked.Good entries → IfSome (S.left source.old) (λ octets. IsFinishedJournal octets entries) }
    ensures journal { (entries : ℕ) → IfRead result (IfSome (S.left source.old) (λ octets. IsFinishedJournal octets entries → result ≡ Checked.Good entries)) }
{
    let mut watcher = NoWatcher;
    check_with(alloc, source, &mut watcher)
}

/// Checks a text as `check` does, with the same answer, and gives a watcher the entries that stand.
///
/// Behind the header `begin` is called once, and then `entry` for each entry in front of the first fault, once and in
/// order, over all segments (`specs/Watched.antt`): for all of them where the text is `Good`, and for the first ones where a
/// read failed. Where a line of the header is bad, its reading failed or memory was wanting, the watcher is as it was; what
/// `begin` is refused is `NoMemory`. It costs what `check` does, and O(1) a call beside the watcher's own.
pub fn check_with<S: Source, W: Watcher>(alloc: Global, source: &mut S, watcher: &mut W) -> Checked
    ensures later { S.faults source.old ≤ S.faults source.new }
    ensures cause { result ≡ Checked.Failed → Rose (S.faults source.old) (S.faults source.new) }
    ensures still { result ≢ Checked.Failed → S.faults source.new ≡ S.faults source.old }
    ensures gave { GaveSome (S.left source.old) (S.left source.new) }
    ensures memory { result ≡ Checked.NoMemory → (source.new ≡ source.old) ⊎ HasReadHeader (S.left source.old) (S.left source.new) }
    ensures answer { IfRead result (IfSome (S.left source.old) (λ octets. IsAnswer octets result)) }
    ensures only { IfRead result (IfSome (S.left source.old) (λ octets. (answer : Checked) → IsAnswer octets answer → result ≡ answer)) }
    ensures good { (entries : ℕ) → result ≡ Checked.Good entries → IfSome (S.left source.old) (λ octets. IsFinishedJournal octets entries) }
    ensures journal { (entries : ℕ) → IfRead result (IfSome (S.left source.old) (λ octets. IsFinishedJournal octets entries → result ≡ Checked.Good entries)) }
    ensures watched { IsWatched W.begins W.sees (seen_if_told (2 ^ 62) (S.left source.old)) result watcher.old watcher.new }
    ensures given { IfRead result (IfSome (S.left source.old) (λ octets. IsGiven W.begins W.sees (seen octets) result watcher.old watcher.new)) }
{
    octets_have_one_answer();
    octets_have_one_history();
    let Ok(lists) = Lists::make(alloc) else {
        return Checked::NoMemory;
    };
    let mut lines = Lines::new();
    match read_header(alloc, lists, &mut lines, source) {
        Ok((version, plan)) => check_behind(alloc, version, plan, &mut lines, source, watcher),
        Err(judged) => judged.checked(),
    }
}

// Checks what stands behind the header of a plan. The last memory is taken before anything of that is read.
fn check_behind<S: Source, W: Watcher>(
    alloc: Global,
    version: Version,
    plan: Plan,
    lines: &mut Lines,
    source: &mut S,
    watcher: &mut W,
) -> Checked
    requires { IsPlan plan }
    ensures later { S.faults source.old ≤ S.faults source.new }
    ensures cause { result ≡ Checked.Failed → Rose (S.faults source.old) (S.faults source.new) }
    ensures still { result ≢ Checked.Failed → S.faults source.new ≡ S.faults source.old }
    ensures gave { GaveSome (S.left source.old) (S.left source.new) }
    ensures memory { result ≡ Checked.NoMemory → (source.new ≡ source.old) × (lines.new ≡ lines.old) }
    ensures answer { IfRead result (IfSome (in_front (head_text version plan) (to_come lines.old (S.left source.old)))
        (λ octets. IsAnswerBehind octets result)) }
    ensures watched { IsWatched W.begins W.sees (in_front (head_text version plan) (to_come lines.old (S.left source.old))) result watcher.old watcher.new }
{
    match make(alloc, plan, watcher) {
        Ok(made) => {
            let (mut core, mut batch) = made;
            check_segments(version, &mut core, &mut batch, lines, source, watcher).checked()
        }
        Err(_) => Checked::NoMemory,
    }
}

// The switch that enters the events again, and a watcher that has begun. All memory of both is taken here.
fn make<W: Watcher>(alloc: Global, plan: Plan, watcher: &mut W) -> Result<(Core, Batch), AllocError>
    requires { IsPlan plan }
    ensures made { IfOk result (λ made. (made.0 ≡ started plan) × W.begins watcher.old plan watcher.new) }
    ensures refused { OnErr result (watcher.new ≡ watcher.old) }
{
    let batch = Batch::make(alloc)?;
    let core = Core::make(alloc, plan)?;
    watcher.begin(alloc, core.plan())?;
    Ok((core, batch))
}

// Judges the lines behind the header, with a switch at its start, which goes on where a segment ends and a next one may
// follow. A watcher that has begun is given the entries.
fn check_segments<S: Source, W: Watcher>(
    version: Version,
    core: &mut Core,
    batch: &mut Batch,
    lines: &mut Lines,
    source: &mut S,
    watcher: &mut W,
) -> Judged
    requires plan { IsPlan core.old.plan }
    requires base { base_of core.old ≡ empty }
    requires start { core.old.past ≡ [] }
    requires begun { (before : W) × W.begins before core.old.plan watcher.old }
    ensures later { S.faults source.old ≤ S.faults source.new }
    ensures cause { result ≡ Judged.Failed → Rose (S.faults source.old) (S.faults source.new) }
    ensures still { result ≢ Judged.Failed → S.faults source.new ≡ S.faults source.old }
    ensures gave { GaveSome (S.left source.old) (S.left source.new) }
    ensures watched { HasWatched W.sees version core.old.plan (in_front (head_text version core.old.plan) (to_come lines.old (S.left source.old)))
        (checked_of result) watcher.old watcher.new }
{
    let mut line = JournalLine::new();
    let mut before = Before {
        lines: header_length(core.plan()),
        segments: 0,
        entries: 0,
    };
    'turns: loop {
        let entry = before.entries + core.len();
        let number = before.lines + core.len() + 1;
        match lines.next(source, &mut line) {
            Taken::Line => {}
            Taken::Broken => return Judged::BadLine { n: number },
            Taken::Failed => return Judged::Failed,
        }
        match take_turn(core, batch, line.as_slice()) {
            Turn::Stands => give_newest(core, before.segments, watcher),
            Turn::Wrong(apart) => return wrong(entry, apart),
            Turn::Bad => return Judged::BadLine { n: number },
            Turn::Last => {
                if !goes_on(version, core) {
                    return finish(core, entry, number, lines, source);
                }
                match begin_segment(core, before, lines, source, &mut line) {
                    Ok(next) => before = next,
                    Err(judged) => return judged,
                }
            }
        }
    }
}

// The entry of this number is the first that can't stand.
fn wrong(entry: u64, apart: Apart) -> Judged
    ensures { result ≡ Judged.Wrong entry apart.want apart.have }
{
    Judged::Wrong {
        entry,
        want: apart.want,
        have: apart.have,
    }
}

// Whether a segment that is finished goes on in a next one, which a text of version 1 hasn't.
fn goes_on(version: Version, core: &Core) -> bool
    ensures { IsTrue result ↔ ((version ≡ Version.Two) × (has_pause core.now.past ≡ true)) }
{
    version == Version::Two && core.has_pause()
}

// What the text is where the last line of a segment that none may follow was taken, whose number is this one, and that has
// the last of so many entries: nothing may come behind it, and no input may be paused.
fn finish<S: Source>(
    core: &Core,
    entries: u64,
    number: u64,
    lines: &mut Lines,
    source: &mut S,
) -> Judged
    requires { number < 2 ^ 63 }
    ensures later { S.faults source.old ≤ S.faults source.new }
    ensures cause { result ≡ Judged.Failed → Rose (S.faults source.old) (S.faults source.new) }
    ensures still { result ≢ Judged.Failed → S.faults source.new ≡ S.faults source.old }
    ensures gave { GaveSome (S.left source.old) (S.left source.new) }
    ensures ends { Ends core.now.past entries number (to_come lines.old (S.left source.old)) (checked_of result) }
{
    if core.has_pause() {
        return Judged::BadLine { n: number + 1 };
    }
    match lines.fill(source) {
        Behind::Nothing => Judged::Good { entries },
        Behind::More => Judged::BadLine { n: number + 1 },
        Behind::Failed => Judged::Failed,
    }
}
