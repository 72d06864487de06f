//! The lines in front of the entries of a segment, behind those of the segment before it.

ghost use Rattle.std.specs.Prelude.{◌≡◌, ◌≢◌, ◌+◌, ◌∷◌, ◌++◌, ◌^◌, ◌≤◌, ◌<◌, ℕ, List, [], Err, true, length, IfErr, IfOk, IfSome};
ghost use Rattle.savi_kinds.specs.Characters.{line_feed};
ghost use Rattle.hist_store.specs.TextOfLines.{lines_text};
ghost use Rattle.savi_ends.specs.Octets.{in_front};
ghost use Rattle.savi_ends.specs.Faults.{Rose};
ghost use Rattle.savi_history.specs.Endings.{has_pause};
ghost use Rattle.savi_history.specs.Legal.{IsFinished};
ghost use Rattle.savi_core.specs.Machines.{base_of};
ghost use Rattle.savi_core.specs.Turns.{IsTurned};
ghost use Rattle.journal_check.specs.declared.answer.Checked.{Checked};
ghost use Rattle.journal_check.specs.Feeds.{HasNoFeed};
ghost use Rattle.journal_check.specs.Pieces.{GaveSome, to_come};
ghost use Rattle.journal_check.specs.Fronts.{opening_lines};
ghost use Rattle.journal_check.specs.Openings.{BreaksAt, OpensSegment};
ghost use Rattle.journal_check.specs.Answers.{IfRead};
ghost use Rattle.journal_check.specs.Judging.{checked_of};

use crate::answer::Judged;
use crate::lines::{Lines, Taken};
use hist_store::JournalLine;
use savi_core::Core;
use savi_ends::Source;

/// What stands before the entries of a segment: how many lines, and how many segments, with how many entries.
#[derive(Clone, Copy, PartialEq, Eq, Debug)]
pub struct Before {
    pub lines: u64,
    pub segments: u64,
    pub entries: u64,
}

/// Goes on with a next segment, behind the last line of one that is left for it, and reads the lines in front of its
/// entries. The result is what stands before these; `Err` is what the text is where another line comes, or that a read
/// failed. It costs what the switch takes for going on, beside O(n) in the octets.
pub fn begin_segment<S: Source>(
    core: &mut Core,
    before: Before,
    lines: &mut Lines,
    source: &mut S,
    line: &mut JournalLine,
) -> Result<Before, Judged>
    requires finished { IsFinished core.old.plan (base_of core.old) core.old.past }
    requires paused { has_pause core.old.past ≡ true }
    requires lines { before.lines + length core.old.past < 2 ^ 63 }
    requires segments { before.segments < 2 ^ 63 }
    requires entries { before.entries + length core.old.past < 2 ^ 63 }
    ensures later { S.faults source.old ≤ S.faults source.new }
    ensures cause { IfErr result (λ judged. judged ≡ Judged.Failed → Rose (S.faults source.old) (S.faults source.new)) }
    ensures still { result ≢ Err Judged.Failed → S.faults source.new ≡ S.faults source.old }
    ensures gave { GaveSome (S.left source.old) (S.left source.new) }
    ensures turned { IsTurned core.old core.new }
    ensures opened { IfOk result (λ next. OpensSegment core.old core.new before next (to_come lines.old (S.left source.old)) (to_come lines.new (S.left source.new))) }
    ensures further { IfOk result (λ next. lines.old.place + next.lines ≤ lines.new.place + (before.lines + length core.old.past + 1)) }
    ensures bad { IfErr result (λ judged. IfRead (checked_of judged) (IfSome (to_come lines.old (S.left source.old))
        (λ octets. BreaksAt (opening_lines core.old.plan (base_of core.new)) (before.lines + length core.old.past + 1) octets (checked_of judged)))) }
{
    let lines_before = before.lines + core.len() + 1;
    let entries = before.entries + core.len();
    core.turn();
    let count = read_opening(core, lines_before, lines, source, line)?;
    Ok(Before {
        lines: lines_before + count,
        segments: before.segments + 1,
        entries,
    })
}

// Reads the lines in front of the entries of a segment, behind so many lines: those of what its history goes on from, and
// `begin`. The result is how many they are.
fn read_opening<S: Source>(
    core: &Core,
    before: u64,
    lines: &mut Lines,
    source: &mut S,
    line: &mut JournalLine,
) -> Result<u64, Judged>
    requires { before ≤ 2 ^ 63 }
    ensures later { S.faults source.old ≤ S.faults source.new }
    ensures cause { IfErr result (λ judged. judged ≡ Judged.Failed → Rose (S.faults source.old) (S.faults source.new)) }
    ensures still { result ≢ Err Judged.Failed → S.faults source.new ≡ S.faults source.old }
    ensures gave { GaveSome (S.left source.old) (S.left source.new) }
    ensures count { IfOk result (λ count. (count ≡ length (opening_lines core.now.plan (base_of core.now))) × (count ≤ 2 ^ 32)) }
    ensures read { IfOk result (λ count. to_come lines.old (S.left source.old)
        ≡ in_front (lines_text (opening_lines core.now.plan (base_of core.now))) (to_come lines.new (S.left source.new))) }
    ensures further { IfOk result (λ count. lines.old.place + count ≤ lines.new.place) }
    ensures bad { IfErr result (λ judged. IfRead (checked_of judged) (IfSome (to_come lines.old (S.left source.old))
        (λ octets. BreaksAt (opening_lines core.now.plan (base_of core.now)) before octets (checked_of judged)))) }
{
    let mut wanted = JournalLine::new();
    let mut i = 0;
    while core.put_base(i, &mut wanted) {
        read_wanted(
            wanted.as_slice(),
            before + u64::from(i),
            lines,
            source,
            line,
        )?;
        i += 1;
    }
    read_wanted(b"begin", before + u64::from(i), lines, source, line)?;
    Ok(u64::from(i) + 1)
}

// Reads the next line, which should be this one, behind so many others. `Err` is what the text is where it is another one.
fn read_wanted<S: Source>(
    wanted: &[u8],
    before: u64,
    lines: &mut Lines,
    source: &mut S,
    line: &mut JournalLine,
) -> Result<(), Judged>
    requires plain { HasNoFeed wanted.now }
    requires short { length wanted.now ≤ 3400 }
    requires few { before + 1 < 2 ^ 64 }
    ensures later { S.faults source.old ≤ S.faults source.new }
    ensures cause { IfErr result (λ judged. judged ≡ Judged.Failed → Rose (S.faults source.old) (S.faults source.new)) }
    ensures still { result ≢ Err Judged.Failed → S.faults source.new ≡ S.faults source.old }
    ensures gave { GaveSome (S.left source.old) (S.left source.new) }
    ensures read { IfOk result (λ done. to_come lines.old (S.left source.old) ≡ in_front (wanted.now ++ line_feed ∷ []) (to_come lines.new (S.left source.new))) }
    ensures further { IfOk result (λ done. lines.old.place < lines.new.place) }
    ensures bad { IfErr result (λ judged. IfRead (checked_of judged) ((checked_of judged ≡ Checked.BadLine (before + 1))
        × IfSome (to_come lines.old (S.left source.old)) (λ octets. (more : List ℕ) → octets ≢ wanted.now ++ line_feed ∷ more))) }
{
    match lines.next(source, line) {
        Taken::Line => {}
        Taken::Broken => return Err(Judged::BadLine { n: before + 1 }),
        Taken::Failed => return Err(Judged::Failed),
    }
    if line.as_slice() == wanted {
        Ok(())
    } else {
        Err(Judged::BadLine { n: before + 1 })
    }
}
