//! The header of a journal.

ghost use Rattle.std.specs.Prelude.{◌≡◌, ◌≢◌, ◌+◌, ◌<◌, ◌≤◌, ◌∷◌, ◌++◌, [], length, Err, IfErr, IfOk, IfSome};
ghost use Rattle.savi_ends.specs.Octets.{in_front};
ghost use Rattle.savi_ends.specs.Faults.{Rose};
ghost use Rattle.hist_store.specs.TextOfLines.{lines_text};
ghost use Rattle.hist_store.specs.declared.version.Version.TheVariants.{Two};
ghost use Rattle.hist_store.specs.JournalTexts.{begin_line};
ghost use Rattle.journal_check.specs.Pieces.{GaveSome, HasPassed, to_come};
ghost use Rattle.journal_check.specs.Headers.{IsPlan, plan_lines, head_text};
ghost use Rattle.journal_check.specs.SettingLines.{AreSettings, setting_lines};
ghost use Rattle.journal_check.specs.ListLines.{AreLists, list_lines, plan_by};
ghost use Rattle.journal_check.specs.declared.settings.Settings.{Settings};
ghost use Rattle.journal_check.specs.declared.answer.Checked.{Checked};
ghost use Rattle.journal_check.specs.Judging.{checked_of};
ghost use Rattle.journal_check.specs.Answers.{IfRead, IsBadHeader, IsBeforeEntries};

use crate::answer::Judged;
use crate::lines::{Lines, Taken};
use crate::lists::{Added, Lists};
use crate::settings::{SETTING_LINES, Settings};
use hist_store::{JournalLine, Version};
use savi_ends::Source;
use savi_kinds::{Plan, PortPlans, PrefixPlans, Text};
use std::alloc::Global;

/// Reads the header, whose lines are the first ones of a text, and gives its version and the plan that it says, without
/// names. `Err` is what the text is where it has none, or that a read failed. The lists are empty, and no memory is taken.
pub fn read_header<S: Source>(
    alloc: Global,
    lists: Lists,
    lines: &mut Lines,
    source: &mut S,
) -> Result<(Version, Plan), Judged>
    requires { (lists.ports.items ≡ []) × (lists.prefixes.items ≡ []) }
    ensures later { S.faults source.old ≤ S.faults source.new }
    ensures cause { IfErr result (λ judged. judged ≡ Judged.Failed → Rose (S.faults source.old) (S.faults source.new)) }
    ensures still { result ≢ Err Judged.Failed → S.faults source.new ≡ S.faults source.old }
    ensures gave { GaveSome (S.left source.old) (S.left source.new) }
    ensures plan { IfOk result (λ read. IsPlan read.1
        × (to_come lines.old (S.left source.old) ≡ in_front (head_text read.0 read.1) (to_come lines.new (S.left source.new)))) }
    ensures passed { IfOk result (λ read. HasPassed lines.old (S.left source.old) lines.new (S.left source.new)) }
    ensures fault { IfErr result (λ judged. IsBeforeEntries (checked_of judged)) }
    ensures bad { IfErr result (λ judged. IfRead (checked_of judged) (IfSome (to_come lines.old (S.left source.old)) (λ octets. IsBadHeader octets (checked_of judged)))) }
{
    let mut line = JournalLine::new();
    let settings = read_settings(lines, source, &mut line)?;
    let lists = read_lists(alloc, lists, lines, source, &mut line)?;
    let version = settings.version;
    Ok((version, plan_of(alloc, &settings, lists)))
}

/// How many lines the header of a plan has, with the `begin` of the first segment: as many in each version. O(1).
pub fn header_length(plan: &Plan) -> u64
    requires { IsPlan plan.now }
    ensures length { result ≡ length (plan_lines Two plan.now) }
    ensures short { result < 64 }
{
    let ports = plan.ports.as_slice().len() as u64;
    let prefixes = plan.prefixes.as_slice().len() as u64;
    SETTING_LINES as u64 + ports + prefixes + 1
}

// Reads the lines of the settings.
fn read_settings<S: Source>(
    lines: &mut Lines,
    source: &mut S,
    line: &mut JournalLine,
) -> Result<Settings, Judged>
    ensures later { S.faults source.old ≤ S.faults source.new }
    ensures cause { IfErr result (λ judged. judged ≡ Judged.Failed → Rose (S.faults source.old) (S.faults source.new)) }
    ensures still { result ≢ Err Judged.Failed → S.faults source.new ≡ S.faults source.old }
    ensures gave { GaveSome (S.left source.old) (S.left source.new) }
    ensures settings { IfOk result (λ settings. AreSettings settings
        × (to_come lines.old (S.left source.old) ≡ in_front (lines_text (setting_lines settings)) (to_come lines.new (S.left source.new)))) }
    ensures passed { IfOk result (λ settings. HasPassed lines.old (S.left source.old) lines.new (S.left source.new)) }
    ensures fault { IfErr result (λ judged. IsBeforeEntries (checked_of judged)) }
    ensures bad { IfErr result (λ judged. IfRead (checked_of judged) (IfSome (to_come lines.old (S.left source.old)) (λ octets. IsBadHeader octets (checked_of judged)))) }
{
    let mut settings = Settings::new();
    for number in 0..SETTING_LINES {
        match lines.next(source, line) {
            Taken::Line => {}
            Taken::Broken => return Err(bad_setting(number)),
            Taken::Failed => return Err(Judged::Failed),
        }
        if !settings.read(number, line.as_slice()) {
            return Err(bad_setting(number));
        }
    }
    Ok(settings)
}

// The line of the setting with this number, counted from 0, is bad.
fn bad_setting(number: usize) -> Judged
    requires { number < 11 }
    ensures { checked_of result ≡ Checked.BadLine (number + 1) }
{
    Judged::BadLine {
        n: number as u64 + 1,
    }
}

// Reads the lines of the ports and prefixes, and `begin`.
fn read_lists<S: Source>(
    alloc: Global,
    lists: Lists,
    lines: &mut Lines,
    source: &mut S,
    line: &mut JournalLine,
) -> Result<Lists, Judged>
    requires { (lists.ports.items ≡ []) × (lists.prefixes.items ≡ []) }
    ensures later { S.faults source.old ≤ S.faults source.new }
    ensures cause { IfErr result (λ judged. judged ≡ Judged.Failed → Rose (S.faults source.old) (S.faults source.new)) }
    ensures still { result ≢ Err Judged.Failed → S.faults source.new ≡ S.faults source.old }
    ensures gave { GaveSome (S.left source.old) (S.left source.new) }
    ensures lists { IfOk result (λ lists. AreLists lists.ports.items lists.prefixes.items × (0 < length lists.ports.items)
        × (to_come lines.old (S.left source.old) ≡ in_front (lines_text (list_lines lists.ports.items lists.prefixes.items ++ begin_line ∷ [])) (to_come lines.new (S.left source.new)))) }
    ensures passed { IfOk result (λ lists. HasPassed lines.old (S.left source.old) lines.new (S.left source.new)) }
    ensures fault { IfErr result (λ judged. IsBeforeEntries (checked_of judged)) }
    ensures bad { IfErr result (λ judged. IfRead (checked_of judged) ((settings : Settings) → AreSettings settings
        → IfSome (in_front (lines_text (setting_lines settings)) (to_come lines.old (S.left source.old))) (λ octets. IsBadHeader octets (checked_of judged)))) }
{
    let mut lists = lists;
    'listed: loop {
        match lines.next(source, line) {
            Taken::Line => {}
            Taken::Broken => return Err(bad_listed(&lists)),
            Taken::Failed => return Err(Judged::Failed),
        }
        match lists.take(alloc, line.as_slice()) {
            Added::Line => {}
            Added::Begin => return Ok(lists),
            Added::Bad => return Err(bad_listed(&lists)),
        }
    }
}

// The line behind those of the settings and of these lists is bad.
fn bad_listed(lists: &Lists) -> Judged
    requires { AreLists lists.now.ports.items lists.now.prefixes.items }
    ensures { checked_of result ≡ Checked.BadLine (length lists.now.ports.items + length lists.now.prefixes.items + 12) }
{
    let listed = lists.ports.len() + lists.prefixes.len();
    Judged::BadLine {
        n: (SETTING_LINES + listed) as u64 + 1,
    }
}

fn plan_of(alloc: Global, settings: &Settings, lists: Lists) -> Plan
    ensures { result ≡ plan_by settings.now lists.ports.items lists.prefixes.items }
{
    let Lists { ports, prefixes } = lists;
    Plan {
        mac: settings.mac,
        savi: settings.savi,
        drop_unknown: settings.drop_unknown,
        per_port: settings.per_port,
        depth: settings.depth,
        entries: settings.entries,
        bytes: settings.bytes,
        gap: settings.gap,
        test: settings.test,
        life: settings.life,
        control: None,
        journal: Text::new(String::new(alloc)),
        ports: PortPlans::new(ports),
        prefixes: PrefixPlans::new(prefixes),
    }
}
