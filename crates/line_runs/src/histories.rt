//! Histories of entries that lines say.

ghost use Rattle.std.specs.Prelude.{◌≡◌, ◌+◌, ◌<◌, ◌≤◌, ℕ, List, length};
ghost use Rattle.hist_store.specs.Rows.{held, KeepsOctets};
ghost use Rattle.hist_store.specs.LineTexts.{FitsLine};

use anyhow::bail;
use arrayvec::ArrayVec;
use hist_store::{Hist, JournalLine, put_end, put_line, read_line};
use savi_kinds::{Act, Entry};
use std::alloc::Global;

/// Puts the entries of these lines into a history with room for so many entries and octets, and prints each line as it is
/// written of them there; then how many entries and octets the history has, each entry with its octets, and the last line
/// of its journal. What there is no room for, or is no line, is left out.
pub fn print_history(
    rt: &impl Print,
    alloc: Global,
    lines: &[String],
    room: &str,
) -> anyhow::Result<()> {
    let Some((entries, octets)) = room.split_once(' ') else {
        bail!("no room of a history: {room}");
    };
    let (entries, octets) = (entries.parse::<u64>()?, octets.parse::<u64>()?);
    let mut hist = Hist::make(alloc, entries, octets)?;
    let mut buffer = ArrayVec::new();
    for line in lines {
        let Some(read) = read_line(line.as_bytes(), &mut buffer) else {
            bail!("no line of an entry: {line}");
        };
        let Some(held) = hist.held().checked_add(buffer.len() as u64) else {
            bail!("no number of octets");
        };
        if hist.len() >= entries || held > octets {
            println!(rt; "  left out: {line}")?;
        } else {
            keep(rt, &mut hist, &read.1, buffer.as_slice())?;
        }
    }
    print_rows(rt, alloc, &hist)
}

// Puts an entry with its octets into a history, and prints the line that is written of it there.
fn keep(rt: &impl Print, hist: &mut Hist, entry: &Entry, octets: &[u8]) -> anyhow::Result<()>
    requires room { length hist.old.rows < hist.old.entry_room }
    requires bytes { held hist.old.rows + length octets.now ≤ hist.old.byte_room }
    requires fits { FitsLine (record { entry = entry.now; octets = octets.now }) }
    ensures entries { hist.new.entry_room ≡ hist.old.entry_room }
    ensures octets { hist.new.byte_room ≡ hist.old.byte_room }
{
    let entry = placed(entry, hist.held());
    let mut line = JournalLine::new();
    put_line(hist.len(), &entry, octets, &mut line);
    hist.append(entry, octets);
    print_text(rt, line.as_slice())
}

// The entry with its octets, if it has any, at this place.
fn placed(entry: &Entry, at: u64) -> Entry
    ensures { (octets : List ℕ) → FitsLine (record { entry = entry.now; octets = octets })
        → FitsLine (record { entry = result; octets = octets }) × KeepsOctets result.act at octets }
{
    let act = match entry.act {
        Act::Frame {
            port,
            stamp,
            len,
            ..
        } => Act::Frame {
            port,
            stamp,
            at,
            len,
        },
        Act::Command { stamp, len, .. } => Act::Command { stamp, at, len },
        act => act,
    };
    Entry { act, ..*entry }
}

// Prints what a history has.
fn print_rows(rt: &impl Print, alloc: Global, hist: &Hist) -> anyhow::Result<()> {
    println!(rt; "  entries: {}, octets: {}", hist.len(), hist.held())?;
    for n in 0..hist.len() {
        let digits = hex::encode(alloc, hist.octets(n))?;
        println!(rt; "  {n} {:?}", hist.entry(n))?;
        println!(rt; "  octets [{digits}]")?;
    }
    let mut end = JournalLine::new();
    put_end(hist.len(), &mut end);
    print_text(rt, end.as_slice())
}

// Prints a line of a journal.
fn print_text(rt: &impl Print, text: &[u8]) -> anyhow::Result<()> {
    println!(rt; "  {:?}", str::from_utf8(text)?)?;
    Ok(())
}
