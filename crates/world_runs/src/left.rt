//! What a run leaves.

use crate::PASSES_MOST;
use crate::recording_world::RecordingWorld;
use crate::scene::Scene;
use crate::staging::JOURNAL;
use journal_check::{Checked, check};
use savi_ends::{MemSink, MemSource};
use sha2::{Digest, Sha256};
use std::alloc::{AllocError, Global};

/// Prints the status, what standard error and standard output were told, what was written at each port, the replies, where
/// control has an input, the journal, and what was written at each other output; of a load the digests of what was written
/// at the ports and of the journal; of a live session, whose entries come in the order of its workers, the ticks of the
/// journal, how each pass ended for good, and what a check says of it.
pub fn print_left(
    rt: &impl Print,
    alloc: Global,
    scene: &Scene,
    left: &RecordingWorld,
    status: u8,
) -> anyhow::Result<()> {
    println!(rt; "status {status}")?;
    print_told(rt, alloc, scene, left)?;
    if scene.is_load {
        return print_digests(rt, alloc, left);
    }
    print_ports(rt, alloc, scene, left)?;
    if scene.is_live() {
        return print_history(rt, alloc, left);
    }
    print_outputs(rt, alloc, scene, left)
}

// What the program asked of its world, where the scene says so, and what standard error and standard output were told.
fn print_told(
    rt: &impl Print,
    alloc: Global,
    scene: &Scene,
    left: &RecordingWorld,
) -> anyhow::Result<()> {
    if scene.tells_openings {
        let openings = String::from_utf8_lossy(alloc, left.openings.as_slice())?;
        print!(rt; "openings:\n{openings}")?;
    }
    let errors = text_of(alloc, &left.world.err)?;
    print!(rt; "standard error:\n{errors}")?;
    let summary = text_of(alloc, &left.world.out)?;
    if scene.is_live() {
        // How many entries there are may be otherwise: what waits at a port is drained in one entry or in several.
        let (_, counts) = summary.as_str().split_once(" frames ").unwrap_or(("", ""));
        let word = if counts.is_empty() { "" } else { "frames " };
        print!(rt; "standard output behind its entries:\n{word}{counts}")?;
    } else {
        print!(rt; "standard output:\n{summary}")?;
    }
    Ok(())
}

// What was written at the ports, and the replies, where control has an input.
fn print_ports(
    rt: &impl Print,
    alloc: Global,
    scene: &Scene,
    left: &RecordingWorld,
) -> anyhow::Result<()> {
    let ports = with_names(alloc, scene, ports_of(alloc, left)?, " ")?;
    print!(rt; "{ports}")?;
    if let (Some(_), Some(ends)) = (&scene.commands, &left.world.control) {
        let replies = String::from_utf8_lossy(alloc, ends.sink.written())?;
        print!(rt; "replies:\n{replies}")?;
    }
    Ok(())
}

// The journal, and a line for each other output, with the digits of what was written there.
fn print_outputs(
    rt: &impl Print,
    alloc: Global,
    scene: &Scene,
    left: &RecordingWorld,
) -> anyhow::Result<()> {
    for (name, sink) in left.world.outputs.as_slice() {
        if name.as_str() == JOURNAL {
            let text = with_names(alloc, scene, text_of(alloc, sink)?, "")?;
            let (place, rest) = behind_head(text.as_str(), scene.head.as_str());
            print!(rt; "journal{place}:\n{rest}")?;
        } else if let Some(sink) = sink {
            let digits = hex::encode(alloc, sink.written())?;
            let text = with_names(alloc, scene, digits, " ")?;
            println!(rt; "{}:{text}", name.as_str())?;
        }
    }
    Ok(())
}

// The ticks of each journal, each as its entry is without its number; how each pass ended for good, in the order of the
// passes; and whether the check of the journal says that it is good.
fn print_history(rt: &impl Print, alloc: Global, left: &RecordingWorld) -> anyhow::Result<()> {
    for (_, sink) in left.world.outputs.as_slice() {
        let text = text_of(alloc, sink)?;
        println!(rt; "ticks:")?;
        for line in text.as_str().lines() {
            let (_, entry) = line.split_once(' ').unwrap_or(("", line));
            if is_tick(entry) {
                println!(rt; "{entry}")?;
            }
        }
        println!(rt; "ends:")?;
        for pass in 0..PASSES_MOST {
            print_ends(rt, text.as_str(), pass)?;
        }
        let mut source = MemSource::new(text.as_bytes().to_vec(alloc)?, 512, Vec::new(alloc));
        match check(alloc, &mut source) {
            Checked::Good { entries: _ } => println!(rt; "check: good")?,
            _ => println!(rt; "check: not good")?,
        }
    }
    Ok(())
}

// How a pass ended for good in a journal: a pause is no such end.
fn print_ends(rt: &impl Print, journal: &str, pass: u32) -> anyhow::Result<()> {
    for line in journal.lines() {
        let (_, entry) = line.split_once(' ').unwrap_or(("", line));
        match end_by(entry, pass) {
            Some(end) if !end.ends_with(" paused") => println!(rt; "{end}")?,
            _ => {}
        }
    }
    Ok(())
}

// Who ended and how, where an entry behind its number is an end of this pass.
fn end_by(entry: &str, pass: u32) -> Option<&str> {
    let (by, rest) = entry.split_once(' ')?;
    let (_moment, act) = rest.split_once(' ')?;
    if by.parse::<u32>() != Ok(pass) {
        return None;
    }
    act.strip_prefix("E ")
}

// Whether an entry behind its number, so its pass, its moment and its act, is a tick.
fn is_tick(entry: &str) -> bool {
    let mut words = entry.split(' ');
    let _pass = words.next();
    let _moment = words.next();
    words.next() == Some("T")
}

// A line for each port and for the journal, with the digest of what was written there.
fn print_digests(rt: &impl Print, alloc: Global, left: &RecordingWorld) -> anyhow::Result<()> {
    for (port, ends) in left.world.ports.as_slice() {
        if let Some(ends) = ends {
            let digest = digest_of(alloc, ends.sink.written())?;
            println!(rt; "port {}: {digest}", port.get())?;
        }
    }
    for (_, sink) in left.world.outputs.as_slice() {
        if let Some(sink) = sink {
            let digest = digest_of(alloc, sink.written())?;
            println!(rt; "journal: {digest}")?;
        }
    }
    Ok(())
}

// How many octets these are, and the digits of their SHA-256 digest (FIPS 180-4).
fn digest_of(alloc: Global, octets: &[u8]) -> Result<String, AllocError> {
    let digits = hex::encode(alloc, &Sha256::digest(octets))?;
    format!(in alloc; "{} octets, SHA-256 {digits}", octets.len())
}

// A line for each port, with the digits of what was written there.
fn ports_of(alloc: Global, left: &RecordingWorld) -> Result<String, AllocError> {
    let mut text = String::new(alloc);
    for (port, ends) in left.world.ports.as_slice() {
        if let Some(ends) = ends {
            let digits = hex::encode(alloc, ends.sink.written())?;
            let line = format!(in alloc; "port {}:{digits}\n", port.get())?;
            text.push_str(line.as_str())?;
        }
    }
    Ok(text)
}

// Where what is printed of a journal stands, and what it is: all but its head, where it begins with one, or all.
fn behind_head<'a>(text: &'a str, head: &str) -> (&'static str, &'a str) {
    match text.strip_prefix(head) {
        Some(rest) if !head.is_empty() => (" behind its head", rest),
        _ => ("", text),
    }
}

// What was written.
fn text_of(alloc: Global, sink: &Option<MemSink>) -> Result<String, AllocError> {
    match sink {
        Some(sink) => String::from_utf8_lossy(alloc, sink.written()),
        None => Ok(String::new(alloc)),
    }
}

// A text where a name, behind this space, stands for the digits of each.
fn with_names(
    alloc: Global,
    scene: &Scene,
    text: String,
    space: &str,
) -> Result<String, AllocError> {
    let mut text = text;
    for (name, digits) in &scene.names {
        let spaced = format!(in alloc; "{space}{name}")?;
        text = text
            .as_str()
            .replace(alloc, digits.as_str(), spaced.as_str())?;
    }
    Ok(text)
}
