//! Checks texts as journals, and prints what is answered of each.
//!
//! The input is lines:
//!
//!     journal NAME               a journal begins, without a line
//!     line LINE                  its next line
//!     tell LABEL                 what is printed in front of the next answer
//!     case READ AT BEHIND TEXT   the answer on the journal with TEXT in place of its lines from number AT on and before
//!                                number BEHIND, counted from 0. A `|` in TEXT is a line feed. The text is given up in
//!                                pieces of 100 octets; the read with number READ fails, counted from 1, and none where
//!                                it is 0
//!
//! `tools/journal-faults` works out the input and the output.
#![tactic(auto)]

use journal_check::{Checked, check};
use savi_ends::MemSource;
use std::alloc::{AllocError, Global};

/// How many octets are given up at once.
const PIECE_OCTETS: usize = 100;

/// Which text is checked.
#[derive(Clone, Copy)]
struct Case<'a> {
    read: u64,
    at: usize,
    behind: usize,
    text: &'a str,
}

fn main(rt: HostRuntime) -> anyhow::Result<()> {
    let alloc = rt.alloc();
    let mut lines = Vec::new(alloc);
    for line in rt.lines(alloc) {
        let line = line?;
        let (word, rest) = cut_word(line.as_str());
        match word {
            "journal" => {
                lines = Vec::new(alloc);
                println!(rt; "== {rest}")?;
            }
            "line" => lines.push(String::from_str(alloc, rest)?)?,
            "tell" => print!(rt; "{rest}: ")?,
            _ => {
                let answer = answer_to(alloc, &lines, read_case(rest)?)?;
                println!(rt; "{answer}")?;
            }
        }
    }
    Ok(())
}

// The word at the front, and what stands behind its space.
fn cut_word(text: &str) -> (&str, &str) {
    text.split_once(' ').unwrap_or((text, ""))
}

fn read_case(text: &str) -> anyhow::Result<Case<'_>> {
    let (read, rest) = cut_word(text);
    let (at, rest) = cut_word(rest);
    let (behind, text) = cut_word(rest);
    Ok(Case {
        read: read.parse::<u64>()?,
        at: at.parse::<usize>()?,
        behind: behind.parse::<usize>()?,
        text,
    })
}

// What is answered of the text of a case, as a line.
fn answer_to(alloc: Global, lines: &[String], case: Case<'_>) -> Result<String, AllocError> {
    let mut fails = Vec::new(alloc);
    if case.read > 0 {
        fails.push(case.read)?;
    }
    let mut source = MemSource::new(text_of(alloc, lines, case)?, PIECE_OCTETS, fails);
    match check(alloc, &mut source) {
        Checked::Good { entries } => format!(in alloc; "good: {entries} entries"),
        Checked::Wrong { entry, want, have } => {
            let (want, have) = (want.as_str(), have.as_str());
            format!(in alloc; "wrong at entry {entry}: want {want} have {have}")
        }
        Checked::BadLine { n } => format!(in alloc; "bad line {n}"),
        Checked::Failed => String::from_str(alloc, "failed"),
        Checked::NoMemory => String::from_str(alloc, "no memory"),
    }
}

fn text_of(alloc: Global, lines: &[String], case: Case<'_>) -> Result<Vec<u8>, AllocError> {
    let mut text = Vec::new(alloc);
    for line in lines.iter().take(case.at) {
        put_line(&mut text, line.as_str())?;
    }
    for octet in case.text.as_bytes() {
        text.push(if *octet == b'|' { b'\n' } else { *octet })?;
    }
    for line in lines.iter().skip(case.behind) {
        put_line(&mut text, line.as_str())?;
    }
    Ok(text)
}

fn put_line(text: &mut Vec<u8>, line: &str) -> Result<(), AllocError> {
    text.extend_from_slice(line.as_bytes())?;
    text.push(b'\n')?;
    Ok(())
}
