//! Reads lines of journals one by one, and prints what is read of each, and whether the same line is written of that.
//!
//! The input is lines, in which a TEXT stands between brackets, and `\n` in it is a line feed:
//!
//!     line TEXT                   a line of an entry: its number, the entry and its octets are printed, or `none`
//!     header TEXT                 a line of a header, or the last line: a line for each reader that takes it is printed
//!     header BEFORE TEXT          the same behind the line of a port or of a prefix
//!     keep TEXT                   the line of an entry for the next history
//!     history ENTRIES OCTETS      puts these entries into a history with room for so many, and prints what that has
//!
//! `tools/library-runs` works out what has to be printed, by the rules of `docs/FORMATS.md`.
#![tactic(auto)]

mod entries;
mod headers;
mod histories;

use anyhow::bail;
use entries::print_entry;
use headers::print_header_line;
use histories::print_history;
use std::alloc::{AllocError, Global};

fn main(rt: HostRuntime) -> anyhow::Result<()> {
    let alloc = rt.alloc();
    let mut kept = Vec::new(alloc);
    for line in rt.lines(rt.alloc()) {
        let line = line?;
        let (word, rest) = line.as_str().split_once(' ').unwrap_or(("", ""));
        match word {
            "" | "#" => {}
            "line" => {
                println!(rt; "{rest}")?;
                print_entry(&rt, alloc, text_in(alloc, rest)?.as_str())?;
            }
            "header" => {
                println!(rt; "{rest}")?;
                let (before, text) = rest.split_once("] [").unwrap_or(("", rest));
                let (before, text) = (text_in(alloc, before)?, text_in(alloc, text)?);
                print_header_line(&rt, before.as_str(), text.as_str())?;
            }
            "keep" => kept.push(text_in(alloc, rest)?)?,
            "history" => {
                println!(rt; "history {rest}")?;
                print_history(&rt, alloc, kept.as_slice(), rest)?;
                kept = Vec::new(alloc);
            }
            _ => bail!("no line of the input: {line}"),
        }
    }
    Ok(())
}

// The text between these brackets, with its line feeds.
fn text_in(alloc: Global, written: &str) -> Result<String, AllocError> {
    let text = written.trim_start_matches('[').trim_end_matches(']');
    text.replace(alloc, "\\n", "\n")
}
