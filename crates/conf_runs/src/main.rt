//! Reads configurations that changes of a text make, and prints the fault of each, or its plan.
//!
//! The input is lines, in which `\n` is a line feed, and a CHANGE is `OLD => NEW`, by which the first OLD in the text
//! becomes NEW; without one the text is taken as it stands:
//!
//!     text TEXT        begins a text, and forgets the changes
//!     line TEXT        a line of it
//!     fill OCTETS      adds a comment, with which it has so many octets
//!     change CHANGE    remembers a change, and prints the fault with it in a replay of captures, or 0
//!     pairs            prints the same for each two of these changes, those with the first one on the first line
//!     replay CHANGE    prints the plan, or the fault, in a replay of captures
//!     live CHANGE      prints the same where streams may be read
//!     octets DIGITS    prints the fault of these octets, in hexadecimal digits
//!
//! `tools/library-runs` works out what has to be printed, by `docs/CONFIGURATION.md`.
#![tactic(auto)]

mod plans;
mod texts;

use anyhow::bail;
use plans::{fault_in, print_answer};
use std::alloc::Global;
use texts::{Text, change_of};

fn main(rt: HostRuntime) -> anyhow::Result<()> {
    let mut text = Text::new(rt.alloc(), "")?;
    for line in rt.lines(rt.alloc()) {
        let line = line?;
        follow(&rt, rt.alloc(), &mut text, line.as_str())?;
    }
    Ok(())
}

// Does what a line says.
fn follow(rt: &impl Print, alloc: Global, text: &mut Text, line: &str) -> anyhow::Result<()> {
    let (word, rest) = line.split_once(' ').unwrap_or((line, ""));
    match word {
        "" | "#" => {}
        "text" => *text = Text::new(alloc, rest)?,
        "line" => text.add_line(alloc, rest)?,
        "fill" => text.fill(rest.parse::<usize>()?)?,
        "change" => {
            let change = change_of(alloc, rest)?;
            let changed = text.with(alloc, &change)?;
            println!(rt; "fault {}: {rest}", fault_in(alloc, changed.as_bytes()))?;
            text.changes.push(change)?;
        }
        "pairs" => print_pairs(rt, alloc, text)?,
        "replay" | "live" => {
            println!(rt; "{line}")?;
            let changed = text.with(alloc, &change_of(alloc, rest)?)?;
            print_answer(rt, alloc, changed.as_bytes(), word == "replay")?;
        }
        "octets" => {
            let octets = hex::decode(alloc, rest)?;
            println!(rt;
                "fault {}: octets {rest}",
                fault_in(alloc, octets.as_slice())
            )?;
        }
        _ => bail!("no line of the input: {line}"),
    }
    Ok(())
}

// Prints the faults with each two of the changes, a line for each first one.
fn print_pairs(rt: &impl Print, alloc: Global, text: &Text) -> anyhow::Result<()> {
    for (i, first) in text.changes.iter().enumerate() {
        print!(rt; "pairs:")?;
        let one = Text::new(alloc, text.with(alloc, first)?.as_str())?;
        for second in &text.changes[i + 1..] {
            let both = one.with(alloc, second)?;
            print!(rt; " {}", fault_in(alloc, both.as_bytes()))?;
        }
        println!(rt; "")?;
    }
    Ok(())
}
