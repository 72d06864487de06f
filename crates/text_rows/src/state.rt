//! What lines go by, and what each of them does.

use crate::commands::print_command;
use crate::history::History;
use crate::loads::print_load;
use crate::report::Report;
use crate::texts::{print_addr, print_decimal, print_key, print_mac, print_mac_key, print_prefix};
use anyhow::bail;
use std::alloc::{AllocError, Global};

/// What was said, and a history.
#[derive(Drop)]
pub struct State {
    report: Report,
    history: History,
}

impl State {
    /// Nothing is there yet.
    pub fn new(alloc: Global) -> Result<State, AllocError> {
        Ok(State {
            report: Report::new(alloc)?,
            history: History::new(alloc),
        })
    }

    /// Does what a line says.
    pub fn follow(&mut self, rt: &impl Print, alloc: Global, line: &str) -> anyhow::Result<()> {
        let (word, rest) = line.split_once(' ').unwrap_or((line, ""));
        match word {
            "" | "#" => Ok(()),
            "==" => Ok(println!(rt; "{line}")?),
            "report" => self.report.begin(alloc, rest),
            "history" => {
                self.history.begin(alloc);
                Ok(())
            }
            "end" => self.history.end(rest),
            _ => {
                print!(rt; "{line}:")?;
                self.print(rt, alloc, word, rest)
            }
        }
    }

    // Prints what is asked of the report or the history, or else.
    fn print(
        &mut self,
        rt: &impl Print,
        alloc: Global,
        word: &str,
        rest: &str,
    ) -> anyhow::Result<()> {
        match word {
            "say" => self.report.say(rt, alloc, rest),
            "said" => self.report.print(rt),
            "ends" => self.history.print_ends(rt, alloc, rest),
            "kinds" => self.history.print_kinds(rt),
            _ => print_alone(rt, alloc, word, rest),
        }
    }
}

// Prints what a line comes to that goes by no other.
fn print_alone(rt: &impl Print, alloc: Global, word: &str, rest: &str) -> anyhow::Result<()> {
    match word {
        "addr" => print_addr(rt, alloc, rest),
        "prefix" => print_prefix(rt, alloc, rest),
        "mac" => print_mac(rt, alloc, rest),
        "key" => print_key(rt, alloc, rest),
        "mac_key" => print_mac_key(rt, alloc, rest),
        "decimal" => print_decimal(rt, alloc, rest),
        "command" => print_command(rt, alloc, rest),
        "load" => print_load(rt, alloc, rest),
        _ => bail!("no line of the input: {word}"),
    }
}
