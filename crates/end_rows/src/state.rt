//! What lines go by, and what each of them does.

use crate::blocks::print_blocks;
use crate::clocks::print_clocks;
use crate::ends::{print_clock, print_count, print_filled, print_sink, print_source, print_sure};
use crate::forms::print_input;
use crate::input::Input;
use crate::lines::print_lines;
use crate::readers::{print_answers, print_cuts};
use crate::split::print_split;
use crate::world::print_world;
use crate::writers::{print_again, print_written};
use anyhow::bail;
use std::alloc::Global;
use std::sync::Wait;

/// Does what a line says, by this input.
pub fn follow<R: Print + Wait>(
    rt: &R,
    alloc: Global,
    input: &mut Input,
    line: &str,
) -> anyhow::Result<()> {
    let (word, rest) = line.split_once(' ').unwrap_or((line, ""));
    match word {
        "" | "#" => Ok(()),
        "==" => Ok(println!(rt; "{line}")?),
        "name" => input.name(alloc, rest),
        "text" => Ok(input.set_text(alloc, rest)?),
        "input" => input.set(alloc, rest),
        "add" => input.add(alloc, rest),
        _ => {
            print!(rt; "{line}:")?;
            print_read(rt, alloc, input.octets(), word, rest)
        }
    }
}

// Prints what a line comes to that goes by the octets of the input, or else.
fn print_read<R: Print + Wait>(
    rt: &R,
    alloc: Global,
    octets: &[u8],
    word: &str,
    rest: &str,
) -> anyhow::Result<()> {
    match word {
        "lines" => print_lines(rt, alloc, octets, false, rest),
        "live" => print_lines(rt, alloc, octets, true, rest),
        "read" => print_answers(rt, alloc, octets, rest),
        "cuts" => print_cuts(rt, alloc, octets, rest),
        "form" => print_input(rt, alloc, octets, rest),
        "blocks" => print_blocks(rt, alloc, octets, rest),
        "split" => print_split(rt, alloc, octets, rest),
        "source" => print_source(rt, alloc, octets, rest),
        "sure" => print_sure(rt, alloc, octets),
        "fill" => print_filled(rt, alloc, octets, rest),
        _ => print_alone(rt, alloc, word, rest),
    }
}

// Prints what a line comes to that goes by no other.
fn print_alone<R: Print + Wait>(
    rt: &R,
    alloc: Global,
    word: &str,
    rest: &str,
) -> anyhow::Result<()> {
    match word {
        "write" => print_written(rt, alloc, rest),
        "again" => print_again(rt, alloc, rest),
        "sink" => print_sink(rt, alloc, rest),
        "count" => print_count(rt, alloc, rest),
        "clock" => print_clock(rt, alloc, rest),
        "world" => print_world(rt, alloc, rest),
        "clocks" => print_clocks(rt, alloc, rest),
        _ => bail!("no line of the input: {word}"),
    }
}
