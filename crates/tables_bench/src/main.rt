//! Calls of `addr_index`, `bind_table` and `timer_wheel`, timed beside those of std's `HashMap` and `BTreeMap` with as many
//! keys.
//!
//! usage: tables_bench time|compare. `time` prints a line for each kind of call at 512 and at 1,024 addresses: its name,
//! how many addresses there are, how many calls were made, and the nanoseconds of the processor that they took (and a
//! number that depends on the answers). `compare` prints how many calls of a table left it as a plain list; it stops at the
//! first one that didn't; and how many takes of a timer wheel gave the pairs that were worked out by hand. With no word, or
//! another one, it prints nothing.
#![tactic(auto)]

ghost use Rattle.std.specs.Prelude.{◌≤◌};

mod bindings;
mod compare;
mod keys;
mod plain_rows;
mod takes;
mod timed;
mod wheel_turns;

use std::alloc::Global;
use std::time::CpuClock;
use std::{env, io};
use timed::Timed;

fn main(rt: HostRuntime) -> io::Result<()> {
    let Some(word) = env::args(&rt)?.nth(1) else {
        return Ok(());
    };
    match word.as_str() {
        "compare" => print_alike(&rt, rt.alloc()),
        "time" => print_times(&rt, rt.alloc()),
        _ => Ok(()),
    }
}

fn print_alike(rt: &impl Print, alloc: Global) -> io::Result<()> {
    let alike = compare::count_alike(alloc)?;
    println!(rt;
        "{alike} of {} calls leave the table as a plain list",
        compare::CALLS
    )?;
    let right = takes::count_right(alloc)?;
    println!(rt;
        "{right} of {} takes of a wheel give the pairs that were worked out by hand",
        takes::TAKES
    )
}

fn print_times<R: CpuClock + Print>(rt: &R, alloc: Global) -> io::Result<()> {
    for addresses in [512, 1_024] {
        for timed in &all_timed(rt, alloc, addresses)? {
            println!(rt;
                "{} {addresses} {} {} {}",
                timed.name,
                timed.calls,
                timed.took.as_nanos(),
                timed.answers
            )?;
        }
    }
    Ok(())
}

fn all_timed<R: CpuClock>(rt: &R, alloc: Global, addresses: u32) -> io::Result<Vec<Timed>>
    requires some { 1 ≤ addresses }
    requires limit { addresses ≤ 1024 }
{
    let mut times = Vec::new(alloc);
    times.push(timed::walk(rt, alloc, addresses)?)?;
    times.push(timed::clock(rt, addresses)?)?;
    times.push(timed::hash_map_get(rt, alloc, addresses)?)?;
    times.push(timed::hash_map_state(rt, alloc, addresses)?)?;
    times.push(timed::btree_map_get(rt, alloc, addresses)?)?;
    times.push(timed::index_get(rt, alloc, addresses)?)?;
    times.push(timed::bind_table_get(rt, alloc, addresses)?)?;
    times.push(timed::hash_map_put(rt, alloc, addresses)?)?;
    times.push(timed::btree_map_put(rt, alloc, addresses)?)?;
    times.push(timed::bind_table_put(rt, alloc, addresses)?)?;
    times.push(timed::wheel_arm(rt, alloc, addresses)?)?;
    times.push(timed::wheel_next_due(rt, alloc, addresses)?)?;
    Ok(times)
}
