//! Calls of `bridge_fdb`, timed beside look-ups in std's `HashMap`, or compared with those of a plain list.
//!
//! usage: fdb_bench time|compare. `time` prints a line for each kind of call: its name, how many were made, and the
//! nanoseconds of the processor that they took (and a number that depends on the answers); and then how many of the flood's
//! calls take a station in. `compare` prints how many of
//! 100,000 calls answered alike, and how many there are of each kind; it stops at the first one that didn't. With no word,
//! or another one, it prints nothing.
#![tactic(auto)]

mod compare;
mod keys;
mod plain_list;
mod timed;
mod turns;

use compare::{Call, count_calls};
use std::alloc::Global;
use std::time::CpuClock;
use std::{env, io};
use timed::Timed;

fn main(rt: HostRuntime) -> io::Result<()> {
    let Some(word) = env::args(&rt)?.nth(1) else {
        return Ok(());
    };
    match word.as_str() {
        "compare" => {
            let alike = compare::count_alike(rt.alloc())?;
            println!(rt; "{alike} of {} calls answer alike", compare::CALLS)?;
            println!(rt; "{} ask for a place", count_calls(Call::Place))?;
            println!(rt; "{} ask for a row", count_calls(Call::Row))?;
            println!(rt; "{} learn", count_calls(Call::Learn))?;
        }
        "time" => {
            for timed in &all_timed(&rt, rt.alloc())? {
                println!(rt;
                    "{} {} {} {}",
                    timed.name,
                    timed.calls,
                    timed.took.as_nanos(),
                    timed.answers
                )?;
            }
            let taken = timed::count_taken_in(rt.alloc())?;
            println!(rt; "taken {taken} of {}", timed::FLOOD)?;
        }
        _ => {}
    }
    Ok(())
}

fn all_timed<R: CpuClock>(rt: &R, alloc: Global) -> io::Result<Vec<Timed>> {
    let mut times = Vec::new(alloc);
    times.push(timed::walk(rt, alloc)?)?;
    times.push(timed::hash_map(rt, alloc)?)?;
    times.push(timed::place(rt, alloc)?)?;
    times.push(timed::learn_known(rt, alloc)?)?;
    times.push(timed::learn_refused(rt, alloc)?)?;
    times.push(timed::learn_new(rt, alloc)?)?;
    times.push(timed::learn_replaced(rt, alloc)?)?;
    times.push(timed::learn_flood(rt, alloc)?)?;
    Ok(times)
}
