//! Times turns of the pass lock, and of std's `Mutex` round the same value, in one run.
//!
//! usage: lock_bench THREADS TURNS. It prints the microseconds that each of the two locks took for so many turns of each
//! of so many threads, 1 to 34, in which each turn added one number. The making of a lock isn't timed. With no arguments,
//! or others, it prints nothing.
#![tactic(auto)]

mod mutex_turns;
mod pass_turns;
mod timing;

use std::{env, io};

/// The lock has at most so many passes.
const PASSES_MOST: u32 = 34;

fn main(rt: HostRuntime) -> io::Result<()> {
    let mut arguments = env::args(&rt)?;
    let _program = arguments.next();
    let (Some(threads), Some(turns)) = (arguments.next(), arguments.next()) else {
        return Ok(());
    };
    let (Ok(threads), Ok(turns)) = (threads.parse::<u32>(), turns.parse::<u32>()) else {
        return Ok(());
    };
    if threads == 0 || threads > PASSES_MOST {
        return Ok(());
    }
    let passes = pass_turns::time_turns(&rt, rt.alloc(), threads, turns)?;
    let mutex = mutex_turns::time_turns(&rt, rt.alloc(), threads, turns)?;
    if passes.made != mutex.made {
        return Err(io::Error::other("the two locks were given different work"));
    }
    println!(rt; "{} {}", passes.micros, mutex.micros)
}
