//! Turns at a `Mutex`.
ghost use Rattle.std.specs.Thread.{IsSync};

use crate::timing::{Timing, micros_since};
use std::alloc::Global;
use std::io;
use std::sync::{Mutex, Wait};
use std::thread::{Threads, join};
use std::time::{Clock, Instant};
use table_lock::Tally;

fn take_turns<R: Wait>(rt: &R, lock: &Mutex<Tally>, by: u32, turns: u32) {
    for _ in 0..turns {
        lock.lock(rt).try_add(by);
    }
}

// The turns of so many threads, side by side.
fn run_threads<R: Threads + Wait + Sync>(rt: &R, lock: &Mutex<Tally>, threads: u32, turns: u32) {
    if threads == 0 {
        return;
    }
    let others = threads - 1;
    join(
        rt,
        move || take_turns(rt, lock, others, turns),
        move || -> ()
            requires { IsSync R.row }
        { run_threads(rt, lock, others, turns) },
    );
}

/// Times so many turns of each of so many threads, once the mutex is made.
pub fn time_turns<R: Threads + Wait + Sync + Clock>(
    rt: &R,
    alloc: Global,
    threads: u32,
    turns: u32,
) -> io::Result<Timing> {
    let lock = Mutex::new(Tally::make(alloc, u64::from(threads) * u64::from(turns))?);
    let start = Instant::now(rt);
    run_threads(rt, &lock, threads, turns);
    let micros = micros_since(rt, start)?;
    let made = lock.lock(rt).numbers().len() as u64;
    Ok(Timing { micros, made })
}
