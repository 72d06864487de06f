//! Turns at the pass lock.
ghost use Rattle.std.specs.Prelude.{◌≡◌, ℕ, ◌+◌, ◌*◌, ◌≤◌, IfOk, vec_capacity, vec_len};
ghost use Rattle.std.specs.List.{All};
ghost use Rattle.std.specs.Thread.{IsSync};
ghost use Rattle.table_lock.specs.Passes.{AreAll, IsPassOf};
ghost use Rattle.table_lock.specs.Tallies.{tally_fixed};
ghost use Rattle.lock_bench.specs.Made.{HasMade, HaveFilled, room_of};

use crate::timing::{Timing, micros_since};
use std::alloc::{AllocError, Global};
use std::io;
use std::sync::Wait;
use std::thread::{Threads, join};
use std::time::{Clock, Instant};
use table_lock::{Pass, TableLock, Tally};

// Adds the pass's number in one turn.
fn take_turn<R: Wait>(rt: &R, lock: &TableLock<Tally>, pass: Pass) -> Pass
    requires { IsPassOf tally_fixed lock.now pass }
    ensures { (made : ℕ) → HasMade lock.now made pass → HasMade lock.now (made + 1) result }
{
    let by = pass.number();
    let mut held = lock.enter(rt, pass);
    held.value().try_add(by);
    held.leave()
}

fn take_turns<R: Wait>(rt: &R, lock: &TableLock<Tally>, pass: Pass, turns: u32) -> Pass
    requires { HasMade lock.now 0 pass }
    ensures { HasMade lock.now turns result }
{
    let mut pass = pass;
    for _ in 0..turns {
        pass = take_turn(rt, lock, pass);
    }
    pass
}

// The turns of each pass, side by side in threads. The passes come back behind those in `back`.
fn run_threads<R: Threads + Wait + Sync>(
    rt: &R,
    lock: &TableLock<Tally>,
    mut passes: Vec<Pass>,
    turns: u32,
    back: Vec<Pass>,
) -> Vec<Pass>
    requires passes { All (HasMade lock.now 0) passes.items }
    requires back { All (HasMade lock.now turns) back.items }
    requires room { vec_len back + vec_len passes ≤ vec_capacity back }
    ensures passes { All (HasMade lock.now turns) result.items }
    ensures count { vec_len result ≡ vec_len back + vec_len passes }
    ensures room { vec_capacity result ≡ vec_capacity back }
{
    let Some(pass) = passes.pop() else {
        return back;
    };
    let (done, mut back) = join(
        rt,
        move || -> Pass
            requires { HasMade lock.now 0 pass }
            ensures { HasMade lock.entry.now turns result }
        { take_turns(rt, lock, pass, turns) },
        move || -> Vec<Pass>
            requires sync { IsSync R.row }
            requires passes { All (HasMade lock.now 0) passes.items }
            requires back { All (HasMade lock.now turns) back.items }
            requires room { vec_len back + vec_len passes ≤ vec_capacity back }
            ensures passes { All (HasMade lock.entry.now turns) result.items }
            ensures count { vec_len result ≡ vec_len back + vec_len passes }
            ensures room { vec_capacity result ≡ vec_capacity back }
        { run_threads(rt, lock, passes, turns, back) },
    );
    back.push_reserved(done);
    back
}

// How many numbers the tally has at the end: passes that have filled it leave it full.
fn count_made(lock: TableLock<Tally>, passes: Vec<Pass>) -> u64
    requires all { AreAll tally_fixed lock passes.items }
    requires filled { HaveFilled lock passes.items }
    ensures { result ≡ room_of lock }
{
    let tally = lock.close(passes);
    tally.numbers().len() as u64
}

/// Times so many turns of each of so many passes, once the lock is made. Each turn makes its entry.
pub fn time_turns<R: Threads + Wait + Sync + Clock>(
    rt: &R,
    alloc: Global,
    passes: u32,
    turns: u32,
) -> io::Result<Timing>
    requires { (1 ≤ passes) × (passes ≤ 34) }
    ensures { IfOk result (λ timing. timing.made ≡ passes * turns) }
{
    let back = Vec::with_capacity(alloc, passes as usize)?;
    let tally = Tally::make(alloc, u64::from(passes) * u64::from(turns))?;
    let Ok((lock, dealt)) = TableLock::make(alloc, tally, passes) else {
        return Err(AllocError.into());
    };
    let start = Instant::now(rt);
    let back = run_threads(rt, &lock, dealt, turns, back);
    let micros = micros_since(rt, start);
    let made = count_made(lock, back);
    Ok(Timing {
        micros: micros?,
        made,
    })
}
