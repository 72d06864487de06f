//! Passes in threads of their own, each of which adds its number many times: `close` gives each number just as often. And
//! one that sleeps at each place of the lock, and is woken there.
ghost use Rattle.std.specs.Prelude.{◌≡◌, ◌+◌, ◌≤◌, None, vec_capacity, vec_len};
ghost use Rattle.std.specs.List.{All};
ghost use Rattle.std.specs.Thread.{IsSync};
ghost use Rattle.table_lock.specs.Passes.{IsPassOf, pass_sleeps_at};
ghost use Rattle.table_lock.specs.Tallies.{tally_fixed};

use std::alloc::{AllocError, Global};
use std::io;
use std::sync::Wait;
use std::thread::{self, Threads, join};
use std::time::{Clock, Duration, Instant};
use table_lock::{Pass, TableLock, Tally};

/// A lock has so many places to sleep at.
const PLACES: u32 = 34;

/// So long the first sleep at a place lasts, which nobody ends, in ms.
const ALONE_MS: u64 = 20;

/// So long the second one would last, in s.
const SLEEP_SECS: u64 = 20;

/// Since it is ended, both last less than this, in s.
const WOKEN_WITHIN_SECS: u64 = 10;

/// So long a thread leaves the other one asleep before it wakes it, in ms.
const ASLEEP_MS: u64 = 2;

// Takes one turn, and adds the number in it.
fn add_once<R: Wait>(rt: &R, lock: &TableLock<Tally>, pass: Pass) -> Pass
    requires { IsPassOf tally_fixed lock.now pass }
    ensures { IsPassOf tally_fixed lock.now result }
{
    let by = pass.number();
    let mut held = lock.enter(rt, pass);
    held.value().try_add(by);
    held.leave()
}

// Takes so many turns, and adds the pass's number in each.
fn add_all<R: Wait>(rt: &R, lock: &TableLock<Tally>, pass: Pass, turns: u32) -> Pass
    requires { IsPassOf tally_fixed lock.now pass }
    ensures { IsPassOf tally_fixed lock.now result }
{
    let mut pass = pass;
    for _ in 0..turns {
        pass = add_once(rt, lock, pass);
    }
    pass
}

// The same for each pass, in a thread of its own. The passes come back behind those in `back`.
fn add_in_threads<R: Threads + Wait + Sync>(
    rt: &R,
    lock: &TableLock<Tally>,
    mut passes: Vec<Pass>,
    turns: u32,
    back: Vec<Pass>,
) -> Vec<Pass>
    requires passes { All (IsPassOf tally_fixed lock.now) passes.items }
    requires back { All (IsPassOf tally_fixed lock.now) back.items }
    requires room { vec_len back + vec_len passes ≤ vec_capacity back }
    ensures passes { All (IsPassOf tally_fixed lock.now) result.items }
    ensures count { vec_len result ≡ vec_len back + vec_len passes }
    ensures room { vec_capacity result ≡ vec_capacity back }
{
    let Some(pass) = passes.pop() else {
        return back;
    };
    let (done, mut back) = join(
        rt,
        move || -> Pass
            requires { IsPassOf tally_fixed lock.now pass }
            ensures { IsPassOf tally_fixed lock.entry.now result }
        { add_all(rt, lock, pass, turns) },
        move || -> Vec<Pass>
            requires sync { IsSync R.row }
            requires passes { All (IsPassOf tally_fixed lock.now) passes.items }
            requires back { All (IsPassOf tally_fixed lock.now) back.items }
            requires room { vec_len back + vec_len passes ≤ vec_capacity back }
            ensures passes { All (IsPassOf tally_fixed lock.entry.now) result.items }
            ensures count { vec_len result ≡ vec_len back + vec_len passes }
            ensures room { vec_capacity result ≡ vec_capacity back }
        { add_in_threads(rt, lock, passes, turns, back) },
    );
    back.push_reserved(done);
    back
}

// The tally that so many passes leave, each of which takes so many turns in a thread of its own.
fn tally_of<R: Threads + Wait + Sync>(
    rt: &R,
    alloc: Global,
    passes: u32,
    turns: u32,
) -> Result<Tally, AllocError>
    requires { (1 ≤ passes) × (passes ≤ 34) }
{
    let back = Vec::with_capacity(alloc, passes as usize)?;
    let tally = Tally::make(alloc, u64::from(passes) * u64::from(turns))?;
    let Ok((lock, dealt)) = TableLock::make(alloc, tally, passes) else {
        return Err(AllocError);
    };
    let back = add_in_threads(rt, &lock, dealt, turns, back);
    Ok(lock.close(back))
}

// Sleeps at the pass's place until it is woken.
fn sleep_once<R: Wait>(rt: &R, lock: &TableLock<Tally>, pass: Pass) -> Pass
    requires { IsPassOf tally_fixed lock.now pass }
    ensures { IsPassOf tally_fixed lock.now result }
{
    lock.sleep(rt, &pass, Duration::from_secs(SLEEP_SECS));
    pass
}

// Wakes who sleeps at a place, after a while.
fn wake_once<R: Clock>(rt: &R, lock: &TableLock<Tally>, pass: Pass, place: u32) -> Pass
    requires { IsPassOf tally_fixed lock.now pass }
    ensures { IsPassOf tally_fixed lock.now result }
{
    thread::sleep(rt, Duration::from_millis(ASLEEP_MS));
    let _woken = lock.wake(&pass, place);
    pass
}

// One pass sleeps at a place, alone at first; then the other one wakes it, each in a thread of its own. They come back in
// `back`.
fn sleep_and_wake<R: Threads + Wait + Clock + Sync>(
    rt: &R,
    lock: &TableLock<Tally>,
    mut passes: Vec<Pass>,
    place: u32,
    mut back: Vec<Pass>,
) -> Vec<Pass>
    requires passes { All (IsPassOf tally_fixed lock.now) passes.items }
    requires awake { All (λ p. pass_sleeps_at p ≡ None) passes.items }
    requires two { vec_len passes ≡ 2 }
    requires room { (vec_len back ≡ 0) × (2 ≤ vec_capacity back) }
    ensures passes { All (IsPassOf tally_fixed lock.now) result.items }
    ensures count { vec_len result ≡ 2 }
{
    let (Some(waker), Some(sleeper)) = (passes.pop(), passes.pop()) else {
        unreachable!()
    };
    let sleeper = sleeper.sleeping_at(place);
    lock.sleep(rt, &sleeper, Duration::from_millis(ALONE_MS));
    let (slept, woke) = join(
        rt,
        move || -> Pass
            requires { IsPassOf tally_fixed lock.now sleeper }
            ensures { IsPassOf tally_fixed lock.entry.now result }
        { sleep_once(rt, lock, sleeper) },
        move || -> Pass
            requires { IsPassOf tally_fixed lock.now waker }
            ensures { IsPassOf tally_fixed lock.entry.now result }
        { wake_once(rt, lock, waker, place) },
    );
    back.push_reserved(slept);
    back.push_reserved(woke);
    back
}

// How long a pass sleeps twice at a place, where another one wakes it the second time.
fn time_sleep<R: Threads + Wait + Clock + Sync>(
    rt: &R,
    alloc: Global,
    place: u32,
) -> io::Result<Duration> {
    let back = Vec::with_capacity(alloc, 2)?;
    let tally = Tally::make(alloc, 0)?;
    let Ok((lock, dealt)) = TableLock::make(alloc, tally, 2) else {
        return Err(AllocError.into());
    };
    let start = Instant::now(rt);
    let back = sleep_and_wake(rt, &lock, dealt, place, back);
    lock.close(back);
    start?.elapsed(rt)
}

fn count_of(numbers: &[u32], number: u32) -> usize {
    numbers.iter().filter(|n| **n == number).count()
}

#[test]
fn two_passes_add_a_thousand_each(rt: HostRuntime) -> Result<(), AllocError> {
    let tally = tally_of(&rt, rt.alloc(), 2, 1_000)?;
    assert_eq!(rt; tally.numbers().len(), 2_000);
    assert_eq!(rt; count_of(tally.numbers(), 0), 1_000);
    assert_eq!(rt; count_of(tally.numbers(), 1), 1_000);
    Ok(())
}

#[test]
fn thirty_four_passes_add_twenty_each(rt: HostRuntime) -> Result<(), AllocError> {
    let tally = tally_of(&rt, rt.alloc(), 34, 20)?;
    assert_eq!(rt; tally.numbers().len(), 680);
    for number in 0..34 {
        assert_eq!(rt; count_of(tally.numbers(), number), 20);
    }
    Ok(())
}

#[test]
fn who_sleeps_at_a_place_is_woken_there(rt: HostRuntime) -> io::Result<()> {
    for place in 0..PLACES {
        let slept = time_sleep(&rt, rt.alloc(), place)?;
        assert!(rt; slept >= Duration::from_millis(ALONE_MS));
        assert!(rt; slept < Duration::from_secs(WOKEN_WITHIN_SECS));
    }
    Ok(())
}
