//! Numbers, by value.
ghost use Rattle.std.specs.Prelude.{◌≡◌};
ghost use Rattle.intake_ring.specs.Sides.{filler_ring, taker_ring};

use crate::sleeping::is_sleep_ended;
use intake_ring::{Filler, IntakeRing, Taker};
use std::alloc::{AllocError, Global};
use std::io;
use std::sync::Wait;
use std::thread::{Threads, join, sleep};
use std::time::{Clock, Duration};

/// So long nothing is taken at first, in ms, while the ring is filled.
pub const FILLED_WITHIN_MS: u64 = 20;

// Puts the numbers from 0 on.
fn put_numbers<R: Wait>(rt: &R, filler: Filler<u32>, count: u32) -> Filler<u32>
    ensures { filler_ring result ≡ filler_ring filler }
{
    let mut filler = filler;
    for number in 0..count {
        filler.put(rt, number);
    }
    filler
}

// Takes a number, and waits for it.
fn take_number<R: Wait>(rt: &R, taker: &mut Taker<u32>) -> u32
    ensures { taker_ring taker.new ≡ taker_ring taker.old }
{
    for _ in rt.forever() {
        if let Some(number) = taker.take(rt) {
            return number;
        }
    }
    unreachable!()
}

// Takes so many numbers. The answer is also how many came in their turn.
fn take_numbers<R: Wait>(rt: &R, taker: Taker<u32>, count: u32) -> (Taker<u32>, u32)
    ensures { taker_ring result.0 ≡ taker_ring taker }
{
    let mut taker = taker;
    let mut in_order = 0u32;
    for expected in 0..count {
        if take_number(rt, &mut taker) == expected {
            in_order = in_order.saturating_add(1);
        }
    }
    (taker, in_order)
}

/// Hands numbers from one thread to another by a ring of this depth, which is filled first. The answer is how many came in
/// their turn.
pub fn hand_over_numbers<R: Threads + Wait + Clock + Sync>(
    rt: &R,
    alloc: Global,
    depth: u32,
    count: u32,
) -> Result<u32, AllocError> {
    let (filler, taker) = IntakeRing::make(alloc, depth.max(1))?;
    let (filler, (taker, in_order)) = join(
        rt,
        move || -> Filler<u32>
            ensures { filler_ring result ≡ filler_ring filler }
        { put_numbers(rt, filler, count) },
        move || -> (Taker<u32>, u32)
            ensures { taker_ring result.0 ≡ taker_ring taker }
        {
            sleep(rt, Duration::from_millis(FILLED_WITHIN_MS));
            take_numbers(rt, taker, count)
        },
    );
    IntakeRing::close(rt, filler, taker);
    Ok(in_order)
}

/// Whether nothing is taken from an empty ring, with a wait and without.
pub fn take_of_nothing<R: Wait>(rt: &R, alloc: Global) -> Result<bool, AllocError> {
    let (filler, mut taker) = IntakeRing::make(alloc, 1)?;
    let tried: Option<u32> = taker.try_take(rt);
    let taken: Option<u32> = taker.take(rt);
    IntakeRing::close(rt, filler, taker);
    Ok(tried.is_none() && taken.is_none())
}

/// Whether a number that was put is taken without a wait, and who sleeps at the taker's place was woken by the put.
pub fn take_at_once<R: Wait + Clock>(rt: &R, alloc: Global) -> io::Result<bool> {
    let (mut filler, mut taker) = IntakeRing::make(alloc, 1)?;
    let place = taker.sleeper()?;
    filler.put(rt, 1);
    let is_woken = is_sleep_ended(rt, &place)?;
    let taken: Option<u32> = taker.try_take(rt);
    IntakeRing::close(rt, filler, taker);
    Ok(is_woken && taken == Some(1))
}
