//! Rings between two threads: what is put comes out, each once and in order, also where the ring was filled and its filler
//! had to wait; and one who sleeps is woken.
//!
//! What is printed is the same whatever the order in which the threads run.
#![tactic(auto)]

mod numbers;
mod parcels;
mod sleeping;

use numbers::{hand_over_numbers, take_at_once, take_of_nothing};
use parcels::hand_over_frames;
use sleeping::{is_kept_asleep, is_woken};
use std::io;

/// Depths of rings, and how many items go through each: more than it has room for.
const RINGS: [(u32, u32); 3] = [(1, 100), (2, 100), (64, 300)];

fn main(rt: HostRuntime) -> io::Result<()> {
    let alloc = rt.alloc();
    for (depth, count) in RINGS {
        let numbers = hand_over_numbers(&rt, alloc, depth, count)?;
        println!(rt; "a ring of {depth}: {numbers} of {count} numbers in order")?;
        let frames = hand_over_frames(&rt, alloc, depth, count)?;
        println!(rt; "parcels in a ring of {depth}: {frames} of {count} frames in order")?;
    }
    println!(rt;
        "nothing in an empty ring: {}",
        take_of_nothing(&rt, alloc)?
    )?;
    println!(rt; "taken at once: {}", take_at_once(&rt, alloc)?)?;
    println!(rt; "asleep without a wake: {}", is_kept_asleep(&rt)?)?;
    println!(rt; "woken: {}", is_woken(&rt)?)
}
