//! Live sessions of the whole program whose workers must run side by side: one over ends that wait for one another
//! (`held_ends`), for each port one in which its input is held back until all that the other two bring is entered, and one of
//! many segments, behind the first of which two inputs wait for one another: so a session that has memory doesn't serve its
//! segments by one thread; and one in which the ring of a port is filled, by a reader that goes on until there is no room.
//!
//! The input is the configuration, of three trusted ports over streams. What is printed is the same whatever the order in
//! which the workers come to the switch: the status, what standard error was told, the frames that were written at each
//! port, the replies, what a check says of the journal, and whether a wait was in vain; of the first session also how many
//! turns the inputs of ports 1 and 2 took. Where the input of a port is held back, the frames of the others come in any order
//! at that port, so that only their number is printed; at each other port its own frames come last. It was worked out by hand.
#![tactic(auto)]

mod anew_gate;
mod end_gate;
mod full_gate;
mod held_gate;

use anew_gate::AnewGate;
use end_gate::EndGate;
use full_gate::FullGate;
use held_ends::{
    FIRST_OF_1, FIRST_OF_2, FIRST_OF_3, HeldWorld, Marks, PLAN, SECOND_OF_1, SECOND_OF_2,
    SECOND_OF_3, Waits,
};
use held_gate::HeldGate;
use journal_check::{Checked, check};
use savi_ends::{MemSource, Std};
use savi_kinds::Port;
use std::alloc::{AllocError, Global};
use std::sync::Wait;
use std::sync::atomic::Ordering;
use std::thread::Threads;
use switch_run::run;

/// The number of ports.
const PORTS: u8 = 3;

/// Each port whose input is held back, and the other two.
const HELD_PORTS: [(u8, [u8; 2]); 3] = [(1, [2, 3]), (2, [1, 3]), (3, [1, 2])];

/// The octets of a record.
const RECORD_OCTETS: usize = FIRST_OF_1.len();

fn main(rt: HostRuntime) -> anyhow::Result<()> {
    let alloc = rt.alloc();
    let mut plan = String::new(alloc);
    for line in rt.lines(alloc) {
        plan.push_str(line?.as_str())?;
        plan.push('\n')?;
    }
    run_side_by_side(&rt, rt, plan.clone()?)?;
    for (held, others) in HELD_PORTS {
        println!(rt; "the input of port {held} is held back")?;
        run_behind(&rt, rt, plan.clone()?, held, others)?;
    }
    println!(rt; "two inputs wait for one another behind a segment")?;
    run_in_segments(&rt, rt, plan.as_str())?;
    println!(rt; "the ring of port 1 is filled")?;
    run_full(&rt, rt, plan)?;
    Ok(())
}

// Runs the session whose ends wait for one another.
fn run_side_by_side<R: Print + Threads + Wait + Sync>(
    rt: &R,
    host: HostRuntime,
    plan: String,
) -> anyhow::Result<()> {
    let alloc = host.alloc();
    let marks = Marks::new();
    let gate = HeldGate {
        rt: host,
        marks: &marks,
    };
    let mut world = HeldWorld::make(alloc, host, plan, &marks, Waits::ForOneAnother)?;
    let status = run(rt, alloc, words_of(alloc)?.as_slice(), &mut world, &gate);
    println!(rt; "status {status}")?;
    print_left(rt, alloc, &world, None)?;
    let turns_of_1 = marks.turn_of_1.load(Ordering::SeqCst);
    let turns_of_2 = marks.turn_of_2.load(Ordering::SeqCst);
    println!(rt; "turns of the inputs of ports 1 and 2: {turns_of_1} and {turns_of_2}")?;
    print_whether_given_up(rt, &marks)
}

// Runs a session in which the input of one port is held back until all that the others bring is entered.
fn run_behind<R: Print + Threads + Wait + Sync>(
    rt: &R,
    host: HostRuntime,
    plan: String,
    held: u8,
    others: [u8; 2],
) -> anyhow::Result<()> {
    let alloc = host.alloc();
    let marks = Marks::new();
    let gate = EndGate {
        rt: host,
        marks: &marks,
        held,
        others,
    };
    let mut world = HeldWorld::make(alloc, host, plan, &marks, Waits::ForNothing)?;
    let status = run(rt, alloc, words_of(alloc)?.as_slice(), &mut world, &gate);
    println!(rt; "status {status}")?;
    print_left(rt, alloc, &world, Some(held))?;
    print_whether_given_up(rt, &marks)
}

// Runs a session of many segments, behind the first of which two inputs wait for one another.
fn run_in_segments<R: Print + Threads + Wait + Sync>(
    rt: &R,
    host: HostRuntime,
    plan: &str,
) -> anyhow::Result<()> {
    let alloc = host.alloc();
    let marks = Marks::new();
    let gate = AnewGate {
        rt: host,
        marks: &marks,
    };
    let mut few = String::from_str(alloc, "entries = 4131\n")?;
    few.push_str(plan)?;
    let mut world = HeldWorld::make(alloc, host, few, &marks, Waits::ForASegment)?;
    let status = run(rt, alloc, words_of(alloc)?.as_slice(), &mut world, &gate);
    println!(rt; "status {status}")?;
    print_left(rt, alloc, &world, Some(3))?;
    let of_1 = marks.anew_of_1.load(Ordering::SeqCst);
    let of_2 = marks.anew_of_2.load(Ordering::SeqCst);
    println!(rt; "came by behind a segment: {of_1} and {of_2}")?;
    print_whether_given_up(rt, &marks)
}

// Runs a session in which the ring of port 1 is filled before its first frame is judged.
fn run_full<R: Print + Threads + Wait + Sync>(
    rt: &R,
    host: HostRuntime,
    plan: String,
) -> anyhow::Result<()> {
    let alloc = host.alloc();
    let marks = Marks::new();
    let gate = FullGate {
        rt: host,
        marks: &marks,
    };
    let mut world = HeldWorld::make(alloc, host, plan, &marks, Waits::ForAFullRing)?;
    let status = run(rt, alloc, words_of(alloc)?.as_slice(), &mut world, &gate);
    println!(rt; "status {status}")?;
    for number in 1..=PORTS {
        if let Some(port) = Port::new(number) {
            print_records(rt, number, world.sent(port).unwrap_or(&[]), true)?;
        }
    }
    let asked = marks.asked_when_full.load(Ordering::SeqCst);
    println!(rt; "records that were asked for by then: {asked}")?;
    print_whether_given_up(rt, &marks)
}

// Says it where a wait was in vain.
fn print_whether_given_up(rt: &impl Print, marks: &Marks) -> anyhow::Result<()> {
    if marks.has_given_up() {
        println!(rt; "a wait was given up after 20 s")?;
    }
    Ok(())
}

// The words behind the program's name.
fn words_of(alloc: Global) -> Result<Vec<String>, AllocError> {
    let mut words = Vec::new(alloc);
    words.push(String::from_str(alloc, "serve")?)?;
    words.push(String::from_str(alloc, PLAN)?)?;
    Ok(words)
}

// Prints what standard error was told, the frames of each port, the replies, and what a check says of the journal. Of a port
// whose input was held back it prints how many frames were written.
fn print_left(
    rt: &impl Print,
    alloc: Global,
    world: &HeldWorld<'_>,
    held: Option<u8>,
) -> anyhow::Result<()> {
    let errors = String::from_utf8_lossy(alloc, world.told(Std::Err).unwrap_or(&[]))?;
    print!(rt; "standard error:\n{errors}")?;
    for number in 1..=PORTS {
        if let Some(port) = Port::new(number) {
            let records = world.sent(port).unwrap_or(&[]);
            print_records(rt, number, records, held == Some(number))?;
        }
    }
    let replies = String::from_utf8_lossy(alloc, world.replies().unwrap_or(&[]))?;
    print!(rt; "control:\n{replies}")?;
    let journal = world.journal().unwrap_or(&[]).to_vec(alloc)?;
    let mut source = MemSource::new(journal, 512, Vec::new(alloc));
    match check(alloc, &mut source) {
        Checked::Good { entries: _ } => println!(rt; "check: good")?,
        _ => println!(rt; "check: not good")?,
    }
    Ok(())
}

// Prints the records that were written at a port, or only how many they are.
fn print_records(
    rt: &impl Print,
    number: u8,
    records: &[u8],
    is_counted: bool,
) -> anyhow::Result<()> {
    if is_counted {
        let count = records.len() / RECORD_OCTETS;
        return Ok(println!(rt; "port {number}: {count} records in any order")?);
    }
    println!(rt; "port {number}:")?;
    for record in records.chunks(RECORD_OCTETS) {
        println!(rt; "{}", name_of(record))?;
    }
    Ok(())
}

// What a record is.
fn name_of(record: &[u8]) -> &'static str {
    if record == FIRST_OF_1.as_slice() {
        "first of port 1"
    } else if record == FIRST_OF_2.as_slice() {
        "first of port 2"
    } else if record == SECOND_OF_1.as_slice() {
        "second of port 1"
    } else if record == SECOND_OF_2.as_slice() {
        "second of port 2"
    } else if record == FIRST_OF_3.as_slice() {
        "first of port 3"
    } else if record == SECOND_OF_3.as_slice() {
        "second of port 3"
    } else {
        "another record"
    }
}
