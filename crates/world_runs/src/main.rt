//! Runs of the whole program over a world in memory, whose openings, reads and writes fail where the input says so.
//!
//! The input is lines: those of a scene, and `run NAME`, which runs the program over that scene and prints what it leaves:
//! the status, what standard error and standard output were told, what was written at each port, the replies, where control
//! has an input, the journal, and what was written at each output that the scene names, or of a live session the ticks of
//! its journal, how each pass ended, and what a check says. A scene stays for the next run, but for the calls that fail. Its
//! lines, where a word of `OCTETS` is digits or a name:
//!
//!     name NAME DIGITS     octets in hexadecimal digits; in what is printed their name stands for them
//!     plan                 forgets the plan, the outputs, the head of the journal, the captures and control's input
//!     captures             forgets the captures and control's input
//!     line TEXT            a line of the configuration
//!     octets OCTETS..      octets that stand in its file next, behind its lines: all of them, where a capture is split
//!     output NAME          the name of an output beside the journal
//!     head TEXT            a line that its journal begins with; where it does, what stands behind that head is printed
//!     capture OCTETS..     what the next port's input holds
//!     load SEED FRAMES     the inputs hold the captures of this load; what is written is told by its digests then
//!     command TEXT         a line that control's input holds next
//!     control OCTETS..     octets that control's input holds next
//!     pieces NUMBER        how many octets a read of control gives at most, and in a live session one at a port
//!     drops PORT RULE NAME..   says which rule drops these frames at a port, and is passed over here
//!     answers TEXT         says what a check of the configuration's text, as a journal, answers, and is passed over here
//!     refused TEXT         says how the configuration is refused, and is passed over here
//!     words TEXT..         the words of the command line
//!     fails NUMBER WHICH   the call that fails, counted from 1: an `opening`, a read of the `plan`, `read N` or `write N`
//!                          at port N, `read control` or `write control`, `write NAME` at the output of this name, or a
//!                          write of the `journal`, of the `summary` or of an `error`
//!     clock WHICH READINGS..   the readings, in ms, of the clock of this port, of `control` or of the `ticker`
//!     hold PASS TURN OTHER NUMBER  holds this turn of a pass of a live session until the other pass has come by for its
//!                          turn of this number; where it doesn't within 20 s, a line says so
//!     leaves TEXT          a line that the run leaves, as it was worked out by hand, and is passed over here
//!     openings             prints also what the program asks of its world
//!
//! `tools/world-runs` works out what has to be printed, from the scenes and by the rules of `docs/FORMATS.md`.
#![tactic(auto)]

mod holding_gate;
mod left;
mod recording_world;
mod scene;
mod staging;

use holding_gate::HoldingGate;
use left::print_left;
use scene::Scene;
use staging::stage;
use std::alloc::Global;
use std::sync::Wait;
use std::thread::Threads;
use switch_run::run;

/// A session of sixteen ports has so many passes.
const PASSES_MOST: u32 = 34;

fn main(rt: HostRuntime) -> anyhow::Result<()> {
    let alloc = rt.alloc();
    let mut scene = Scene::new(alloc);
    for line in rt.lines(rt.alloc()) {
        let line = line?;
        match line.as_str().strip_prefix("run ") {
            Some(name) => play(&rt, alloc, &mut scene, name)?,
            None => scene.set(alloc, line.as_str())?,
        }
    }
    Ok(())
}

// Runs the program over a scene, and prints what it leaves.
fn play<R: Print + Threads + Wait + Sync>(
    rt: &R,
    alloc: Global,
    scene: &mut Scene,
    name: &str,
) -> anyhow::Result<()> {
    println!(rt; "== {name}")?;
    let mut staged = stage(alloc, scene)?;
    if staged.world.is_fresh() {
        let gate = HoldingGate::make(alloc, scene.holds.clone()?, PASSES_MOST)?;
        let status = run(rt, alloc, scene.words.as_slice(), &mut staged, &gate);
        print_left(rt, alloc, scene, &staged, status)?;
        if gate.has_given_up() {
            println!(rt; "a turn was held for 20 s in vain")?;
        }
    }
    scene.forget_faults(alloc);
    Ok(())
}
