//! What steps of a switch take.

use crate::frames::{Frame, packet, port, port_of, request};
use crate::load::Load;
use crate::switch::{drain_all, enter, switch, tick};
use savi_core::{Batch, Core};
use savi_kinds::{Moment, PORTS_MOST};
use std::alloc::{AllocError, Global};
use std::io;
use std::time::{CpuClock, Duration};

/// Behind so many frames all queues are drained, while the clock stands: a queue has room for two items of each.
const BLOCK: usize = 128;

/// When addresses are claimed by a first packet, when they are bound and seen last before the clock begins, and when it does
/// (ms).
const CLAIMED: Moment = 1_000;

const SEEN: Moment = 2_000;

pub const START: Moment = 2_001;

/// The steps that are timed at a switch, one in each ms.
#[derive(Clone, Copy)]
pub enum Steps<'a> {
    /// These frames in turn, over and over: so many times.
    Frames(&'a [Frame], u64),
    /// So many ticks, the first at this moment (ms).
    Ticks(Moment, u64),
}

/// How many steps were made, the stamp of the last (ms), and what they took of the processor's time; and how many frames
/// passed, or how many ticks found something due.
#[derive(Clone, Copy)]
pub struct Timed {
    pub steps: u64,
    pub stamp: Moment,
    pub took: Duration,
    pub done: u64,
}

impl Timed {
    // No step was made yet.
    fn new() -> Timed {
        Timed {
            steps: 0,
            stamp: START,
            took: Duration::ZERO,
            done: 0,
        }
    }

    // Counts a step, and whether it did what it is counted for. The next one comes one ms later.
    fn count(&mut self, is_done: bool) {
        self.steps = self.steps.wrapping_add(1);
        self.stamp = self.stamp.saturating_add(1);
        self.done = self.done.wrapping_add(u64::from(is_done));
    }
}

/// Makes a switch under this load and the steps at it, at so many switches.
pub fn time_steps<R: CpuClock>(
    rt: &R,
    alloc: Global,
    load: Load,
    steps: Steps,
    switches: u64,
) -> anyhow::Result<Timed> {
    let mut timed = Timed::new();
    let mut batch = Batch::make(alloc)?;
    for _ in 0..switches {
        time_switch(rt, alloc, load, steps, &mut batch, &mut timed)?;
    }
    Ok(timed)
}

// Makes a switch, and the steps at it.
fn time_switch<R: CpuClock>(
    rt: &R,
    alloc: Global,
    load: Load,
    steps: Steps,
    batch: &mut Batch,
    timed: &mut Timed,
) -> anyhow::Result<()> {
    let mut core = switch(alloc, load)?;
    time_at(rt, alloc, load, steps, &mut core, batch, timed)
}

// Makes the steps at a new switch, once it is under this load.
fn time_at<R: CpuClock>(
    rt: &R,
    alloc: Global,
    load: Load,
    steps: Steps,
    core: &mut Core,
    batch: &mut Batch,
    timed: &mut Timed,
) -> anyhow::Result<()> {
    for stamp in [CLAIMED, SEEN] {
        bind_all(alloc, core, batch, load, stamp)?;
    }
    learn_all(alloc, core, batch, load)?;
    ask_all(alloc, core, batch, load)?;
    match steps {
        Steps::Frames(frames, times) => enter_over(rt, core, batch, frames, times, timed)?,
        Steps::Ticks(first, count) => tick_all(rt, core, first, count, timed)?,
    }
    Ok(())
}

// A packet comes of each address: the first one claims it, and the second one comes once it is bound.
fn bind_all(
    alloc: Global,
    core: &mut Core,
    batch: &mut Batch,
    load: Load,
    stamp: Moment,
) -> Result<(), AllocError> {
    for n in 0..load.addresses {
        let at = port_of(n, load.hosts);
        let frame = packet(alloc, n, (at, 0), (at, 0))?;
        enter(core, &frame, stamp);
        drain_all(core, batch);
    }
    Ok(())
}

// A packet comes from each station.
fn learn_all(
    alloc: Global,
    core: &mut Core,
    batch: &mut Batch,
    load: Load,
) -> Result<(), AllocError> {
    for n in 0..u64::from(load.ports) {
        for k in 0..load.stations_a_port {
            let frame = packet(alloc, n, (port(n), k), (port(n), 0))?;
            enter(core, &frame, SEEN);
            drain_all(core, batch);
        }
    }
    Ok(())
}

// A request comes of each that is to be open.
fn ask_all(
    alloc: Global,
    core: &mut Core,
    batch: &mut Batch,
    load: Load,
) -> Result<(), AllocError> {
    for n in 0..load.requests {
        let frame = request(alloc, n, PORTS_MOST as u64)?;
        enter(core, &frame, SEEN);
        drain_all(core, batch);
    }
    Ok(())
}

// Enters the frames in turn, over and over.
fn enter_over<R: CpuClock>(
    rt: &R,
    core: &mut Core,
    batch: &mut Batch,
    frames: &[Frame],
    times: u64,
    timed: &mut Timed,
) -> io::Result<()> {
    timed.stamp = START;
    for _ in 0..times {
        for block in frames.chunks(BLOCK) {
            enter_block(rt, core, block, timed)?;
            drain_all(core, batch);
        }
    }
    Ok(())
}

// Enters some frames in turn.
fn enter_block<R: CpuClock>(
    rt: &R,
    core: &mut Core,
    block: &[Frame],
    timed: &mut Timed,
) -> io::Result<()> {
    let start = rt.thread_cpu_time()?;
    for frame in block {
        let passes = enter(core, frame, timed.stamp);
        timed.count(passes);
    }
    let took = rt.thread_cpu_time()?.saturating_sub(start);
    timed.took = timed.took.saturating_add(took);
    Ok(())
}

// Makes the ticks.
fn tick_all<R: CpuClock>(
    rt: &R,
    core: &mut Core,
    first: Moment,
    count: u64,
    timed: &mut Timed,
) -> io::Result<()> {
    timed.stamp = first;
    let start = rt.thread_cpu_time()?;
    for _ in 0..count {
        let is_due = tick(core, timed.stamp);
        timed.count(is_due);
    }
    let took = rt.thread_cpu_time()?.saturating_sub(start);
    timed.took = timed.took.saturating_add(took);
    Ok(())
}
