//! Arrivals at the ports of a plan, and what is written of them.

use crate::frames::{Frames, arrival_of};
use crate::plans::learn_plan;
use anyhow::bail;
use ra_learn::{Coming, Learner, Report, WINDOW_MOST_MS, learn};
use savi_ends::{MemSink, Put};
use savi_kinds::Plan;
use std::alloc::{AllocError, Global};

/// The most ports of a plan.
const PORTS_MOST: usize = 16;

/// Room for what is written.
const ROOM: usize = 4096;

/// What came in at the ports of a plan, and a learner beside it that is asked.
#[derive(Drop)]
pub struct History {
    plan: Plan,
    window: u64,
    report: Report,
    sink: MemSink,
    pub learner: Learner,
}

impl History {
    /// Nothing has come yet: the text is the window in ms, and the prefix of the plan, if it has one.
    pub fn new(alloc: Global, text: &str) -> anyhow::Result<History> {
        let (window, prefix) = text.split_once(' ').unwrap_or((text, ""));
        let window = window.parse::<u64>()?;
        Ok(History::at_start(alloc, learn_plan(alloc, prefix)?, window)?)
    }

    // Nothing has come yet at the ports of this plan.
    fn at_start(alloc: Global, plan: Plan, window: u64) -> Result<History, AllocError> {
        let window = window.min(WINDOW_MOST_MS);
        Ok(History {
            report: Report::make(alloc, &plan, window)?,
            learner: Learner::make(alloc, &plan, window)?,
            sink: MemSink::make(alloc, ROOM, Vec::new(alloc))?,
            plan,
            window,
        })
    }

    /// A history begins anew.
    pub fn begin(&mut self, alloc: Global, text: &str) -> anyhow::Result<()> {
        *self = History::new(alloc, text)?;
        Ok(())
    }

    /// The write of this number will fail.
    pub fn fail(&mut self, alloc: Global, write: &str) -> anyhow::Result<()> {
        let fails = [write.parse::<u64>()?].to_vec(alloc)?;
        self.sink = MemSink::make(alloc, ROOM, fails)?;
        Ok(())
    }

    /// A frame comes in: its port, stamp (ms) and name.
    pub fn frame(&mut self, frames: &Frames, text: &str) -> anyhow::Result<()> {
        let (port, stamp, name) = arrival_of(text)?;
        let octets = frames.get(name)?;
        self.report.frame(port, stamp, octets, &mut self.sink);
        Ok(())
    }

    /// A longer frame comes in: its port, stamp (ms) and octets.
    pub fn long(&mut self, text: &str) -> anyhow::Result<()> {
        let (port, stamp, octets) = arrival_of(text)?;
        self.report.long(port, stamp, octets.parse::<u64>()?);
        Ok(())
    }

    /// Prints what was written of all that came.
    pub fn finish(&mut self, rt: &impl Print) -> anyhow::Result<()> {
        if self.plan.ports.as_slice().len() > PORTS_MOST {
            bail!("too many ports");
        }
        let put = self.report.finish(&self.plan, &mut self.sink);
        self.print(rt, put)
    }

    /// Prints what is written of a longer frame alone: its port, stamp and octets.
    pub fn learn(&mut self, rt: &impl Print, alloc: Global, text: &str) -> anyhow::Result<()> {
        let (port, stamp, octets) = arrival_of(text)?;
        let len = octets.parse::<u64>()?;
        if self.plan.ports.as_slice().len() > PORTS_MOST || self.window > WINDOW_MOST_MS {
            bail!("too many ports, or too long a window");
        }
        let arrivals = [Coming::Long { port, stamp, len }];
        let put = learn(alloc, &self.plan, self.window, &arrivals, &mut self.sink)?;
        self.print(rt, put)
    }

    // Prints what was written, and whether a write failed.
    fn print(&self, rt: &impl Print, put: Put) -> anyhow::Result<()> {
        print!(rt; "{}", str::from_utf8(self.sink.written())?)?;
        match put {
            Put::Done => println!(rt; "no write failed")?,
            Put::Failed => println!(rt; "a write failed")?,
        }
        Ok(())
    }
}
