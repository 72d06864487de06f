//! A plan, and the events that its switch meets.

ghost use Rattle.savi_kinds.specs.ValidPlan.{IsValidPlan};

use crate::events::{command, drain, end, fail, frame, long, tick};
use anyhow::{Context, bail};
use savi_conf::read_plan;
use savi_core::{Batch, Core, Reply, Stepped};
use savi_kinds::{Plan, Port};
use std::alloc::{AllocError, Global};

/// Frames by their names, a configuration, and the lines of events.
#[derive(Drop)]
pub struct Scene {
    frames: Vec<(String, Vec<u8>)>,
    text: String,
    lines: Vec<String>,
}

impl Scene {
    /// No frame has a name, and there is no plan.
    pub fn new(alloc: Global) -> Scene {
        Scene {
            frames: Vec::new(alloc),
            text: String::new(alloc),
            lines: Vec::new(alloc),
        }
    }

    /// Forgets the plan and its events.
    pub fn begin(&mut self, alloc: Global) -> Result<(), AllocError> {
        self.text = String::new(alloc);
        self.lines = Vec::new(alloc);
        Ok(())
    }

    /// A line of the input that begins no scene.
    pub fn add(&mut self, alloc: Global, line: &str) -> anyhow::Result<()> {
        let (word, rest) = line.split_once(' ').unwrap_or((line, ""));
        match word {
            "" | "#" => {}
            "name" => {
                let (name, digits) = rest.split_once(' ').context("a name without digits")?;
                let octets = hex::decode(alloc, digits)?;
                self.frames.push((String::from_str(alloc, name)?, octets))?;
            }
            "line" => {
                self.text.push_str(rest)?;
                self.text.push('\n')?;
            }
            _ => self.lines.push(String::from_str(alloc, line)?)?,
        }
        Ok(())
    }

    /// Plays the scene, where there is a plan.
    pub fn play(&self, rt: &impl Print, alloc: Global) -> anyhow::Result<()> {
        if self.text.as_str().is_empty() {
            return Ok(());
        }
        match read_plan(alloc, self.text.as_bytes(), true) {
            Ok(plan) => self.play_on(rt, alloc, plan),
            Err(fault) => Ok(println!(rt; "{fault}")?),
        }
    }

    // Plays it on a switch of this plan.
    fn play_on(&self, rt: &impl Print, alloc: Global, plan: Plan) -> anyhow::Result<()>
        requires { IsValidPlan plan }
    {
        let mut core = Core::make(alloc, plan)?;
        let mut batch = Batch::make(alloc)?;
        let mut reply = Reply::make(alloc)?;
        self.play_lines(rt, alloc, &mut core, &mut batch, &mut reply)
    }

    // Puts the events to this switch, one by one.
    fn play_lines(
        &self,
        rt: &impl Print,
        alloc: Global,
        core: &mut Core,
        batch: &mut Batch,
        reply: &mut Reply,
    ) -> anyhow::Result<()> {
        for line in &self.lines {
            println!(rt; "{line}")?;
            match self.follow(core, line.as_str(), batch, reply)? {
                Some(stepped) => {
                    println!(rt; "  {} {stepped:?}", core.len())?;
                    if matches!(stepped, Stepped::Done(_)) {
                        self.print_rest(rt, alloc, line.as_str(), batch, reply)?;
                    }
                }
                None => println!(rt; "  not open")?,
            }
        }
        Ok(())
    }

    // Puts the event of a line to a switch.
    fn follow(
        &self,
        core: &mut Core,
        line: &str,
        batch: &mut Batch,
        reply: &mut Reply,
    ) -> anyhow::Result<Option<Stepped>> {
        let (word, rest) = line.split_once(' ').unwrap_or((line, ""));
        let (first, rest) = rest.split_once(' ').unwrap_or((rest, ""));
        match word {
            "frame" | "long" => self.come_in(core, word, port_of(first)?, rest),
            "command" => Ok(command(core, first.parse::<u64>()?, rest.as_bytes(), reply)),
            "tick" => Ok(tick(core, first.parse::<u64>()?)),
            "end" => Ok(end(core, port_of(first)?)),
            "fail" => Ok(fail(core, port_of(first)?)),
            "drain" => Ok(drain(core, port_of(first)?, rest.parse::<u32>()?, batch)),
            _ => bail!("no line of the input: {line}"),
        }
    }

    // Puts a frame to a switch: its stamp, and its name or how long it is, stand in the rest of its line.
    fn come_in(
        &self,
        core: &mut Core,
        word: &str,
        port: Port,
        rest: &str,
    ) -> anyhow::Result<Option<Stepped>> {
        let (stamp, frame_name) = rest.split_once(' ').unwrap_or((rest, ""));
        let stamp = stamp.parse::<u64>()?;
        if word == "long" {
            return Ok(long(core, port, stamp, frame_name.parse::<u32>()?));
        }
        Ok(frame(core, port, stamp, self.octets(frame_name)))
    }

    // Prints the items of a drain, or the reply to a command.
    fn print_rest(
        &self,
        rt: &impl Print,
        alloc: Global,
        line: &str,
        batch: &Batch,
        reply: &Reply,
    ) -> anyhow::Result<()> {
        if line.starts_with("drain ") {
            for i in 0..batch.len() {
                let (moment, octets) = batch.item(i);
                println!(rt; "  at {moment}: {}", self.name_of(alloc, octets)?)?;
            }
        }
        if line.starts_with("command ") {
            print!(rt; "{}", str::from_utf8(reply.octets())?)?;
        }
        Ok(())
    }

    // The octets of the frame of this name.
    fn octets(&self, name: &str) -> &[u8] {
        for (known, octets) in &self.frames {
            if known.as_str() == name {
                return octets.as_slice();
            }
        }
        &[]
    }

    // The name of a frame of these octets, or their digits.
    fn name_of(&self, alloc: Global, octets: &[u8]) -> Result<String, AllocError> {
        for (name, known) in &self.frames {
            if known.as_slice() == octets {
                return name.clone();
            }
        }
        hex::encode(alloc, octets)
    }
}

// The port of this number in digits.
fn port_of(digits: &str) -> anyhow::Result<Port> {
    match Port::new(digits.parse::<u8>()?) {
        Some(port) => Ok(port),
        None => bail!("no port: {digits}"),
    }
}
