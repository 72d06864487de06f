//! A world of ends in memory.

ghost use Rattle.std.specs.Prelude.{◌≡◌, List, ℕ};
ghost use Rattle.savi_ends.specs.Places.{BothFresh, ControlKey, HandedNothing, IsReady, port_key};

use crate::input::{number_of, port_of};
use anyhow::bail;
use savi_ends::{Ends, MemClock, MemEnds, MemSink, MemSource, MemWorld, Std, World};
use savi_kinds::{DEFAULT_VLAN, Format, PortPlan, Role, Text, Vlan};
use std::alloc::{AllocError, Global};

/// Prints what the openings of an input, an output, a port and control come to in a world with an input and an output of
/// name 1 and port 1: the name and the port that are opened, and the number of the opening that fails. Behind them stands
/// how many were tried, how many failed, and whether each place holds its end again.
pub fn print_world(rt: &impl Print, alloc: Global, rest: &str) -> anyhow::Result<()> {
    let (name, rest) = rest.split_once(' ').unwrap_or((rest, ""));
    let (number, rest) = number_of(rest)?;
    let (opening, _) = number_of(rest)?;
    let mut world = world(alloc, opening)?;
    let plan = port_plan(alloc, number)?;
    if !world.is_fresh() {
        bail!("not a new world");
    }
    uses_the_rest(&mut world);
    if !world.is_fresh() {
        bail!("not as it was");
    }
    for works in opens_each(&mut world, name, &plan) {
        print!(rt; " {}", if works { "works" } else { "fails" })?;
    }
    print!(rt; " {} {}", world.opened, world.faulty)?;
    world.opened = 0;
    world.faulty = 0;
    println!(rt; " {}", world.is_fresh())?;
    Ok(())
}

fn text(alloc: Global, s: &str) -> Result<Text, AllocError> {
    Ok(Text::new(String::from_str(alloc, s)?))
}

fn source(alloc: Global) -> Result<MemSource, AllocError> {
    Ok(MemSource::new([1, 2].to_vec(alloc)?, 9, Vec::new(alloc)))
}

fn sink(alloc: Global) -> Result<MemSink, AllocError> {
    MemSink::make(alloc, 9, Vec::new(alloc))
}

fn ends(alloc: Global) -> Result<MemEnds, AllocError> {
    Ok(Ends {
        source: source(alloc)?,
        sink: sink(alloc)?,
        clock: MemClock::new(Vec::new(alloc)),
    })
}

// A world with an end in each place, whose opening of this number fails.
fn world(alloc: Global, fails: u64) -> anyhow::Result<MemWorld> {
    Ok(MemWorld {
        inputs: vec![in alloc; (text(alloc, "1")?, Some(source(alloc)?))]?,
        outputs: vec![in alloc; (text(alloc, "1")?, Some(sink(alloc)?))]?,
        ports: vec![in alloc; (port_of(1)?, Some(ends(alloc)?))]?,
        control: Some(ends(alloc)?),
        ticker: Some(MemClock::new(Vec::new(alloc))),
        out: Some(sink(alloc)?),
        err: Some(sink(alloc)?),
        fails: [fails].to_vec(alloc)?,
        opened: 0,
        faulty: 0,
    })
}

fn port_plan(alloc: Global, number: u64) -> anyhow::Result<PortPlan> {
    Ok(PortPlan {
        number: port_of(number)?,
        role: Role::Host,
        format: Format::Pcap,
        input: text(alloc, "in")?,
        output: text(alloc, "out")?,
        vlan: Vlan::Access(DEFAULT_VLAN),
    })
}

// Each opens an end by way of the trait alone, and keeps it. The answer is whether the opening works.
fn opens_input<W: World>(world: &mut W, name: &str) -> bool
    requires { (any : List ℕ) → IsReady (λ s. W.S.faults s ≡ 0) ((W.book world.old).inputs any) }
    ensures { W.book world.new ≡ record (W.book world.old) { faults = (W.book world.new).faults; inputs = (W.book world.new).inputs } }
{
    match world.input(name) {
        Ok(source) => {
            world.keep_input(source);
            true
        }
        Err(_) => false,
    }
}

fn opens_output<W: World>(world: &mut W, name: &str) -> bool
    requires { IsReady (λ k. W.K.faults k ≡ 0) ((W.book world.old).outputs name.now) }
    ensures { W.book world.new ≡ record (W.book world.old) { faults = (W.book world.new).faults; outputs = (W.book world.new).outputs } }
{
    match world.output(name) {
        Ok(sink) => {
            world.keep_output(name, sink);
            true
        }
        Err(_) => false,
    }
}

fn opens_port<W: World>(world: &mut W, plan: &PortPlan) -> bool
    requires { IsReady (BothFresh W.S.faults W.K.faults) ((W.book world.old).ports (port_key plan.now)) }
    ensures { W.book world.new ≡ record (W.book world.old) { faults = (W.book world.new).faults; ports = (W.book world.new).ports } }
{
    match world.port(plan.number, plan) {
        Ok(ends) => {
            world.keep_port(plan.number, ends);
            true
        }
        Err(_) => false,
    }
}

fn opens_control<W: World>(world: &mut W) -> bool
    requires { (key : ControlKey) → IsReady (BothFresh W.S.faults W.K.faults) ((W.book world.old).control key) }
{
    match world.control("in", "out", true) {
        Ok(ends) => {
            world.keep_control(ends);
            true
        }
        Err(_) => false,
    }
}

fn opens_each<W: World>(world: &mut W, name: &str, plan: &PortPlan) -> [bool; 4]
    requires { HandedNothing W.S.faults W.K.faults (W.book world.old) }
{
    let input = opens_input(world, name);
    let output = opens_output(world, name);
    let port = opens_port(world, plan);
    [input, output, port, opens_control(world)]
}

// Takes the ticker's clock and both standard outputs, and keeps them.
fn uses_the_rest<W: World>(world: &mut W)
    requires { HandedNothing W.S.faults W.K.faults (W.book world.old) }
{
    let clock = world.ticker();
    world.keep_ticker(clock);
    let out = world.std(Std::Out);
    world.keep_std(Std::Out, out);
    let err = world.std(Std::Err);
    world.keep_std(Std::Err, err);
}
