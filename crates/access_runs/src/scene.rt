//! A history of frames, and what it shows.

ghost use Rattle.std.specs.Prelude.{◌≤◌, ◌^◌, ℕ};
ghost use Rattle.savi_kinds.specs.ValidPlan.{IsValidPlan};
ghost use Rattle.savi_access.specs.Plans.{rules_of};
ghost use Rattle.access_table.specs.Kept.{IsAgedTo};

use crate::switch::{age, at_start, verdict_on};
use access_table::AccessTable;
use savi_conf::read_plan;
use savi_kinds::{LAST_MOMENT, Moment, Plan, Port, put_addr};
use std::alloc::{AllocError, Global};

/// A switch that validates sources: the ports of hosts 1, 2 and 3, a trusted port 4, that of a server 5, and a prefix of
/// each method.
const PLAN: &str = r#"
mac = "02:00:00:00:00:01"
journal = "journal.txt"
savi = "on"
port = [
  { number = 1, role = "host", input = "1.pcap", output = "1.out" },
  { number = 2, role = "host", input = "2.pcap", output = "2.out" },
  { number = 3, role = "host", input = "3.pcap", output = "3.out" },
  { number = 4, role = "trusted", input = "4.pcap", output = "4.out" },
  { number = 5, role = "server", input = "5.pcap", output = "5.out" },
]
prefix = [
  { prefix = "2001:db8:1::/64", method = "fcfs" },
  { prefix = "2001:db8:2::/64", method = "dhcp" },
  { prefix = "2001:db8:3::/64", method = "mixed" },
]
"#;

/// Frames by their names, how many addresses a port may hold, and the lines of a history.
#[derive(Drop)]
pub struct Scene {
    frames: Vec<(String, Vec<u8>)>,
    per_port: String,
    lines: Vec<String>,
}

impl Scene {
    /// No frame has a name, and nothing happens.
    pub fn new(alloc: Global) -> Scene {
        Scene {
            frames: Vec::new(alloc),
            per_port: String::new(alloc),
            lines: Vec::new(alloc),
        }
    }

    /// A new history begins.
    pub fn begin(&mut self, alloc: Global, per_port: &str) -> Result<(), AllocError> {
        self.per_port = String::from_str(alloc, per_port)?;
        self.lines = Vec::new(alloc);
        Ok(())
    }

    /// A line of the input that begins no history.
    pub fn add(&mut self, alloc: Global, line: &str) -> anyhow::Result<()> {
        match line.strip_prefix("name ") {
            Some(rest) => self.name(alloc, rest)?,
            None => self.lines.push(String::from_str(alloc, line)?)?,
        }
        Ok(())
    }

    // Gives a frame its name.
    fn name(&mut self, alloc: Global, rest: &str) -> anyhow::Result<()> {
        if let Some((name, digits)) = rest.split_once(' ') {
            let octets = hex::decode(alloc, digits)?;
            self.frames.push((String::from_str(alloc, name)?, octets))?;
        }
        Ok(())
    }

    // The octets of the frame of this name.
    fn frame(&self, name: &str) -> Option<&[u8]> {
        for (known, octets) in &self.frames {
            if known.as_str() == name {
                return Some(octets.as_slice());
            }
        }
        None
    }
}

/// Plays the history, where one has begun.
pub fn play(rt: &impl Print, alloc: Global, scene: &Scene) -> anyhow::Result<()> {
    if scene.per_port.as_str().is_empty() {
        return Ok(());
    }
    println!(rt; "== {} addresses a port", scene.per_port)?;
    let per_port = scene.per_port.as_str();
    let text = format!(in alloc; "per_port = {per_port}\n{PLAN}")?;
    match read_plan(alloc, text.as_bytes(), true) {
        Ok(plan) => play_on(rt, alloc, scene, &plan),
        Err(fault) => Ok(println!(rt; "{fault:?}")?),
    }
}

// Plays it on a switch of this plan.
fn play_on(rt: &impl Print, alloc: Global, scene: &Scene, plan: &Plan) -> anyhow::Result<()>
    requires { IsValidPlan plan.now }
{
    let mut table = at_start(alloc, plan)?;
    for line in &scene.lines {
        follow(rt, &mut table, plan, scene, line.as_str())?;
    }
    Ok(())
}

// One step of a history.
fn follow(
    rt: &impl Print,
    table: &mut AccessTable,
    plan: &Plan,
    scene: &Scene,
    line: &str,
) -> anyhow::Result<()>
    requires plan { IsValidPlan plan.now }
    requires ready { (from : ℕ) × IsAgedTo (rules_of plan.now) from table.old }
    ensures { (from : ℕ) × IsAgedTo (rules_of plan.now) from table.new }
{
    let mut words = line.split(' ');
    match (words.next(), words.next(), words.next(), words.next()) {
        (Some("frame"), Some(port), Some(moment), Some(name)) => {
            enter(rt, table, plan, scene, (port, moment, name))
        }
        (Some("show"), Some(moment), None, None) => show(rt, table, plan, moment),
        _ => Ok(println!(rt; "{line}: no step")?),
    }
}

// A frame at a port, by its name.
fn enter(
    rt: &impl Print,
    table: &mut AccessTable,
    plan: &Plan,
    scene: &Scene,
    words: (&str, &str, &str),
) -> anyhow::Result<()>
    requires plan { IsValidPlan plan.now }
    requires ready { (from : ℕ) × IsAgedTo (rules_of plan.now) from table.old }
    ensures { (from : ℕ) × IsAgedTo (rules_of plan.now) from table.new }
{
    let (number, moment, name) = words;
    let t = moment_of(moment);
    let octets = scene.frame(name).unwrap_or(&[]);
    match port_of(number) {
        Some(port) => {
            let verdict = verdict_on(table, plan, port, t, octets);
            println!(rt; "port {number} at {moment}: {name}: {verdict:?}")?;
        }
        None => println!(rt; "{number}: no port")?,
    }
    Ok(())
}

// The states at a moment.
fn show(rt: &impl Print, table: &mut AccessTable, plan: &Plan, moment: &str) -> anyhow::Result<()>
    requires ready { (from : ℕ) × IsAgedTo (rules_of plan.now) from table.old }
    ensures { (from : ℕ) × IsAgedTo (rules_of plan.now) from table.new }
{
    age(table, plan, moment_of(moment));
    println!(rt; "at {moment}:")?;
    for i in 0..table.size() {
        if let Some((a, state)) = table.row(i) {
            println!(rt; "  {} {state:?}", put_addr(a))?;
        }
    }
    Ok(())
}

// A moment in digits, at most 2^62.
fn moment_of(digits: &str) -> Moment
    ensures { result ≤ 2 ^ 62 }
{
    match digits.parse::<u64>() {
        Ok(moment) => moment.min(LAST_MOMENT),
        Err(_) => 0,
    }
}

// A port by its number in digits.
fn port_of(digits: &str) -> Option<Port> {
    match digits.parse::<u8>() {
        Ok(number) => Port::new(number),
        Err(_) => None,
    }
}
