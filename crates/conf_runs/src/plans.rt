//! What is said of a text.

ghost use Rattle.savi_kinds.specs.ValidPlan.{IsValidPlan};

use hist_store::{JournalLine, put_header};
use savi_conf::{ConfFault, read_plan};
use savi_kinds::Plan;
use std::alloc::Global;

/// The number of the fault of a text in a replay of captures, 0 where it has a plan, or 255 where it isn't TOML or there was
/// no memory.
pub fn fault_in(alloc: Global, text: &[u8]) -> u8 {
    match read_plan(alloc, text, true) {
        Ok(_) => 0,
        Err(ConfFault::Bad(number)) => number,
        Err(ConfFault::NotToml | ConfFault::NoMemory) => 255,
    }
}

/// Prints the plan of a text, or its fault.
pub fn print_answer(
    rt: &impl Print,
    alloc: Global,
    text: &[u8],
    replay: bool,
) -> anyhow::Result<()> {
    match read_plan(alloc, text, replay) {
        Ok(plan) => print_plan(rt, &plan),
        Err(fault) => Ok(println!(rt; "  {fault}")?),
    }
}

// Prints a plan: the head of its journal, and the names that aren't there.
fn print_plan(rt: &impl Print, plan: &Plan) -> anyhow::Result<()>
    requires { IsValidPlan plan.now }
{
    let mut head = JournalLine::new();
    put_header(plan, &mut head);
    print!(rt; "{}", str::from_utf8(head.as_slice())?)?;
    println!(rt; "journal {:?}", plan.journal.as_str())?;
    if let Some((input, output)) = &plan.control {
        println!(rt; "control {:?} {:?}", input.as_str(), output.as_str())?;
    }
    for port in plan.ports.as_slice() {
        let (number, input) = (port.number.get(), port.input.as_str());
        println!(rt; "port {number} {input:?} {:?}", port.output.as_str())?;
    }
    Ok(())
}
