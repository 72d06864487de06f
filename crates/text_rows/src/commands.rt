//! Commands.

use crate::input::text_of;
use cli_lang::{CmdFault, Command, command};
use savi_kinds::put_addr;
use std::alloc::Global;

/// Prints the command that a line is, or why it is none.
pub fn print_command(rt: &impl Print, alloc: Global, written: &str) -> anyhow::Result<()> {
    let line = text_of(alloc, written)?;
    let word = match command(line.as_bytes()) {
        Ok(Command::Clear(vlan, addr)) => {
            return Ok(println!(rt; " forget {} in VLAN {vlan}", put_addr(addr))?);
        }
        Ok(Command::Static(addr, port)) => {
            return Ok(println!(rt; " bind {} to port {}", put_addr(addr), port.get())?);
        }
        Ok(Command::Shut(port)) => return Ok(println!(rt; " shut port {}", port.get())?),
        Ok(Command::Reopen(port)) => return Ok(println!(rt; " open port {}", port.get())?),
        Ok(Command::ShowBindings) => "bindings",
        Ok(Command::ShowPorts) => "ports",
        Ok(Command::ShowCounters) => "counters",
        Ok(Command::ShowStations) => "stations",
        Ok(Command::Quit) => "quit",
        Err(CmdFault::Unknown) => "no command",
        Err(CmdFault::Address) => "no address",
        Err(CmdFault::PortNumber) => "no port",
    };
    Ok(println!(rt; " {word}")?)
}
