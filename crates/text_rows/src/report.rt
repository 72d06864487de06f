//! What a run says itself on standard error.

use crate::input::{port_of, text_of};
use anyhow::bail;
use savi_conf::ConfFault;
use savi_ends::MemSink;
use std::alloc::{AllocError, Global};
use switch_report::{
    port_name, tell_config, tell_memory, tell_unopened, tell_unread, tell_unwritten, tell_usage,
};

/// Room for what is said.
const ROOM: usize = 512;

/// Standard error.
#[derive(Drop)]
pub struct Report {
    sink: MemSink,
}

impl Report {
    /// Nothing was said yet.
    pub fn new(alloc: Global) -> Result<Report, AllocError> {
        Ok(Report {
            sink: MemSink::make(alloc, ROOM, Vec::new(alloc))?,
        })
    }

    /// Nothing was said yet, and the write of this number will fail.
    pub fn begin(&mut self, alloc: Global, write: &str) -> anyhow::Result<()> {
        let fails = [write.parse::<u64>()?].to_vec(alloc)?;
        self.sink = MemSink::make(alloc, ROOM, fails)?;
        Ok(())
    }

    /// Prints what saying this comes to: a word, and the name or the number behind it.
    pub fn say(&mut self, rt: &impl Print, alloc: Global, rest: &str) -> anyhow::Result<()> {
        let (word, written) = rest.split_once(' ').unwrap_or((rest, ""));
        let name = name_of(alloc, written)?;
        let put = match word {
            "usage" => tell_usage(&mut self.sink),
            "memory" => tell_memory(&mut self.sink),
            "config" => tell_config(&mut self.sink, fault_of(written)?),
            "unopened" => tell_unopened(&mut self.sink, name.as_str()),
            "unread" => tell_unread(&mut self.sink, name.as_str()),
            "unwritten" => tell_unwritten(&mut self.sink, name.as_str()),
            _ => bail!("nothing to say: {rest}"),
        };
        println!(rt; " {put:?}")?;
        Ok(())
    }

    /// Prints what was said.
    pub fn print(&self, rt: &impl Print) -> anyhow::Result<()> {
        println!(rt; " [{}]", str::from_utf8(self.sink.written())?)?;
        Ok(())
    }
}

// The name that is meant: that of a port where its number stands behind `#`, or this text.
fn name_of(alloc: Global, written: &str) -> anyhow::Result<String> {
    match written.strip_prefix('#') {
        Some(number) => {
            let name = port_name(port_of(number.parse::<u64>()?)?);
            Ok(String::from_str(alloc, name.as_str())?)
        }
        None => Ok(text_of(alloc, written)?),
    }
}

// The fault of a configuration that is meant.
fn fault_of(written: &str) -> anyhow::Result<ConfFault> {
    match written {
        "no_memory" => Ok(ConfFault::NoMemory),
        "not_toml" => Ok(ConfFault::NotToml),
        _ => Ok(ConfFault::Bad(written.parse::<u8>()?)),
    }
}
