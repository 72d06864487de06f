//! The ends of a short history, and what is said of them.

use crate::input::{number_of, port_of};
use anyhow::bail;
use savi_ends::MemSink;
use savi_kinds::{How, Who};
use std::alloc::Global;
use switch_report::{
    Summary, put_summary, tell_each, told_failed, told_failed_write, told_malformed,
};

/// Room for what is said of them.
const ROOM: usize = 128;

/// The ends of a history, in order.
#[derive(Drop)]
pub struct History {
    ends: Vec<(Who, How)>,
}

impl History {
    /// An empty history.
    pub fn new(alloc: Global) -> History {
        History {
            ends: Vec::new(alloc),
        }
    }

    /// The history is empty.
    pub fn begin(&mut self, alloc: Global) {
        *self = History::new(alloc);
    }

    /// A pass ends: which one, and how.
    pub fn end(&mut self, text: &str) -> anyhow::Result<()> {
        let (who, rest) = who_of(text)?;
        self.ends.push((who, how_of(rest)?))?;
        Ok(())
    }

    /// Prints what saying the lines of the ends comes to, and what was said: the write of this number fails.
    pub fn print_ends(&self, rt: &impl Print, alloc: Global, write: &str) -> anyhow::Result<()> {
        let fails = [write.parse::<u64>()?].to_vec(alloc)?;
        let mut sink = MemSink::make(alloc, ROOM, fails)?;
        let put = tell_each(self.ends.as_slice(), &mut sink);
        println!(rt; " {put:?} [{}]", str::from_utf8(sink.written())?)?;
        Ok(())
    }

    /// Prints whether an input was malformed, whether a read of one failed, whether a write of an output failed, and the
    /// summary of so many entries.
    pub fn print_kinds(&self, rt: &impl Print) -> anyhow::Result<()> {
        let ends = self.ends.as_slice();
        print!(rt; " malformed {}", told_malformed(ends))?;
        print!(rt; " failed {}", told_failed(ends))?;
        print!(rt; " failed write {}", told_failed_write(ends))?;
        let summary = put_summary(Summary {
            entries: ends.len() as u64,
            frames: 0,
            passed: 0,
            dropped: 0,
            probes: 0,
            lost: 0,
            cut: 0,
        });
        print!(rt; " {}", str::from_utf8(summary.as_slice())?)?;
        Ok(())
    }
}

// The pass at the front of a text, and what stands behind it.
fn who_of(text: &str) -> anyhow::Result<(Who, &str)> {
    let (word, rest) = text.split_once(' ').unwrap_or((text, ""));
    match word {
        "control" => Ok((Who::Control, rest)),
        "ticker" => Ok((Who::Ticker, rest)),
        "ingress" => {
            let (number, rest) = number_of(rest)?;
            Ok((Who::Ingress(port_of(number)?), rest))
        }
        "egress" => {
            let (number, rest) = number_of(rest)?;
            Ok((Who::Egress(port_of(number)?), rest))
        }
        _ => bail!("no pass: {text}"),
    }
}

// The end that a text is.
fn how_of(text: &str) -> anyhow::Result<How> {
    let (word, place) = text.split_once(' ').unwrap_or((text, "0"));
    let place = place.parse::<u64>()?;
    match word {
        "end" => Ok(How::End),
        "quit" => Ok(How::Quit),
        "malformed" => Ok(How::Malformed(place)),
        "overlong" => Ok(How::Overlong(place)),
        "failed" => Ok(How::Failed),
        "unwritten" => Ok(How::Unwritten),
        "paused" => Ok(How::Paused),
        _ => bail!("no end: {text}"),
    }
}
