//! Frames by their names, and where they come in.

ghost use Rattle.std.specs.Prelude.{◌≤◌, IfOk, length};

use anyhow::bail;
use savi_kinds::{FRAME_OCTETS_MOST, Port};
use std::alloc::Global;

/// Frames by their names.
#[derive(Drop)]
pub struct Frames {
    named: Vec<(String, Vec<u8>)>,
}

impl Frames {
    /// No frame has a name.
    pub fn new(alloc: Global) -> Frames {
        Frames {
            named: Vec::new(alloc),
        }
    }

    /// Gives a frame its name, which stands before its digits.
    pub fn add(&mut self, alloc: Global, rest: &str) -> anyhow::Result<()> {
        let Some((name, digits)) = rest.split_once(' ') else {
            bail!("no name and digits: {rest}");
        };
        let octets = hex::decode(alloc, digits)?;
        self.named.push((String::from_str(alloc, name)?, octets))?;
        Ok(())
    }

    /// The octets of the frame of this name, at most 1,518.
    pub fn get(&self, name: &str) -> anyhow::Result<&[u8]>
        ensures { IfOk result (λ frame. length frame.now ≤ FRAME_OCTETS_MOST) }
    {
        for (known, octets) in &self.named {
            if known.as_str() == name && octets.len() <= FRAME_OCTETS_MOST {
                return Ok(octets.as_slice());
            }
        }
        bail!("no frame: {name}")
    }
}

/// The port and the moment (ms) at the front of a text, and what stands behind them.
pub fn arrival_of(text: &str) -> anyhow::Result<(Port, u64, &str)> {
    let Some((port, rest)) = text.split_once(' ') else {
        bail!("no port: {text}");
    };
    let (moment, rest) = rest.split_once(' ').unwrap_or((rest, ""));
    Ok((port_of(port)?, moment.parse::<u64>()?, rest))
}

/// The port of this number.
pub fn port_of(digits: &str) -> anyhow::Result<Port> {
    match Port::new(digits.parse::<u8>()?) {
        Some(port) => Ok(port),
        None => bail!("no port: {digits}"),
    }
}
