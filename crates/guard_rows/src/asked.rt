//! What a learner answers, and what is read of an advertisement.

ghost use Rattle.std.specs.Prelude.{◌≤◌, length};

use crate::frames::{Frames, arrival_of};
use anyhow::bail;
use ra_learn::{ADVERT_OCTETS_MOST, Guard, Learner, read_ra};
use savi_kinds::{FRAME_OCTETS_LEAST, LAST_MOMENT, Prefix, put_addr};
use v6_chain::{HEADER_LEN, ip};

/// Prints a line that asks something, and what is answered.
pub fn ask(
    rt: &impl Print,
    learner: &mut Learner,
    frames: &Frames,
    line: &str,
) -> anyhow::Result<()> {
    let (word, rest) = line.split_once(' ').unwrap_or((line, ""));
    print!(rt; "{line}: ")?;
    match word {
        "see" => see(rt, learner, frames, rest),
        "state" => print_state(rt, learner, rest),
        "router" => print_router(rt, learner, rest),
        "prefix" => print_prefix(rt, learner, rest),
        "lost" => Ok(println!(rt; "{}", learner.lost())?),
        "read" => print_advert(rt, frames.get(rest)?),
        _ => bail!("no line of the input: {line}"),
    }
}

// Shows a frame to the learner.
fn see(rt: &impl Print, learner: &mut Learner, frames: &Frames, rest: &str) -> anyhow::Result<()> {
    let (port, moment, name) = arrival_of(rest)?;
    match learner.see(port, moment.min(LAST_MOMENT), frames.get(name)?) {
        Some(true) => println!(rt; "pass")?,
        Some(false) => println!(rt; "drop")?,
        None => println!(rt; "no advertisement")?,
    }
    Ok(())
}

// The state of a port at a moment.
fn print_state(rt: &impl Print, learner: &Learner, rest: &str) -> anyhow::Result<()> {
    let (port, moment, _) = arrival_of(rest)?;
    match learner.state(port, moment) {
        Guard::Learning => println!(rt; "learning")?,
        Guard::Blocking => println!(rt; "blocking")?,
        Guard::Forwarding => println!(rt; "forwarding")?,
    }
    Ok(())
}

// The router at a place at a moment.
fn print_router(rt: &impl Print, learner: &Learner, rest: &str) -> anyhow::Result<()> {
    let (place, moment) = place_of(rest)?;
    match learner.router(place, moment) {
        Some((source, port, until)) => {
            println!(rt; "{} {} {until}", put_addr(source), port.get())?
        }
        None => println!(rt; "none")?,
    }
    Ok(())
}

// The prefix at a place at a moment.
fn print_prefix(rt: &impl Print, learner: &Learner, rest: &str) -> anyhow::Result<()> {
    let (place, moment) = place_of(rest)?;
    match learner.prefix(place, moment) {
        Some((prefix, Some(until))) => {
            println!(rt; "{}/{} {until}", put_addr(prefix.net), prefix.len)?
        }
        Some((prefix, None)) => println!(rt; "{}/{} -", put_addr(prefix.net), prefix.len)?,
        None => println!(rt; "none")?,
    }
    Ok(())
}

// What an advertisement says: the lifetime (s) of its router, and its prefixes with theirs.
fn print_advert(rt: &impl Print, frame: &[u8]) -> anyhow::Result<()>
    requires { length frame.now ≤ 1518 }
{
    let payload = frame.get(FRAME_OCTETS_LEAST..).unwrap_or(&[]);
    let message = payload.get(HEADER_LEN..).unwrap_or(&[]);
    let Ok(header) = ip(payload) else {
        bail!("no packet");
    };
    if message.len() > ADVERT_OCTETS_MOST {
        bail!("no message");
    }
    match read_ra(&header, message) {
        Some(ra) => {
            println!(rt; "router {}", ra.life)?;
            for told in ra.prefixes.as_slice() {
                let Prefix { net, len } = told.prefix;
                println!(rt; "  {}/{len} {}", put_addr(net), told.valid)?;
            }
        }
        None => println!(rt; "none")?,
    }
    Ok(())
}

// The place and the moment that a text writes.
fn place_of(text: &str) -> anyhow::Result<(u32, u64)> {
    let (place, moment) = text.split_once(' ').unwrap_or((text, ""));
    Ok((place.parse::<u32>()?, moment.parse::<u64>()?))
}
