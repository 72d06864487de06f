//! A program that passes on what comes in at one socket to another, to try the ends over sockets by hand: `socket_runs INPUT
//! OUTPUT`, or with a third word as if inputs waited for the output all the time: `awaited`, where what a peer doesn't take
//! then goes nowhere, or `answered`, where the write fails. It says on standard output when it listens, and how the two ended.
#![tactic(auto)]

use savi_ends::{Got, Put, Sink, Source};
use socket_ends::{OutputsAwaited, Resting, open_sockets};
use std::process::ExitCode;
use std::{env, io};

fn main(rt: HostRuntime) -> io::Result<ExitCode> {
    let alloc = rt.alloc();
    let words: Vec<String> = env::args(&rt)?.skip(1).collect(alloc)?;
    let Some((input, output, is_awaited, resting)) = asked(words.as_slice()) else {
        println!(rt; "usage: socket_runs INPUT OUTPUT [awaited | answered]")?;
        return Ok(ExitCode::from(0));
    };
    let awaited = OutputsAwaited::make(alloc)?;
    awaited.tell(is_awaited, 0);
    let opened = open_sockets(rt, &rt, alloc, &awaited, resting, input, output);
    let Ok((mut source, mut sink)) = opened else {
        println!(rt; "cannot open")?;
        return Ok(ExitCode::from(7));
    };
    println!(rt; "open")?;
    let end = pass_on(&mut source, &mut sink);
    println!(rt; "{end} {} {}", source.faults(), sink.faults())?;
    Ok(ExitCode::from(0))
}

// The two paths, whether the output is awaited, and what becomes of what its peer doesn't take then.
fn asked(words: &[String]) -> Option<(&str, &str, bool, Resting)> {
    let (input, output, word) = match words {
        [input, output] => (input, output, ""),
        [input, output, word] => (input, output, word.as_str()),
        _ => return None,
    };
    let (is_awaited, resting) = match word {
        "" => (false, Resting::Drops),
        "awaited" => (true, Resting::Drops),
        "answered" => (true, Resting::Fails),
        _ => return None,
    };
    Some((input.as_str(), output.as_str(), is_awaited, resting))
}

// Passes all octets on, and says how that ended.
fn pass_on<S: Source, K: Sink>(source: &mut S, sink: &mut K) -> &'static str {
    let mut buf = [0; 4096];
    for _ in 0..u64::MAX {
        match source.read(&mut buf) {
            Got::Bytes(n) => {
                if let Put::Failed = sink.write(&buf[..n]) {
                    return "write failed";
                }
            }
            Got::End => return "end",
            Got::Failed => return "read failed",
        }
    }
    "end"
}
