//! Reads the capture that the first word names, and prints how many records it has. Without a word it
//! prints nothing.
#![tactic(auto)]

ghost use Rattle.std.specs.Prelude.{◌≡◌, ◌≢◌, IfSome};
ghost use Rattle.capture_bench.specs.Counted.{IsCounted};

use file_ends::FileSource;
use pcap_io::PcapReader;
use savi_ends::{Clock, MemClock, Source};
use savi_kinds::{FRAME_OCTETS_MOST, Next};
use std::{env, io};

fn main(rt: HostRuntime) -> io::Result<()> {
    let Some(name) = env::args(&rt)?.nth(1) else {
        return Ok(());
    };
    let source = FileSource::open(&rt, rt.alloc(), name.as_str())?;
    let clock = MemClock::new(Vec::new(rt.alloc()));
    match count(source, clock) {
        (records, Next::End) => println!(rt; "{records} records"),
        (records, fault) => println!(rt; "{records} records, then {fault:?}"),
    }
}

/// How many records the capture has, and the answer that comes after them.
fn count<S: Source + Drop, C: Clock + Drop>(mut source: S, mut clock: C) -> (u64, Next)
    ensures { result.1 ≢ Next.Failed → IfSome (S.left source) (λ octets. IsCounted octets result.0 result.1) }
{
    let mut reader = PcapReader::new();
    let mut buf = [0; FRAME_OCTETS_MOST];
    let mut records = 0;
    loop {
        match reader.next(&mut source, &mut clock, &mut buf) {
            Next::Frame { .. } | Next::Long { .. } => records += 1,
            end => return (records, end),
        }
    }
}
