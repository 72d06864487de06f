//! What calls of `bridge_fdb` take, and look-ups in std's `HashMap` of as many keys.

ghost use Rattle.std.specs.Prelude.{◌≤◌, IfOk};

use crate::keys::{mac, port, stirred};
use crate::turns::{Source, learn_all, place_all};
use bridge_fdb::Fdb;
use std::alloc::{AllocError, Global};
use std::collections::HashMap;
use std::io;
use std::time::{CpuClock, Duration};

/// As many stations as there may be: 256 of each of 16 ports.
const STATIONS: u64 = 4_096;

/// The calls of a kind go through so many MAC addresses, which lie in memory as those of frames do,
const ASKED: u64 = 65_536;

/// and so many times.
const ROUNDS: u64 = 16;

/// When the stations were seen first (ms).
const START: u64 = 1_000;

/// Each station has ended so many ms later.
const ALL_ENDED: u64 = 300_000;

/// All stations are replaced so many times.
const REPLACED: u64 = 100;

/// An empty database is filled so many times.
const FILLED: u64 = 100;

/// A flood of new MAC addresses, one in a ms, lasts longer than three times the life of a station.
pub const FLOOD: u64 = 1_000_000;

/// A kind of call, how many were made, and the processor's time. The answers go into a number, since calls whose answers
/// nothing wants need not be made.
#[derive(Clone, Copy)]
pub struct Timed {
    pub name: &'static str,
    pub calls: u64,
    pub took: Duration,
    pub answers: u64,
}

/// The n-th station.
fn nth_source(n: u64) -> Source {
    Source {
        mac: mac(n),
        port: port(n),
    }
}

/// Stations that are known, in no order.
fn known_sources(alloc: Global) -> Result<Vec<Source>, AllocError> {
    let mut sources = Vec::new(alloc);
    for n in 0..ASKED {
        sources.push(nth_source(stirred(n ^ 0x5555) % STATIONS))?;
    }
    Ok(sources)
}

/// Stations that are new.
fn new_sources(alloc: Global) -> Result<Vec<Source>, AllocError> {
    let mut sources = Vec::new(alloc);
    for n in 0..ASKED {
        sources.push(nth_source(STATIONS + n))?;
    }
    Ok(sources)
}

/// As many new stations as there may be, others for each round.
fn sources_of_round(alloc: Global, round: u64) -> Result<Vec<Source>, AllocError>
    requires { round ≤ 100 }
{
    let mut sources = Vec::new(alloc);
    for n in 0..STATIONS {
        sources.push(nth_source(STATIONS * round + n))?;
    }
    Ok(sources)
}

/// All stations that there may be, seen at one moment.
fn full(alloc: Global) -> Result<Fdb, AllocError> {
    let mut fdb = Fdb::make(alloc)?;
    for n in 0..STATIONS {
        fdb.learn(mac(n), port(n), START);
    }
    Ok(fdb)
}

/// The walk through the MAC addresses alone, which is in the times of `hash_map`, `place`, `learn_known` and
/// `learn_refused`.
pub fn walk<R: CpuClock>(rt: &R, alloc: Global) -> io::Result<Timed> {
    let sources = known_sources(alloc)?;
    let start = rt.thread_cpu_time()?;
    let mut answers = 0u64;
    for round in 0..ROUNDS {
        for source in &sources {
            answers = answers.wrapping_add(round ^ u64::from(source.mac.0[5]));
        }
    }
    Ok(Timed {
        name: "walk",
        calls: ROUNDS * ASKED,
        took: rt.thread_cpu_time()?.saturating_sub(start),
        answers,
    })
}

/// Look-ups in std's `HashMap`.
pub fn hash_map<R: CpuClock>(rt: &R, alloc: Global) -> io::Result<Timed> {
    let mut map: HashMap<[u8; 6], u64> = HashMap::new(alloc);
    for n in 0..STATIONS {
        map.insert(mac(n).0, n)?;
    }
    let sources = known_sources(alloc)?;
    let start = rt.thread_cpu_time()?;
    let mut answers = 0u64;
    for _ in 0..ROUNDS {
        for source in &sources {
            answers = answers.wrapping_add(map.get(&source.mac.0).copied().unwrap_or(0));
        }
    }
    Ok(Timed {
        name: "hash_map",
        calls: ROUNDS * ASKED,
        took: rt.thread_cpu_time()?.saturating_sub(start),
        answers,
    })
}

/// `place` of stations that are live.
pub fn place<R: CpuClock>(rt: &R, alloc: Global) -> io::Result<Timed> {
    let fdb = full(alloc)?;
    let sources = known_sources(alloc)?;
    let start = rt.thread_cpu_time()?;
    let mut answers = 0u64;
    for _ in 0..ROUNDS {
        answers = answers.wrapping_add(place_all(&fdb, sources.as_slice(), START));
    }
    Ok(Timed {
        name: "place",
        calls: ROUNDS * ASKED,
        took: rt.thread_cpu_time()?.saturating_sub(start),
        answers,
    })
}

/// `learn` of stations that are live at their ports.
pub fn learn_known<R: CpuClock>(rt: &R, alloc: Global) -> io::Result<Timed> {
    let mut fdb = full(alloc)?;
    let sources = known_sources(alloc)?;
    let start = rt.thread_cpu_time()?;
    for round in 0..ROUNDS {
        learn_all(&mut fdb, sources.as_slice(), START + round);
    }
    Ok(Timed {
        name: "learn_known",
        calls: ROUNDS * ASKED,
        took: rt.thread_cpu_time()?.saturating_sub(start),
        answers: 0,
    })
}

/// `learn` of new stations at ports where 256 are live.
pub fn learn_refused<R: CpuClock>(rt: &R, alloc: Global) -> io::Result<Timed> {
    let mut fdb = full(alloc)?;
    let sources = new_sources(alloc)?;
    let start = rt.thread_cpu_time()?;
    for round in 0..ROUNDS {
        learn_all(&mut fdb, sources.as_slice(), START + round);
    }
    Ok(Timed {
        name: "learn_refused",
        calls: ROUNDS * ASKED,
        took: rt.thread_cpu_time()?.saturating_sub(start),
        answers: 0,
    })
}

/// `learn` of new stations at ports that have room, from the first station to as many as there may be.
pub fn learn_new<R: CpuClock>(rt: &R, alloc: Global) -> io::Result<Timed> {
    let mut took = Duration::ZERO;
    for round in 0..FILLED {
        let mut fdb = Fdb::make(alloc)?;
        let sources = sources_of_round(alloc, round)?;
        let start = rt.thread_cpu_time()?;
        learn_all(&mut fdb, sources.as_slice(), START);
        took = took.saturating_add(rt.thread_cpu_time()?.saturating_sub(start));
    }
    Ok(Timed {
        name: "learn_new",
        calls: FILLED * STATIONS,
        took,
        answers: 0,
    })
}

/// `learn` of new stations at full ports, one in a ms: each takes the place of the one that ends in this ms.
pub fn learn_replaced<R: CpuClock>(rt: &R, alloc: Global) -> io::Result<Timed> {
    let mut fdb = Fdb::make(alloc)?;
    let mut took = Duration::ZERO;
    for round in 0..=REPLACED {
        let begin = START + ALL_ENDED * round;
        let start = rt.thread_cpu_time()?;
        for n in 0..STATIONS {
            let source = nth_source(STATIONS * round + n);
            fdb.learn(source.mac, source.port, begin + n);
        }
        if round > 0 {
            took = took.saturating_add(rt.thread_cpu_time()?.saturating_sub(start));
        }
    }
    Ok(Timed {
        name: "learn_replaced",
        calls: REPLACED * STATIONS,
        took,
        answers: 0,
    })
}

/// `learn` of ever new stations, one in a ms.
pub fn learn_flood<R: CpuClock>(rt: &R, alloc: Global) -> io::Result<Timed> {
    let mut fdb = full(alloc)?;
    let start = rt.thread_cpu_time()?;
    for n in 0..FLOOD {
        let source = nth_source(STATIONS + n);
        fdb.learn(source.mac, source.port, START + n);
    }
    Ok(Timed {
        name: "learn_flood",
        calls: FLOOD,
        took: rt.thread_cpu_time()?.saturating_sub(start),
        answers: 0,
    })
}

/// How many calls of the same flood take a station in: it is live afterwards.
pub fn count_taken_in(alloc: Global) -> Result<u64, AllocError>
    ensures { IfOk result (λ taken. taken ≤ 1000000) }
{
    let mut fdb = full(alloc)?;
    let mut taken = 0;
    for n in 0..FLOOD {
        let source = nth_source(STATIONS + n);
        fdb.learn(source.mac, source.port, START + n);
        if fdb.place(source.mac, START + n) == Some(source.port) {
            taken += 1;
        }
    }
    Ok(taken)
}
