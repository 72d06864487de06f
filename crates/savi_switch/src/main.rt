//! A switch that guards a shared network: it serves live ports, or replays captures, and says of each frame what became of
//! it.
//!
//! The contract of the program is that of `run` (`switch_run`), the top call, over each world that keeps the contracts of
//! `savi_ends`; here stand the real world, of files, Unix stream sockets, standard output and standard error, and `main`,
//! which makes it.
#![tactic(auto)]

ghost use Rattle.std.specs.Prelude.{◌≡◌};

mod awaiting;
mod opener;
mod real_world;

use awaiting::{Awaiting, AwaitingGate};
use file_ends::{FileId, FileSink};
use real_world::RealWorld;
use std::alloc::Global;
use std::env;
use std::io::ErrorKind;
use std::process::ExitCode;
use switch_report::{tell_memory, tell_usage};
use switch_run::{NO_MEMORY, USAGE, run};

fn main(rt: HostRuntime) -> ExitCode {
    let alloc = rt.alloc();
    let out = FileId::of_standard_output(&rt);
    let err = FileId::of_standard_error(&rt);
    let status = match (words_of(rt, alloc), Awaiting::make(&rt, alloc)) {
        (Ok(words), Ok(awaiting)) => match RealWorld::make(rt, rt, alloc, &awaiting, out, err) {
            Ok(mut world) => {
                let gate = AwaitingGate {
                    host: rt,
                    awaiting: &awaiting,
                };
                run(&rt, alloc, words.as_slice(), &mut world, &gate)
            }
            Err(_) => say_memory(rt),
        },
        (Ok(_), Err(_)) => say_memory(rt),
        (Err(status), _) => status,
    };
    ExitCode::from(status)
}

// The words behind the program's name. `Err` is the status where there is no memory for them, or where they aren't text and
// so no form of the command line.
fn words_of(rt: HostRuntime, alloc: Global) -> Result<Vec<String>, u8> {
    let mut arguments = match env::args(&rt) {
        Ok(arguments) => arguments,
        Err(cause) if cause.kind() == ErrorKind::OutOfMemory => return Err(say_memory(rt)),
        Err(_) => return Err(say_usage(rt)),
    };
    let _program = arguments.next();
    match arguments.collect(alloc) {
        Ok(words) => Ok(words),
        Err(_) => Err(say_memory(rt)),
    }
}

// Tells standard error of words that are no form of the command line. The answer is the status.
fn say_usage(rt: HostRuntime) -> u8
    ensures { result ≡ 2 }
{
    let _put = tell_usage(&mut FileSink::err(rt.stderr()));
    USAGE
}

// Tells standard error of want of memory. The answer is the status.
fn say_memory(rt: HostRuntime) -> u8
    ensures { result ≡ 1 }
{
    let _put = tell_memory(&mut FileSink::err(rt.stderr()));
    NO_MEMORY
}
