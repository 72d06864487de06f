//! The ends of a port over sockets.

ghost use Rattle.std.specs.Prelude.{◌≡◌, IfOk};

use crate::leftover::Leftover;
use crate::meeting::Meeting;
use crate::patience::OutputsAwaited;
use crate::resting::Resting;
use crate::socket_sink::SocketSink;
use crate::socket_source::SocketSource;
use savi_ends::{Sink, Source};
use std::alloc::Global;
use std::fs::{File, Files};
use std::io;
use std::net::Net;
use std::sync::{Arc, Wait};

/// Locks both paths and listens there, and gives the source over the peer of the first one, and the sink over that of the
/// second one, which looks whether the outputs are awaited, and does so with what a peer doesn't take then. Where both are the
/// same path, one peer is accepted there and serves both ways. `files` opens the lock files.
///
/// `Err` where a path is locked, by this process or another one; then nothing is done there. What else was made for the two
/// paths is removed where the answer is `Err`.
pub fn open_sockets<R: Files + Net + Wait + Copy + Drop, F: Files<File = File>>(
    rt: R,
    files: &F,
    alloc: Global,
    awaited: &Arc<OutputsAwaited, Global>,
    resting: Resting,
    input: &str,
    output: &str,
) -> io::Result<(SocketSource<R>, SocketSink<R>)>
    ensures source { IfOk result (λ ends. ⟦<SocketSource<R> as Source>⟧.faults ends.0 ≡ 0) }
    ensures sink { IfOk result (λ ends. ⟦<SocketSink<R> as Sink>⟧.faults ends.1 ≡ 0) }
{
    let reads = Arc::new(alloc, Meeting::at(rt, files, alloc, input)?)?;
    let writes = if input == output {
        Arc::try_clone(&reads)?
    } else {
        Arc::new(alloc, Meeting::at(rt, files, alloc, output)?)?
    };
    let awaited = Arc::try_clone(awaited)?;
    let left = match resting {
        Resting::Drops => Some(Leftover::make(alloc)?),
        Resting::Fails => None,
    };
    let sink = SocketSink::over(writes, awaited, left);
    Ok((SocketSource::over(reads), sink))
}
