//! The readers of a session, which run for all of it, and beside them the loop over segments.

ghost use Rattle.std.specs.Prelude.{◌≡◌, [], vec_capacity};
ghost use Rattle.std.specs.Thread.{IsSync};
ghost use Rattle.port_reader.specs.Readers.{HasFilled};
ghost use Rattle.parcel_ring.specs.Sides.{was_put};
ghost use Rattle.control_reader.specs.Readers as lines;
ghost use Rattle.control_reader.specs.Heard.{lines_put};
ghost use Rattle.live_switch.specs.Filled.{AreFilled, AreUnfilled, IsLineFilled, IsLineUnfilled};
ghost use Rattle.live_switch.specs.Ran.{CanStart, HasRun};

use crate::segments::{Left, Start, run_segments};
use control_reader::LineReader;
use live_turns::{Gate, PauseSignal};
use port_reader::Reader;
use savi_ends::{Clock, Sink, Source};
use std::alloc::Global;
use std::sync::Wait;
use std::thread::{Threads, join};

/// The readers of the ports, the first of a plan, in its order, and that of control, where there is one.
#[derive(Drop)]
pub(crate) struct Readers<S, C> {
    pub(crate) ports: Vec<Reader<S, C>>,
    pub(crate) control: Option<LineReader<S, C>>,
}

// Runs these readers, that of the last port beside all others, and beside them all segments. Where no thread can be made,
// `join` calls its second closure and then its first: so each input is read before it is judged. A session ends on one
// thread too, unless an input has as many arrivals as its ring has room for, or more: its reader then waits for its
// judge.
#[cycle(reads)]
pub(crate) fn run_readers<
    R: Threads + Wait + Sync,
    G: Gate,
    S: Source + Send + Drop,
    K: Sink + Send + Drop,
    C: Clock + Send + Drop,
>(
    rt: &R,
    alloc: Global,
    gate: &G,
    signal: &PauseSignal,
    readers: Readers<S, C>,
    start: Start<K, C>,
) -> (Readers<S, C>, Left<K, C>)
    requires unfilled { AreUnfilled readers }
    requires start { CanStart start }
    ensures room { vec_capacity result.0.ports ≡ vec_capacity readers.ports }
    ensures filled { AreFilled S.left S.faults C.readings readers result.0 }
    ensures run { HasRun K.written K.faults C.readings start result.1 }
{
    let Readers { mut ports, control } = readers;
    let Some(reader) = ports.pop() else {
        let (control, left) = run_last_reader(rt, alloc, gate, signal, control, start);
        return (Readers { ports, control }, left);
    };
    let others = Readers { ports, control };
    let ((others, left), reader) = join(
        rt,
        move || -> (Readers<S, C>, Left<K, C>)
            requires sync { IsSync R.row }
            requires unfilled { AreUnfilled others }
            requires start { CanStart start }
            ensures room { vec_capacity result.0.ports ≡ vec_capacity others.ports }
            ensures filled { AreFilled S.left S.faults C.readings others result.0 }
            ensures run { HasRun K.written K.faults C.readings start result.1 }
        { run_readers(rt, alloc, gate, signal, others, start) },
        move || -> Reader<S, C>
            requires { was_put reader.filler ≡ [] }
            ensures { HasFilled S.left S.faults C.readings reader result }
        { reader.run(rt) },
    );
    let Readers { mut ports, control } = others;
    ports.push_reserved(reader);
    (Readers { ports, control }, left)
}

// Runs the reader of control, where there is one, and beside it all segments.
fn run_last_reader<
    R: Threads + Wait + Sync,
    G: Gate,
    S: Source + Send + Drop,
    K: Sink + Send + Drop,
    C: Clock + Send + Drop,
>(
    rt: &R,
    alloc: Global,
    gate: &G,
    signal: &PauseSignal,
    control: Option<LineReader<S, C>>,
    start: Start<K, C>,
) -> (Option<LineReader<S, C>>, Left<K, C>)
    requires unfilled { IsLineUnfilled control }
    requires start { CanStart start }
    ensures filled { IsLineFilled S.left S.faults C.readings control result.0 }
    ensures run { HasRun K.written K.faults C.readings start result.1 }
{
    let Some(reader) = control else {
        return (None, run_segments(rt, alloc, gate, signal, start));
    };
    let (left, reader) = join(
        rt,
        move || -> Left<K, C>
            requires sync { IsSync R.row }
            requires start { CanStart start }
            ensures { HasRun K.written K.faults C.readings start result }
        { run_segments(rt, alloc, gate, signal, start) },
        move || -> LineReader<S, C>
            requires { lines_put reader.filler ≡ [] }
            ensures { lines.HasFilledLines S.left S.faults C.readings reader result }
        { reader.run(rt) },
    );
    (Some(reader), left)
}
