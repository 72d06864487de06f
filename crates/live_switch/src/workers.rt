//! A segment under its lock: the start of its workers, and their end.

ghost use Rattle.std.specs.Prelude.{◌≡◌, ◌+◌, ◌<◌, ◌≤◌, vec_capacity, vec_len};
ghost use Rattle.std.specs.Thread.{IsSync};
ghost use Rattle.savi_kinds.specs.declared.entry.Who.TheVariants as who;
ghost use Rattle.savi_history.specs.Passes.{pass_count};
ghost use Rattle.table_lock.specs.Passes.{lock_seats};
ghost use Rattle.live_turns.specs.Seats.{IsDealtTo, lock_base, lock_plan};
ghost use Rattle.live_switch.specs.Open.{AreOpenIn};
ghost use Rattle.live_switch.specs.Works.{IsDone, IsReadyShift};
ghost use Rattle.live_switch.specs.Served.{IsInputServed, IsLineServed, IsOutputServed, IsTickerServed};
ghost use Rattle.live_switch.specs.Segments.{HasServedSegment};
ghost use Rattle.live_switch.specs.Sharing.{Gave, Took};

use crate::open::is_open;
use crate::services::{PortService, Service};
use core_keep::KeptCore;
use live_control::ControlWorker;
use live_input::Ingress;
use live_output::Output;
use live_ticker::TickerWorker;
use live_turns::{Gate, PauseSignal};
use savi_ends::{Clock, Sink};
use std::sync::Wait;
use std::thread::{Threads, join};
use table_lock::{Pass, TableLock};

/// What serves the ends in a segment, and the passes of its workers.
#[derive(Drop)]
pub(crate) struct Shift<K, C> {
    pub(crate) service: Service<K, C>,
    pub(crate) passes: Vec<Pass>,
}

/// What serves a port, and the passes of its input and of its output.
#[derive(Drop)]
pub(crate) struct PortShift<K> {
    pub(crate) judge: Ingress,
    pub(crate) input: Pass,
    pub(crate) writer: Output<K>,
    pub(crate) output: Pass,
}

/// Serves a segment under this lock, by workers of their own for each input, each output, control and the ticker, until
/// each pass has ended or is paused. A pass that ended in an earlier segment has no worker. The switch comes back with
/// its history.
pub(crate) fn serve_locked<
    R: Threads + Wait + Sync,
    G: Gate,
    K: Sink + Send + Drop,
    C: Clock + Send + Drop,
>(
    rt: &R,
    gate: &G,
    signal: &PauseSignal,
    going: &[bool],
    lock: TableLock<KeptCore>,
    shift: Shift<K, C>,
) -> (KeptCore, Service<K, C>)
    requires seats { lock_seats lock ≡ pass_count (lock_plan lock) }
    requires open { AreOpenIn lock going.now }
    requires ready { IsReadyShift lock shift }
    requires whole { vec_len shift.service.ports + vec_len shift.service.ports + 2 ≡ lock_seats lock }
    ensures { HasServedSegment K.written K.faults C.readings (lock_plan lock) (lock_base lock) shift.service result.0 result.1 }
{
    let Shift { service, passes } = run_all(rt, &lock, gate, signal, going, shift);
    let kept = lock.close(passes);
    let _entries = kept.core.len();
    (kept, service)
}

// Runs the workers of these ports, of control and of the ticker: the judge of the last port beside all others. Where no
// thread can be made, `join` calls its second closure and then its first. So the inputs end first, the last port's before
// the others', then come control, the ticker and the outputs.
#[cycle(works)]
fn run_all<R: Threads + Wait + Sync, G: Gate, K: Sink + Send + Drop, C: Clock + Send + Drop>(
    rt: &R,
    lock: &TableLock<KeptCore>,
    gate: &G,
    signal: &PauseSignal,
    going: &[bool],
    shift: Shift<K, C>,
) -> Shift<K, C>
    requires open { AreOpenIn lock.now going.now }
    requires ready { IsReadyShift lock.now shift }
    ensures { IsDone K.written K.faults C.readings lock.now shift result }
{
    if shift.service.ports.len() == 0 {
        return run_last(rt, lock, gate, signal, going, shift);
    }
    let (port, others) = take_port(shift);
    let PortShift {
        judge,
        input,
        writer,
        output,
    } = port;
    let ((others, writer, output), (judge, input)) = join(
        rt,
        move || -> (Shift<K, C>, Output<K>, Pass)
            requires sync { IsSync R.row }
            requires open { AreOpenIn lock.now going.now }
            requires others { IsReadyShift lock.now others }
            requires output { IsDealtTo lock.now (who.Egress writer.port) output }
            ensures others { IsDone K.written K.faults C.readings lock.entry.now others result.0 }
            ensures output { IsOutputServed K.written K.faults lock.entry.now writer output result.1 result.2 }
        { run_beside(rt, lock, gate, signal, going, others, writer, output) },
        move || -> (Ingress, Pass)
            requires open { AreOpenIn lock.now going.now }
            requires input { IsDealtTo lock.now (who.Ingress judge.port) input }
            ensures { IsInputServed lock.entry.now judge input result.0 result.1 }
        { judge_port(rt, lock, gate, signal, going, judge, input) },
    );
    let port = PortShift {
        judge,
        input,
        writer,
        output,
    };
    put_port(others, port)
}

// Runs the workers of these ports, of control and of the ticker, and beside them the output of a port.
#[cycle(works)]
fn run_beside<R: Threads + Wait + Sync, G: Gate, K: Sink + Send + Drop, C: Clock + Send + Drop>(
    rt: &R,
    lock: &TableLock<KeptCore>,
    gate: &G,
    signal: &PauseSignal,
    going: &[bool],
    shift: Shift<K, C>,
    writer: Output<K>,
    output: Pass,
) -> (Shift<K, C>, Output<K>, Pass)
    requires open { AreOpenIn lock.now going.now }
    requires shift { IsReadyShift lock.now shift }
    requires output { IsDealtTo lock.now (who.Egress writer.port) output }
    ensures shift { IsDone K.written K.faults C.readings lock.now shift result.0 }
    ensures output { IsOutputServed K.written K.faults lock.now writer output result.1 result.2 }
{
    let ((writer, output), shift) = join(
        rt,
        move || -> (Output<K>, Pass)
            requires open { AreOpenIn lock.now going.now }
            requires output { IsDealtTo lock.now (who.Egress writer.port) output }
            ensures { IsOutputServed K.written K.faults lock.entry.now writer output result.0 result.1 }
        { write_port(rt, lock, gate, going, writer, output) },
        move || -> Shift<K, C>
            requires sync { IsSync R.row }
            requires open { AreOpenIn lock.now going.now }
            requires shift { IsReadyShift lock.now shift }
            ensures { IsDone K.written K.faults C.readings lock.entry.now shift result }
        { run_all(rt, lock, gate, signal, going, shift) },
    );
    (shift, writer, output)
}

// Runs the workers of control and of the ticker.
fn run_last<R: Threads + Wait + Sync, G: Gate, K: Sink + Send + Drop, C: Clock + Send + Drop>(
    rt: &R,
    lock: &TableLock<KeptCore>,
    gate: &G,
    signal: &PauseSignal,
    going: &[bool],
    shift: Shift<K, C>,
) -> Shift<K, C>
    requires open { AreOpenIn lock.now going.now }
    requires ready { IsReadyShift lock.now shift }
    requires none { vec_len shift.service.ports ≡ 0 }
    ensures { IsDone K.written K.faults C.readings lock.now shift result }
{
    let Shift {
        service,
        mut passes,
    } = shift;
    let Service {
        ports,
        control,
        ticker,
    } = service;
    let tick = passes.pop().unwrap();
    let line = passes.pop().unwrap();
    let ((ticker, tick), (control, line)) = join(
        rt,
        move || -> (TickerWorker<C>, Pass)
            requires open { AreOpenIn lock.now going.now }
            requires pass { IsDealtTo lock.now who.Ticker tick }
            ensures { IsTickerServed C.readings lock.entry.now ticker tick result.0 result.1 }
        { tick_on(rt, lock, gate, signal, going, ticker, tick) },
        move || -> (ControlWorker<K>, Pass)
            requires open { AreOpenIn lock.now going.now }
            requires pass { IsDealtTo lock.now who.Control line }
            ensures { IsLineServed K.written K.faults lock.entry.now control line result.0 result.1 }
        { answer_lines(rt, lock, gate, signal, going, control, line) },
    );
    passes.push_reserved(line);
    passes.push_reserved(tick);
    Shift {
        service: Service {
            ports,
            control,
            ticker,
        },
        passes,
    }
}

// Judges what comes at a port, unless its input has ended. The answer has the judge and the pass again.
fn judge_port<R: Wait, G: Gate>(
    rt: &R,
    lock: &TableLock<KeptCore>,
    gate: &G,
    signal: &PauseSignal,
    going: &[bool],
    judge: Ingress,
    pass: Pass,
) -> (Ingress, Pass)
    requires open { AreOpenIn lock.now going.now }
    requires pass { IsDealtTo lock.now (who.Ingress judge.port) pass }
    ensures { IsInputServed lock.now judge pass result.0 result.1 }
{
    if !is_open(going, &pass) {
        return (judge, pass);
    }
    judge.run(rt, lock, gate, signal, pass)
}

// Writes what is sent at a port, unless its output has ended. The answer has the output and the pass again.
fn write_port<K: Sink, R: Wait, G: Gate>(
    rt: &R,
    lock: &TableLock<KeptCore>,
    gate: &G,
    going: &[bool],
    writer: Output<K>,
    pass: Pass,
) -> (Output<K>, Pass)
    requires open { AreOpenIn lock.now going.now }
    requires pass { IsDealtTo lock.now (who.Egress writer.port) pass }
    ensures { IsOutputServed K.written K.faults lock.now writer pass result.0 result.1 }
{
    if !is_open(going, &pass) {
        return (writer, pass);
    }
    writer.run(rt, lock, gate, pass)
}

// Answers control, unless it has ended; then what comes may have to be passed over. The answer has control and the pass
// again.
fn answer_lines<K: Sink, R: Wait, G: Gate>(
    rt: &R,
    lock: &TableLock<KeptCore>,
    gate: &G,
    signal: &PauseSignal,
    going: &[bool],
    control: ControlWorker<K>,
    pass: Pass,
) -> (ControlWorker<K>, Pass)
    requires open { AreOpenIn lock.now going.now }
    requires pass { IsDealtTo lock.now who.Control pass }
    ensures { IsLineServed K.written K.faults lock.now control pass result.0 result.1 }
{
    if is_open(going, &pass) {
        return control.run(rt, lock, gate, signal, pass);
    }
    let mut control = control;
    control.pass_over(rt, signal);
    (control, pass)
}

// Lets time pass, unless the ticker has ended. The answer has the ticker and the pass again.
fn tick_on<C: Clock, R: Wait, G: Gate>(
    rt: &R,
    lock: &TableLock<KeptCore>,
    gate: &G,
    signal: &PauseSignal,
    going: &[bool],
    ticker: TickerWorker<C>,
    pass: Pass,
) -> (TickerWorker<C>, Pass)
    requires open { AreOpenIn lock.now going.now }
    requires pass { IsDealtTo lock.now who.Ticker pass }
    ensures { IsTickerServed C.readings lock.now ticker pass result.0 result.1 }
{
    if !is_open(going, &pass) {
        return (ticker, pass);
    }
    ticker.run(rt, lock, gate, signal, pass)
}

// Takes off what serves the last port, and the passes of its input and output.
fn take_port<K, C>(shift: Shift<K, C>) -> (PortShift<K>, Shift<K, C>)
    requires ports { 0 < vec_len shift.service.ports }
    requires passes { vec_len shift.service.ports < vec_len shift.passes }
    ensures { Took shift result.0 result.1 }
{
    let Shift {
        service,
        mut passes,
    } = shift;
    let Service {
        mut ports,
        control,
        ticker,
    } = service;
    let PortService { judge, writer } = ports.pop().unwrap();
    let output = passes.pop().unwrap();
    let input = passes.remove(ports.len());
    let port = PortShift {
        judge,
        input,
        writer,
        output,
    };
    let service = Service {
        ports,
        control,
        ticker,
    };
    (port, Shift { service, passes })
}

// Puts what serves a port behind what serves the others, and its passes behind theirs.
fn put_port<K, C>(shift: Shift<K, C>, port: PortShift<K>) -> Shift<K, C>
    requires ports { vec_len shift.service.ports < vec_capacity shift.service.ports }
    requires passes { vec_len shift.passes + 2 ≤ vec_capacity shift.passes }
    ensures { Gave shift port result }
{
    let Shift {
        service,
        mut passes,
    } = shift;
    let Service {
        mut ports,
        control,
        ticker,
    } = service;
    let PortShift {
        judge,
        input,
        writer,
        output,
    } = port;
    ports.push_reserved(PortService { judge, writer });
    passes.push_reserved(input);
    passes.push_reserved(output);
    let service = Service {
        ports,
        control,
        ticker,
    };
    Shift { service, passes }
}
