//! The session.

ghost use Rattle.std.specs.Prelude.{◌≡◌, ◌≤◌, [], IfErr, IfOk, length, vec_capacity, vec_len};
ghost use Rattle.savi_kinds.specs.ValidPlan.{IsValidPlan};
ghost use Rattle.live_switch.specs.Beginnings.{FitsRoom, HasDealt, IsStartOf};
ghost use Rattle.live_switch.specs.Endings.{HasServed, IsClosedBy};
ghost use Rattle.live_switch.specs.Sharing.{AreMatched, IsControlMatched};

use crate::readers::{Readers, run_readers};
use crate::ready::{Closed, Ready};
use crate::room::{Locked, Room, room_for};
use crate::segments::{Left, Start};
use crate::services::{Course, Service};
use crate::sharing::{deal_control, deal_ports, gather_control, gather_ports};
use crate::turns_told::{SessionGate, TurnCounts};
use journal_write::{Journal, Told};
use live_session::whole_sessions_leave_rows;
use live_ticker::TickerWorker;
use live_turns::{Gate, PauseSignal};
use savi_ends::{Clock, Ends, Sink, Source};
use savi_kinds::Plan;
use std::alloc::Global;
use std::sync::Wait;
use std::thread::Threads;

/// Runs a switch of this plan over the ends of its ports, of control and of the ticker, each served by workers of its
/// own: an input is read and judged, an output written, control answered, and the ticker's clock read, side by side where
/// threads can be made. The gate sees each turn at the switch before it is taken.
///
/// Where a history is full, its segment is closed and written to the journal, and the next one goes on from what it
/// leaves. A segment behind the first for whose lock there is no memory is served in rounds, without a lock.
///
/// The switch comes back with the newest segment, and each end in its place. All other memory is taken before anything is
/// read or written, for each port some 100 KB for what waits to be judged: where there is none the ends come back as they
/// were, and that is the only `Err`. Nothing is promised of how long it goes on.
pub fn session<
    R: Threads + Wait + Sync,
    G: Gate,
    S: Source + Send + Drop,
    K: Sink + Send + Drop,
    C: Clock + Send + Drop,
>(
    rt: &R,
    alloc: Global,
    plan: Plan,
    ready: Ready<S, K, C>,
    gate: &G,
) -> Result<Closed<S, K, C>, Ready<S, K, C>>
    requires valid { IsValidPlan plan }
    requires planned { vec_len ready.ports ≡ length plan.ports }
    ensures none { IfErr result (λ back. back ≡ ready) }
    ensures plan { IfOk result (λ closed. closed.core.plan ≡ plan) }
    ensures served { IfOk result (λ closed. HasServed S.left K.written S.faults K.faults C.readings plan ready closed) }
{
    let Ok(room) = room_for(rt, alloc, plan, ready.control.is_some()) else {
        return Err(ready);
    };
    let Begun {
        ports,
        signal,
        counts,
        readers,
        start,
    } = deal_ends(ready, room);
    let gate = SessionGate {
        gate,
        counts: &counts,
    };
    let (readers, left) = run_readers(rt, alloc, &gate, &signal, readers, start);
    whole_sessions_leave_rows::<S, K, C>();
    Ok(closed_by(rt, ports, readers, left))
}

// A session as it begins: the vector in which the ends of the ports came, which is empty, the signal of a pause, the
// counts of turns, the readers, and the first segment.
struct Begun<S, K, C> {
    ports: Vec<Ends<S, K, C>>,
    signal: PauseSignal,
    counts: TurnCounts,
    readers: Readers<S, C>,
    start: Start<K, C>,
}

// Deals the ends of a session to who serves them. O(ports).
fn deal_ends<S: Drop, K: Drop, C: Drop>(
    ready: Ready<S, K, C>,
    room: Room<S, K, C>,
) -> Begun<S, K, C>
    requires { FitsRoom ready room }
    ensures { HasDealt ready room result }
{
    let Room {
        mut seats,
        line_seat,
        reply,
        buffer,
        signal,
        counts,
        mut readers,
        mut services,
        first,
    } = room;
    let Ready {
        mut ports,
        control,
        ticker,
        journal,
    } = ready;
    deal_ports(&mut ports, &mut seats, &mut readers, &mut services);
    let (line_reader, control) = deal_control(control, line_seat, reply);
    let service = Service {
        ports: services,
        control,
        ticker: TickerWorker { clock: ticker },
    };
    Begun {
        ports,
        signal,
        counts,
        readers: Readers {
            ports: readers,
            control: line_reader,
        },
        start: start_of(first, service, Journal::new(journal, buffer)),
    }
}

// A session as it starts, of which nothing is told yet.
fn start_of<K, C>(first: Locked, service: Service<K, C>, journal: Journal<K>) -> Start<K, C>
    ensures { IsStartOf first service journal result }
{
    let Locked {
        lock,
        passes,
        going,
        header,
    } = first;
    Start {
        lock,
        passes,
        going,
        header,
        course: Course {
            service,
            journal,
            told: Told::new(),
        },
    }
}

// What a session leaves, once all its readers and segments have ended: the ends are put together again in the vector in
// which they came, and each ring is closed.
fn closed_by<R: Wait, S: Drop, K: Drop, C: Drop>(
    rt: &R,
    ports: Vec<Ends<S, K, C>>,
    readers: Readers<S, C>,
    left: Left<K, C>,
) -> Closed<S, K, C>
    requires size { vec_len left.course.service.ports ≡ vec_len readers.ports }
    requires room { vec_len readers.ports ≤ vec_capacity ports }
    requires empty { ports.items ≡ [] }
    requires matched { AreMatched readers.ports.items left.course.service.ports.items }
    requires control { IsControlMatched readers.control left.course.service.control }
    ensures { IsClosedBy readers left result }
{
    let mut ports = ports;
    let Readers {
        ports: mut port_readers,
        control: line_reader,
    } = readers;
    let Left { kept, course } = left;
    let Course {
        service,
        journal,
        told,
    } = course;
    let Service {
        ports: mut services,
        control,
        ticker,
    } = service;
    gather_ports(rt, &mut ports, &mut port_readers, &mut services);
    let control = gather_control(rt, line_reader, control);
    let (journal, journal_failed) = journal.into_parts();
    Closed {
        core: kept.into_core(),
        ready: Ready {
            ports,
            control,
            ticker: ticker.clock,
            journal,
        },
        entries: told.entries,
        ends: told.ends,
        journal_failed,
    }
}
