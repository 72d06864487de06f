//! The loop over the segments of a session.

ghost use Rattle.std.specs.Prelude.{◌≡◌, ◌≤◌, true, [], ◌∷◌, List, length};
ghost use Rattle.savi_kinds.specs.declared.plan.Plan.{Plan};
ghost use Rattle.savi_history.specs.Endings.{has_pause};
ghost use Rattle.savi_history.specs.Legal.{IsFinished};
ghost use Rattle.savi_core.specs.Machines.{base_of};
ghost use Rattle.hist_store.specs.Rows.{Row};
ghost use Rattle.savi_segments.specs.Segments.{AreOctets, base_after};
ghost use Rattle.savi_segments.specs.Journals.{journal_of};
ghost use Rattle.journal_write.specs.Written.{HasText, IsSettled};
ghost use Rattle.journal_write.specs.Told.{TellsOf, passes_over};
ghost use Rattle.live_switch.specs.Joined.{StandStill};
ghost use Rattle.live_switch.specs.Segments.{HasServedNext};
ghost use Rattle.live_switch.specs.Ran.{CanStart, HasRun};
ghost use Rattle.live_switch.specs.Works.{IsSameService, IsServiceOf};

use crate::open::{OpenPasses, open_passes};
use crate::rounds::serve_in_rounds;
use crate::services::{Course, Service};
use crate::workers::{Shift, serve_locked};
use core_keep::KeptCore;
use hist_store::JournalLine;
use journal_write::{Journal, Told};
use live_turns::{Gate, PauseSignal};
use savi_core::Core;
use savi_ends::{Clock, Sink};
use std::alloc::Global;
use std::sync::Wait;
use std::thread::Threads;
use table_lock::{Pass, TableLock};

/// A session as it starts: a new switch under the lock of its first segment, the header of its journal, and what goes on
/// from one segment to the next.
#[derive(Drop)]
pub(crate) struct Start<K, C> {
    pub(crate) lock: TableLock<KeptCore>,
    pub(crate) passes: Vec<Pass>,
    pub(crate) going: OpenPasses,
    pub(crate) header: JournalLine,
    pub(crate) course: Course<K, C>,
}

/// What all segments leave: the switch with the newest one, and what goes on from one to the next.
#[derive(Drop)]
pub(crate) struct Left<K, C> {
    pub(crate) kept: KeptCore,
    pub(crate) course: Course<K, C>,
}

/// Writes the header of the journal, and serves one segment after the other and writes each to the journal once it is
/// closed, until nothing is paused in one. It may go on for good.
pub(crate) fn run_segments<
    R: Threads + Wait + Sync,
    G: Gate,
    K: Sink + Send + Drop,
    C: Clock + Send + Drop,
>(rt: &R, alloc: Global, gate: &G, signal: &PauseSignal, start: Start<K, C>) -> Left<K, C>
    requires { CanStart start }
    ensures { HasRun K.written K.faults C.readings start result }
{
    let Start {
        lock,
        passes,
        going,
        header,
        course,
    } = start;
    let Course {
        service,
        mut journal,
        mut told,
    } = course;
    journal.begin_with(header.as_slice());
    let shift = Shift { service, passes };
    let (mut kept, mut service) = serve_locked(rt, gate, signal, going.as_slice(), lock, shift);
    for _ in rt.forever() {
        close_segment(&kept.core, &mut journal, &mut told);
        if !kept.core.has_pause() {
            pass_over_rest(rt, gate, signal, &mut service);
            let course = Course {
                service,
                journal,
                told,
            };
            return Left { kept, course };
        }
        let (served, back) = serve_next(rt, alloc, gate, signal, kept, service);
        kept = served;
        service = back;
    }
    unreachable!()
}

// Where nothing is paused, no input waits any more, and what comes behind a reply that couldn't be written is passed over up
// to its end, so that its reader never waits for room for good.
fn pass_over_rest<R: Wait, G: Gate, K: Sink, C: Clock>(
    rt: &R,
    gate: &G,
    signal: &PauseSignal,
    service: &mut Service<K, C>,
)
    ensures same { IsSameService service.old service.new }
    ensures stands { (plan : Plan) → StandStill K.written K.faults C.readings plan service.old service.new }
{
    signal.lower(gate);
    service.control.pass_over(rt, signal);
}

// Writes a finished segment to the journal, and keeps what is told of it.
fn close_segment<K: Sink>(core: &Core, journal: &mut Journal<K>, told: &mut Told)
    requires few { length told.old.ends.items ≡ passes_over core.now.plan (base_of core.now) [] }
    requires room { 3401 ≤ journal.old.buffer.room }
    ensures room { journal.new.buffer.room ≡ journal.old.buffer.room }
    ensures settled { IsSettled journal.new }
    ensures octets { AreOctets core.now.past }
    ensures told { (before : List (List Row)) → TellsOf told.old.entries told.old.ends.items before → TellsOf told.new.entries told.new.ends.items (core.now.past ∷ before) }
    ensures journal { (before : List (List Row)) (first : K) → base_of core.now ≡ base_after core.now.plan before
        → HasText K.written K.faults first journal.old (journal_of core.now.plan before)
        → HasText K.written K.faults first journal.new (journal_of core.now.plan (core.now.past ∷ before)) }
{
    told.add(core.history());
    journal.close(core);
}

// Turns the switch, and serves its next segment: under a lock of its own, or in rounds where there is no memory for one.
fn serve_next<R: Threads + Wait + Sync, G: Gate, K: Sink + Send + Drop, C: Clock + Send + Drop>(
    rt: &R,
    alloc: Global,
    gate: &G,
    signal: &PauseSignal,
    kept: KeptCore,
    service: Service<K, C>,
) -> (KeptCore, Service<K, C>)
    requires finished { IsFinished kept.core.value.plan (base_of kept.core.value) kept.core.value.past }
    requires paused { has_pause kept.core.value.past ≡ true }
    requires service { IsServiceOf kept.core.value.plan service }
    ensures { HasServedNext K.written K.faults C.readings kept service result.0 result.1 }
{
    let mut kept = kept;
    kept.core.turn();
    signal.lower(gate);
    let going = open_passes(&kept.core);
    match TableLock::make(alloc, kept, going.len() as u32) {
        Ok((lock, passes)) => {
            let shift = Shift { service, passes };
            serve_locked(rt, gate, signal, going.as_slice(), lock, shift)
        }
        Err(back) => serve_in_rounds(rt, gate, back.v, service),
    }
}
