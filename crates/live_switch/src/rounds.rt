//! A segment without a lock, where there is no memory for one: one thread serves all ends in rounds.

ghost use Rattle.std.specs.Prelude.{◌≡◌, [], List, MatchBool, None, Option};
ghost use Rattle.savi_kinds.specs.Ports.{number_of};
ghost use Rattle.savi_kinds.specs.ValidPlan.{IsValidPlan};
ghost use Rattle.savi_kinds.specs.declared.entry.Who.TheVariants as passes;
ghost use Rattle.savi_kinds.specs.declared.plan.Plan.{Plan};
ghost use Rattle.intake_ring.specs.Sides.{taker_ring};
ghost use Rattle.parcel_ring.specs.Sides.{taker_rings, was_taken};
ghost use Rattle.hist_store.specs.Rows.{Row};
ghost use Rattle.savi_history.specs.ControlInputs.{control_end};
ghost use Rattle.savi_history.specs.Legal.{IsFinished, IsOpen};
ghost use Rattle.savi_history.specs.PortInputs.{input_end};
ghost use Rattle.savi_segments.specs.Unbroken.{unbroken};
ghost use Rattle.savi_core.specs.Machines.{base_of};
ghost use Rattle.live_session.specs.Standing.{InputStands};
ghost use Rattle.live_input.specs.Judged.{kept_of};
ghost use Rattle.live_control.specs.Sides.{SideStands, WorkerStands, worker_ring};
ghost use Rattle.live_switch.specs.Rounds.{CanGoRound, InputGoesOn, ServesOn};
ghost use Rattle.live_switch.specs.Segments.{HasServedSegment};
ghost use Rattle.live_switch.specs.Works.{IsServiceOf};

use crate::services::Service;
use core_keep::KeptCore;
use live_control::{ControlSide, ControlWorker};
use live_input::Ingress;
use live_turns::Gate;
use savi_core::Core;
use savi_ends::{Clock, Sink};
use savi_kinds::Who;
use std::sync::Wait;

/// Serves a segment in rounds until each pass has ended or is paused: in a round control and the ports in their order enter
/// one arrival each, where one waits, the ticker lets time pass, and the queue of each port is written. Where nothing came
/// in a round the ticker's clock is waited for. The gate sees each turn, as it does at a lock, and that the inputs wait while
/// the outputs are written, and from where there is no room any more. It takes no memory, and nothing is promised of how long
/// it goes on.
pub(crate) fn serve_in_rounds<R: Wait, G: Gate, K: Sink, C: Clock>(
    rt: &R,
    gate: &G,
    kept: KeptCore,
    service: Service<K, C>,
) -> (KeptCore, Service<K, C>)
    requires valid { IsValidPlan kept.core.value.plan }
    requires serves { IsServiceOf kept.core.value.plan service }
    requires empty { kept.core.value.past ≡ [] }
    ensures { HasServedSegment K.written K.faults C.readings kept.core.value.plan (base_of kept.core.value) service result.0 result.1 }
{
    let mut kept = kept;
    let mut service = service;
    for _ in rt.forever() {
        go_round(rt, gate, &mut kept, &mut service);
        if is_finished(&kept.core) {
            let _entries = kept.core.len();
            return (kept, service);
        }
    }
    unreachable!()
}

// One round. The inputs wait while the outputs are written; where there is no room any more they go on waiting.
fn go_round<R: Wait, G: Gate, K: Sink, C: Clock>(
    rt: &R,
    gate: &G,
    kept: &mut KeptCore,
    service: &mut Service<K, C>,
)
    requires { CanGoRound kept.old service.old }
    ensures { ServesOn K.written K.faults C.readings kept.old service.old kept.new service.new }
{
    let has_line = go_round_control(rt, gate, kept, service);
    let has_arrival = go_round_inputs(rt, gate, kept, service);
    go_round_ticker(rt, gate, kept, service, !has_line && !has_arrival);
    gate.inputs_wait(true);
    go_round_outputs(rt, gate, kept, service);
    gate.inputs_wait(kept.core.full());
}

// Enters a line of control, where one waits, or passes over what comes behind a reply that couldn't be written. The answer
// is whether an entry was made.
fn go_round_control<R: Wait, G: Gate, K: Sink, C: Clock>(
    rt: &R,
    gate: &G,
    kept: &mut KeptCore,
    service: &mut Service<K, C>,
) -> bool
    requires { CanGoRound kept.old service.old }
    ensures { ServesOn K.written K.faults C.readings kept.old service.old kept.new service.new }
{
    let number = service.ports.len() as u32;
    if kept.core.ended(Who::Control) {
        service.control.pass_over_round(rt);
        return false;
    }
    let has_line = fetch_line(rt, &mut service.control);
    if !has_line && !kept.core.full() {
        return false;
    }
    gate.pass_by(rt, number, 0);
    service.control.round(rt, kept)
}

// Takes a line that waits, where none is kept. The answer is whether control has something to enter: without control that is
// its end.
fn fetch_line<R: Wait, K: Sink>(rt: &R, control: &mut ControlWorker<K>) -> bool
    ensures ring { worker_ring control.new.ends ≡ worker_ring control.old.ends }
    ensures stands { (plan : Plan) (segments : List (List Row)) (first : Option K) → control_end (unbroken segments) ≡ None
        → WorkerStands K.written K.faults plan segments first control.old.ends
        → WorkerStands K.written K.faults plan segments first control.new.ends }
{
    match &mut control.ends {
        Some(side) => fetch_from_ring(rt, side),
        None => true,
    }
}

// Takes a line of control's ring, where none is kept and one waits. The answer is whether one is kept.
fn fetch_from_ring<R: Wait, K: Sink>(rt: &R, side: &mut ControlSide<K>) -> bool
    ensures ring { taker_ring side.new.taker ≡ taker_ring side.old.taker }
    ensures stands { (plan : Plan) (segments : List (List Row)) (first : K) → control_end (unbroken segments) ≡ None
        → SideStands K.written K.faults plan segments first side.old
        → SideStands K.written K.faults plan segments first side.new }
{
    if side.kept.is_none() {
        side.kept = side.taker.try_take(rt);
    }
    side.kept.is_some()
}

// Enters an arrival of each port at which one waits. The answer is whether an entry was made.
fn go_round_inputs<R: Wait, G: Gate, K: Sink, C: Clock>(
    rt: &R,
    gate: &G,
    kept: &mut KeptCore,
    service: &mut Service<K, C>,
) -> bool
    requires { CanGoRound kept.old service.old }
    ensures { ServesOn K.written K.faults C.readings kept.old service.old kept.new service.new }
{
    let mut has_arrival = false;
    for place in 0..service.ports.len() {
        let judge = &mut service.ports[place].judge;
        if !kept.core.ended(Who::Ingress(judge.port)) {
            has_arrival = judge_next(rt, gate, kept, judge, place as u32) || has_arrival;
        }
    }
    has_arrival
}

// Judges what waits at a port, by the number of its pass. The answer is whether an entry was made.
fn judge_next<R: Wait, G: Gate>(
    rt: &R,
    gate: &G,
    kept: &mut KeptCore,
    judge: &mut Ingress,
    number: u32,
) -> bool
    requires { IsOpen kept.old.core.value.plan (base_of kept.old.core.value) kept.old.core.value.past (passes.Ingress judge.old.port) }
    ensures { InputGoesOn kept.old judge.old kept.new judge.new }
{
    let has_arrival = fetch_arrival(rt, judge);
    if !has_arrival && !kept.core.full() {
        return false;
    }
    gate.pass_by(rt, number, 0);
    judge.round(rt, kept)
}

// Takes an arrival that waits, where none is kept. The answer is whether there is one.
fn fetch_arrival<R: Wait>(rt: &R, judge: &mut Ingress) -> bool
    ensures port { judge.new.port ≡ judge.old.port }
    ensures rings { taker_rings judge.new.taker ≡ taker_rings judge.old.taker }
    ensures stands { (segments : List (List Row)) → input_end (number_of judge.old.port) (unbroken segments) ≡ None
        → InputStands (number_of judge.old.port) segments (was_taken judge.old.taker) (kept_of judge.old.kept)
        → InputStands (number_of judge.old.port) segments (was_taken judge.new.taker) (kept_of judge.new.kept) }
{
    if judge.kept.is_none() {
        judge.kept = judge.taker.try_take(rt);
    }
    judge.kept.is_some()
}

// Lets time pass, unless the ticker has ended.
fn go_round_ticker<R: Wait, G: Gate, K: Sink, C: Clock>(
    rt: &R,
    gate: &G,
    kept: &mut KeptCore,
    service: &mut Service<K, C>,
    is_idle: bool,
)
    requires { CanGoRound kept.old service.old }
    ensures { ServesOn K.written K.faults C.readings kept.old service.old kept.new service.new }
{
    let number = service.ports.len() as u32 + 1;
    if !kept.core.ended(Who::Ticker) {
        gate.pass_by(rt, number, 0);
        service.ticker.round(kept, is_idle);
    }
}

// Writes what waits at each port.
fn go_round_outputs<R: Wait, G: Gate, K: Sink, C: Clock>(
    rt: &R,
    gate: &G,
    kept: &mut KeptCore,
    service: &mut Service<K, C>,
)
    requires { CanGoRound kept.old service.old }
    ensures { ServesOn K.written K.faults C.readings kept.old service.old kept.new service.new }
{
    let first = service.ports.len() as u32 + 2;
    for place in 0..service.ports.len() {
        let writer = &mut service.ports[place].writer;
        if !kept.core.ended(Who::Egress(writer.port)) {
            gate.pass_by(rt, first + place as u32, 0);
            writer.round(kept);
        }
    }
}

// Whether each pass has ended.
fn is_finished(core: &Core) -> bool
    requires { IsValidPlan core.now.plan }
    ensures { MatchBool result (IsFinished core.now.plan (base_of core.now) core.now.past) (¬ IsFinished core.now.plan (base_of core.now) core.now.past) }
{
    if core.inputs_left() > 0 || !core.ended(Who::Ticker) {
        return false;
    }
    for port in core.plan().ports.as_slice() {
        if !core.ended(Who::Egress(port.number)) {
            return false;
        }
    }
    true
}
