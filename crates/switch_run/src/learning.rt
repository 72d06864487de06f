//! Learning from the captures of a plan which of its ports have routers.

ghost use Rattle.std.specs.Prelude.{◌≡◌, ◌≢◌, ◌≤◌, true, false, IfSome, [], length, vec_capacity};
ghost use Rattle.std.specs.List.{list_any};
ghost use Rattle.savi_ends.specs.declared.sink.Put.{Put};
ghost use Rattle.savi_ends.specs.declared.world.Std.{Std};
ghost use Rattle.savi_ends.specs.Faults.{Rose};
ghost use Rattle.savi_ends.specs.Places.{BothFresh, IsReady, OthersStay};
ghost use Rattle.run_config.specs.Configs.{IsBuilt};
ghost use Rattle.learn_run.specs.Begun.{IsBegun};
ghost use Rattle.switch_report.specs.RunLines.{memory_line};
ghost use Rattle.switch_run.specs.Causes.{IsOneOf, IsUnusedOf, quiet_statuses, session_statuses, statuses, unused_statuses};
ghost use Rattle.switch_run.specs.Learnings.{IsLearnRun, IsLearningOf, ending_lines, is_done, learned_status};
ghost use Rattle.savi_history.specs.Endings.{is_failed_reason, is_malformed_reason};
ghost use Rattle.switch_run.specs.Session.{IsPortUnopened, ToldBy};

use crate::ends_told::refuse;
use crate::top::{MALFORMED, NO_MEMORY, OPEN_FAULT, READ_FAULT, WRITE_FAULT};
use learn_run::{Ending, Learning};
use port_worker::PortEnds;
use run_config::configure;
use savi_ends::{Put, Sink, Std, World};
use savi_kinds::{How, Plan, Who};
use std::alloc::Global;
use switch_ports::{keep_all, open_all};
use switch_report::{port_name, tell_end, tell_memory, tell_unopened};

/// Learns from the captures of the plan that the configuration of this name says, with a window of so many ms, and writes to
/// standard output what is learned. The answer is the status: those of a replay, but for 8. The outputs of the ports are
/// opened, and nothing is written there. O(ports) for each arrival.
pub fn learn_file<W: World>(
    alloc: Global,
    file: &str,
    window: u64,
    world: &mut W,
    errors: &mut W::K,
) -> u8
    requires window { window ≤ 3600000 }
    requires inputs { (name : _) → IsReady (λ s. W.S.faults s ≡ 0) ((W.book world.old).inputs name) }
    requires ports { (key : _) → IsReady (BothFresh W.S.faults W.K.faults) ((W.book world.old).ports key) }
    requires out { IsReady (λ k. W.K.faults k ≡ 0) ((W.book world.old).std Std.Out) }
    ensures ran { IsLearnRun W.S.left W.K.written W.S.faults W.K.faults file.now window (ToldBy W.K.faults W.K.written errors.old errors.new) (W.book world.old) (W.book world.new) result }
    ensures others { OthersStay (W.book world.old).std (W.book world.new).std Std.Out }
{
    match configure(alloc, file, true, world) {
        Ok(plan) => learn_plan(alloc, &plan, window, world, errors),
        Err(refusal) => refuse(refusal, file, errors),
    }
}

// Learns with a plan: its ports are opened, and kept again in the end.
fn learn_plan<W: World>(
    alloc: Global,
    plan: &Plan,
    window: u64,
    world: &mut W,
    errors: &mut W::K,
) -> u8
    requires window { window ≤ 3600000 }
    requires built { IsBuilt true plan.now }
    requires ports { (key : _) → IsReady (BothFresh W.S.faults W.K.faults) ((W.book world.old).ports key) }
    requires out { IsReady (λ k. W.K.faults k ≡ 0) ((W.book world.old).std Std.Out) }
    ensures status { IsOneOf statuses result }
    ensures usage { result ≡ 2 → ⊥ }
    ensures config { result ≡ 3 → ⊥ }
    ensures memory { result ≡ 1 → ToldBy W.K.faults W.K.written errors.old errors.new memory_line }
    ensures unplayed { result ≡ 1 → W.book world.new ≡ W.book world.old }
    ensures open { result ≡ 7 → Rose (W.book world.old).faults (W.book world.new).faults }
    ensures still { result ≢ 7 → (W.book world.new).faults ≡ (W.book world.old).faults }
    ensures unopened { result ≡ 7 → IsPortUnopened plan.now (ToldBy W.K.faults W.K.written errors.old errors.new) (W.book world.old) (W.book world.new) }
    ensures learning { IsOneOf session_statuses result → IsLearningOf W.S.left W.K.written W.S.faults W.K.faults plan.now window (ToldBy W.K.faults W.K.written errors.old errors.new) (W.book world.old) (W.book world.new) result }
    ensures quiet { IsOneOf quiet_statuses result → (W.book world.new).std Std.Out ≡ (W.book world.old).std Std.Out }
    ensures unused { IsOneOf unused_statuses result → IsUnusedOf false plan.now (W.book world.old) (W.book world.new) }
    ensures others { OthersStay (W.book world.old).std (W.book world.new).std Std.Out }
    ensures rest { W.book world.new ≡ record (W.book world.old) { faults = (W.book world.new).faults; ports = (W.book world.new).ports; std = (W.book world.new).std } }
{
    let Some((mut held, mut learning)) = room_for(alloc, plan, window) else {
        let _put = tell_memory(errors);
        return NO_MEMORY;
    };
    if let Some(port) = open_all(plan.ports.as_slice(), &mut held, world) {
        keep_all(held, world);
        let _put = tell_unopened(errors, port_name(port).as_str());
        return OPEN_FAULT;
    }
    let mut out = world.std(Std::Out);
    let put = learning.learn(plan, &mut held, &mut out);
    world.keep_std(Std::Out, out);
    keep_all(held, world);
    tell_endings(learning.endings(), errors);
    status_by(put, learning.endings())
}

// Room for the ports of a plan, and what learns from them. `None` is want of memory.
fn room_for<S, K, C>(
    alloc: Global,
    plan: &Plan,
    window: u64,
) -> Option<(Vec<PortEnds<S, K, C>>, Learning)>
    requires { window ≤ 3600000 }
    ensures empty { IfSome result (λ room. room.0.items ≡ []) }
    ensures room { IfSome result (λ room. length plan.now.ports ≤ vec_capacity room.0) }
    ensures begun { IfSome result (λ room. IsBegun plan.now window room.1) }
{
    let learning = Learning::make(alloc, plan, window).ok()?;
    let held = Vec::with_capacity(alloc, plan.ports.as_slice().len()).ok()?;
    Some((held, learning))
}

// Says which inputs were at fault, one line for each.
fn tell_endings<K: Sink>(endings: &[Ending], errors: &mut K)
    ensures { ToldBy K.faults K.written errors.old errors.new (ending_lines endings.now) }
{
    for ending in endings {
        match tell_end(Who::Ingress(ending.port), ending.how, errors) {
            Put::Done => {}
            Put::Failed => return,
        }
    }
}

// The status by whether the text was written, and by how the inputs ended.
fn status_by(put: Put, endings: &[Ending]) -> u8
    ensures { result ≡ learned_status (is_done put) endings.now }
{
    if some_failed(endings) {
        return READ_FAULT;
    }
    match put {
        Put::Failed => WRITE_FAULT,
        Put::Done => {
            if some_malformed(endings) {
                MALFORMED
            } else {
                0
            }
        }
    }
}

// Whether some input ended at a read that failed.
fn some_failed(endings: &[Ending]) -> bool
    ensures { result ≡ list_any (λ e. is_failed_reason e.how) endings.now }
{
    endings.iter().any(|ending| is_failed(ending.how))
}

// Whether some input was malformed, or a line of it too long.
fn some_malformed(endings: &[Ending]) -> bool
    ensures { result ≡ list_any (λ e. is_malformed_reason e.how) endings.now }
{
    endings.iter().any(|ending| is_malformed(ending.how))
}

// Whether an input ended at a read that failed.
fn is_failed(how: How) -> bool
    ensures { result ≡ is_failed_reason how }
{
    matches!(how, How::Failed)
}

// Whether an input was malformed, or a line of it too long.
fn is_malformed(how: How) -> bool
    ensures { result ≡ is_malformed_reason how }
{
    matches!(how, How::Malformed(_) | How::Overlong(_))
}
