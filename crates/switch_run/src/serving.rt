//! The run of a live session: what a configuration names is opened, served, and kept again.

ghost use Rattle.std.specs.Prelude.{◌≡◌, ◌≢◌, ◌⊎◌, ◌≤◌, true, false, IfOk, [], length, map, vec_capacity};
ghost use Rattle.savi_kinds.specs.Ports.{number_of};
ghost use Rattle.savi_kinds.specs.ValidPlan.{numbers_of};
ghost use Rattle.savi_ends.specs.declared.world.Std.{Std};
ghost use Rattle.savi_ends.specs.Faults.{Rose};
ghost use Rattle.savi_ends.specs.Places.{BothFresh, IsReady, OthersStay};
ghost use Rattle.run_config.specs.Configs.{IsBuilt};
ghost use Rattle.switch_report.specs.RunLines.{memory_line};
ghost use Rattle.switch_run.specs.Causes.{IsOffPlanSame, IsOneOf, IsUnserved, IsUnusedOf, KeepsAll, quiet_statuses, session_statuses, statuses, unused_statuses};
ghost use Rattle.switch_run.specs.Runs.{IsServeRun};
ghost use Rattle.switch_run.specs.Live.{IsServeOf};
ghost use Rattle.switch_run.specs.Session.{IsPartUnopened, ToldBy};

use crate::ends_told::refuse;
use crate::live::{Served, serve};
use crate::session::know_sessions;
use crate::summing::conclude;
use crate::top::{NO_MEMORY, OPEN_FAULT};
use live_switch::Ready;
use live_turns::Gate;
use run_config::configure;
use savi_ends::{Ends, World};
use savi_kinds::{Plan, Port, PortPlan, Text};
use std::alloc::{AllocError, Global};
use std::sync::Wait;
use std::thread::Threads;
use switch_ports::{keep_live, keep_live_control, open_live, open_live_control};
use switch_report::{port_name, tell_memory, tell_unopened};

/// Serves what the configuration of this name says. The answer is the status. It may go on for good.
pub fn serve_file<R: Threads + Wait + Sync, W: World, G: Gate>(
    rt: &R,
    alloc: Global,
    file: &str,
    world: &mut W,
    errors: &mut W::K,
    gate: &G,
) -> u8
where
    W::S: Drop,
    W::K: Drop,
    W::C: Drop,
    requires inputs { (name : _) → IsReady (λ s. W.S.faults s ≡ 0) ((W.book world.old).inputs name) }
    requires outputs { (name : _) → IsReady (λ k. W.K.faults k ≡ 0) ((W.book world.old).outputs name) }
    requires ports { (key : _) → IsReady (BothFresh W.S.faults W.K.faults) ((W.book world.old).ports key) }
    requires control { (key : _) → IsReady (BothFresh W.S.faults W.K.faults) ((W.book world.old).control key) }
    requires ticker { (W.book world.old).ticker.is_out ≡ false }
    requires out { IsReady (λ k. W.K.faults k ≡ 0) ((W.book world.old).std Std.Out) }
    ensures ran { IsServeRun W.S.left W.K.written W.S.faults W.K.faults W.C.readings file.now (ToldBy W.K.faults W.K.written errors.old errors.new) (W.book world.old) (W.book world.new) result }
    ensures others { OthersStay (W.book world.old).std (W.book world.new).std Std.Out }
{
    match configure(alloc, file, false, world) {
        Ok(plan) => serve_plan(rt, alloc, plan, world, errors, gate),
        Err(refusal) => refuse(refusal, file, errors),
    }
}

// Serves a plan: its ports, its control, its journal and the ticker's clock are opened, and kept again in the end.
fn serve_plan<R: Threads + Wait + Sync, W: World, G: Gate>(
    rt: &R,
    alloc: Global,
    plan: Plan,
    world: &mut W,
    errors: &mut W::K,
    gate: &G,
) -> u8
where
    W::S: Drop,
    W::K: Drop,
    W::C: Drop,
    requires built { IsBuilt false plan }
    requires outputs { (name : _) → IsReady (λ k. W.K.faults k ≡ 0) ((W.book world.old).outputs name) }
    requires ports { (key : _) → IsReady (BothFresh W.S.faults W.K.faults) ((W.book world.old).ports key) }
    requires control { (key : _) → IsReady (BothFresh W.S.faults W.K.faults) ((W.book world.old).control key) }
    requires ticker { (W.book world.old).ticker.is_out ≡ false }
    requires out { IsReady (λ k. W.K.faults k ≡ 0) ((W.book world.old).std Std.Out) }
    ensures status { IsOneOf statuses result }
    ensures usage { result ≡ 2 → ⊥ }
    ensures config { result ≡ 3 → ⊥ }
    ensures memory { result ≡ 1 → ToldBy W.K.faults W.K.written errors.old errors.new memory_line }
    ensures unplayed { result ≡ 1 → IsUnserved (W.book world.old) (W.book world.new) ⊎ (KeepsAll true W.S.left W.K.written plan (W.book world.old) (W.book world.new) × IsOffPlanSame plan (W.book world.old) (W.book world.new)) }
    ensures open { result ≡ 7 → Rose (W.book world.old).faults (W.book world.new).faults }
    ensures still { result ≢ 7 → (W.book world.new).faults ≡ (W.book world.old).faults }
    ensures unopened { result ≡ 7 → IsPartUnopened true plan (ToldBy W.K.faults W.K.written errors.old errors.new) (W.book world.old) (W.book world.new) }
    ensures unticked { result ≡ 7 → (W.book world.new).ticker ≡ (W.book world.old).ticker }
    ensures session { IsOneOf session_statuses result → IsServeOf W.S.left W.K.written W.S.faults W.K.faults W.C.readings plan (ToldBy W.K.faults W.K.written errors.old errors.new) (W.book world.old) (W.book world.new) result }
    ensures quiet { IsOneOf quiet_statuses result → (W.book world.new).std Std.Out ≡ (W.book world.old).std Std.Out }
    ensures unused { IsOneOf unused_statuses result → IsUnusedOf true plan (W.book world.old) (W.book world.new) }
    ensures others { OthersStay (W.book world.old).std (W.book world.new).std Std.Out }
    ensures rest { W.book world.new ≡ record (W.book world.old) { faults = (W.book world.new).faults; outputs = (W.book world.new).outputs; ports = (W.book world.new).ports; control = (W.book world.new).control; ticker = (W.book world.new).ticker; std = (W.book world.new).std } }
{
    let Ok((numbers, mut held, journal)) = room_for(alloc, &plan) else {
        let _put = tell_memory(errors);
        return NO_MEMORY;
    };
    if let Some(port) = open_live(plan.ports.as_slice(), &mut held, world) {
        keep_live(numbers.as_slice(), held, world);
        let _put = tell_unopened(errors, port_name(port).as_str());
        return OPEN_FAULT;
    }
    let control = match open_live_control(&plan.control, world) {
        Ok(control) => control,
        Err(_) => {
            keep_live(numbers.as_slice(), held, world);
            let _put = tell_unopened(errors, "control");
            return OPEN_FAULT;
        }
    };
    let sink = match world.output(journal.as_str()) {
        Ok(sink) => sink,
        Err(_) => {
            keep_live(numbers.as_slice(), held, world);
            keep_live_control(control, world);
            let _put = tell_unopened(errors, "journal");
            return OPEN_FAULT;
        }
    };
    let opened = Ready {
        ports: held,
        control,
        ticker: world.ticker(),
        journal: sink,
    };
    let Served { ready, outcome } = serve(rt, alloc, plan, opened, gate);
    know_sessions();
    keep_live(numbers.as_slice(), ready.ports, world);
    keep_live_control(ready.control, world);
    world.keep_ticker(ready.ticker);
    world.keep_output(journal.as_str(), ready.journal);
    conclude(outcome, world, errors)
}

// What of a plan is wanted behind the session, which takes the plan: the numbers of its ports and the name of its journal;
// and between them room for the ends of its ports. `Err` is want of memory.
fn room_for<S: Drop, K: Drop, C: Drop>(
    alloc: Global,
    plan: &Plan,
) -> Result<(Vec<Port>, Vec<Ends<S, K, C>>, Text), AllocError>
    ensures numbers { IfOk result (λ room. map number_of room.0.items ≡ numbers_of plan.now.ports) }
    ensures empty { IfOk result (λ room. room.1.items ≡ []) }
    ensures room { IfOk result (λ room. length plan.now.ports ≤ vec_capacity room.1) }
    ensures journal { IfOk result (λ room. room.2 ≡ plan.now.journal) }
{
    let journal = Text::new(String::from_str(alloc, plan.journal.as_str())?);
    let held = Vec::with_capacity(alloc, plan.ports.as_slice().len())?;
    let numbers = port_numbers(alloc, plan.ports.as_slice())?;
    Ok((numbers, held, journal))
}

// The numbers of these ports, in their order. `Err` is want of memory.
#[tactic(auto, using(crate::proofs::Numbers::numbers_whole))]
fn port_numbers(alloc: Global, ports: &[PortPlan]) -> Result<Vec<Port>, AllocError>
    ensures { IfOk result (λ numbers. map number_of numbers.items ≡ numbers_of ports.now) }
{
    let mut numbers = Vec::with_capacity(alloc, ports.len())?;
    for port in ports {
        numbers.push_reserved(port.number);
    }
    Ok(numbers)
}
