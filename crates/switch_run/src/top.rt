//! The top call.

ghost use Rattle.std.specs.Prelude.{◌≡◌, ◌≢◌, ◌↔◌, ◌⊎◌, ◌≤◌, ℕ, true, false, List, IfSome, [], length, map, vec_capacity};
ghost use Rattle.std.specs.String.{string_bytes};
ghost use Rattle.savi_ends.specs.declared.world.Std.{Std};
ghost use Rattle.savi_ends.specs.Faults.{Rose};
ghost use Rattle.savi_ends.specs.Places.{BothFresh, HandedNothing, IsReady, OthersStay};
ghost use Rattle.run_config.specs.Configs.{EndHasFault, IsBuilt};
ghost use Rattle.switch_report.specs.RunLines.{memory_line, usage_line};
ghost use Rattle.run_config.specs.Words.{IsAudit, IsCheck, IsForm, IsGen, IsLearn, IsReplay, IsServe, IsSplitWords};
ghost use Rattle.switch_run.specs.Causes.{HasSomeReadFault, HasSomeWriteFault, IsElsewhereSame, IsOffPlanSame, IsOneOf, IsUnserved, IsUnused, IsUnusedOf, IsUntouched, KeepsAll, quiet_statuses, session_statuses, statuses, unused_statuses};
ghost use Rattle.switch_run.specs.Audits.{IsAuditRun, StaysUnwritten};
ghost use Rattle.switch_run.specs.Checks.{IsCheckRun};
ghost use Rattle.switch_run.specs.Loads.{IsLoadRun};
ghost use Rattle.switch_run.specs.AnyRun.{IsAnyRun};
ghost use Rattle.switch_run.specs.Learnings.{IsLearnRun};
ghost use Rattle.switch_run.specs.Runs.{IsReplayRun, IsServeRun};
ghost use Rattle.switch_run.specs.Splits.{IsCaptureRun};
ghost use Rattle.switch_run.specs.Unhindered.{IsComplete};
ghost use Rattle.switch_run.specs.Session.{IsNoPlan, IsPartUnopened, IsSession, IsSessionOf, IsUnopened, IsUnplayed, IsFileUnread, WasTold, ToldBy};

use crate::audits::audit_file;
use crate::checks::check_file;
use crate::ends_told::refuse;
use crate::learning::learn_file;
use crate::loads::generate;
use crate::serving::serve_file;
use crate::session::{Played, know_sessions, play};
use crate::splits::split_capture;
use crate::summing::conclude;
use live_turns::Gate;
use port_worker::PortEnds;
use run_config::{Asked, asked_by, configure};
use savi_ends::{Std, World};
use savi_kinds::{Plan, Text};
use std::alloc::Global;
use std::sync::Wait;
use std::thread::Threads;
use switch_ports::{keep_all, keep_control, open_all, open_control};
use switch_report::{port_name, tell_memory, tell_unopened, tell_usage};

/// There was no memory, before anything was read or written at a port.
pub const NO_MEMORY: u8 = 1;
/// The words are no form of the command line.
pub const USAGE: u8 = 2;
/// The configuration says no plan.
pub const CONFIG_FAULT: u8 = 3;
/// An input was malformed, or the text that was checked is no journal of a finished history.
pub const MALFORMED: u8 = 4;
/// A read failed.
pub const READ_FAULT: u8 = 5;
/// A write failed.
pub const WRITE_FAULT: u8 = 6;
/// Something could not be opened.
pub const OPEN_FAULT: u8 = 7;

/// Does what the words behind the program's name ask for, over this world, and answers the status.
///
/// `replay FILE` replays the captures of the ports of the plan that the configuration FILE says, and takes the commands of
/// control, where the plan names it; no capture is too long. Statuses 0, 4 and 6 say that the session began, and 5 too,
/// unless a read of the configuration failed; the other statuses have their causes. `check FILE` writes
/// what the text of FILE is, as a journal: the status is 0 where it is the journal of a finished history, 4 where it isn't,
/// and 1, 5, 6 or 7 by its cause. `audit FILE` writes which frames of a journal are reported, and how many; its statuses are
/// those of `check`. `gen SEED FRAMES` replays a load in memory, and sums it up: the status is 0, 1 or 6.
/// `split FILE` splits a capture of several interfaces into one for each: the status is 0, or 4 where FILE is malformed, and
/// 1, 5, 6 or 7 by its cause. `learn FILE MS` reads the captures as a replay does, and writes what they say of routers, with
/// a window of MS: its statuses are those of `replay`.
///
/// `serve FILE` runs a live session over the ports, the control and the ticker of the plan that FILE says, however long it is;
/// its statuses are those of `replay`. It may go on for good; nothing else waits. The gate sees each turn of its workers.
///
/// Each end is opened once: an opening that fails isn't tried again, and ends the run with status 7.
pub fn run<R: Threads + Wait + Sync, W: World, G: Gate>(
    rt: &R,
    alloc: Global,
    words: &[String],
    world: &mut W,
    gate: &G,
) -> u8
where
    W::S: Drop,
    W::K: Drop,
    W::C: Drop,
    requires { HandedNothing W.S.faults W.K.faults (W.book world.old) }

    ensures status { IsOneOf statuses result }
    ensures usage { (result ≡ 2) ↔ (IsForm (map string_bytes words.now) → ⊥) }
    ensures untouched { result ≡ 2 → IsUntouched (W.book world.old) (W.book world.new) × WasTold W.K.faults W.K.written (W.book world.old) (W.book world.new) usage_line }
    ensures memory { result ≡ 1 → WasTold W.K.faults W.K.written (W.book world.old) (W.book world.new) memory_line }
    ensures unplayed { (file : List ℕ) → IsReplay file (map string_bytes words.now) → result ≡ 1 → IsUnplayed true W.S.left W.K.written W.S.faults file (W.book world.old) (W.book world.new) }
    ensures config { (file : List ℕ) → IsReplay file (map string_bytes words.now) → result ≡ 3 → IsNoPlan true W.S.left W.S.faults file (WasTold W.K.faults W.K.written (W.book world.old) (W.book world.new)) (W.book world.old) (W.book world.new) }
    ensures open { result ≡ 7 → Rose (W.book world.old).faults (W.book world.new).faults }
    ensures still { result ≢ 7 → (W.book world.new).faults ≡ (W.book world.old).faults }
    ensures unopened { (file : List ℕ) → IsReplay file (map string_bytes words.now) → result ≡ 7 → IsUnopened true W.S.left W.S.faults file (WasTold W.K.faults W.K.written (W.book world.old) (W.book world.new)) (W.book world.old) (W.book world.new) }
    ensures session { (file : List ℕ) → IsReplay file (map string_bytes words.now) → IsOneOf session_statuses result → IsFileUnread W.S.left W.S.faults file (WasTold W.K.faults W.K.written (W.book world.old) (W.book world.new)) (W.book world.old) (W.book world.new) result ⊎ IsSession W.S.left W.K.written W.S.faults W.K.faults file (WasTold W.K.faults W.K.written (W.book world.old) (W.book world.new)) (W.book world.old) (W.book world.new) result }
    ensures read { (file : List ℕ) → IsReplay file (map string_bytes words.now) → result ≡ 5 → HasSomeReadFault W.S.faults file (W.book world.new) }
    ensures write { (file : List ℕ) → IsReplay file (map string_bytes words.now) → result ≡ 6 → HasSomeWriteFault W.K.faults (W.book world.new) }
    ensures quiet { IsOneOf quiet_statuses result → StaysUnwritten (map string_bytes words.now) result ((W.book world.old).std Std.Out) ((W.book world.new).std Std.Out) }
    ensures unused { (file : List ℕ) → IsReplay file (map string_bytes words.now) → IsOneOf unused_statuses result → IsUnused true W.S.left file (W.book world.old) (W.book world.new) }
    ensures elsewhere { (file : List ℕ) → IsReplay file (map string_bytes words.now) → IsElsewhereSame file (W.book world.old) (W.book world.new) }
    ensures serve { (file : List ℕ) → IsServe file (map string_bytes words.now) → IsServeRun W.S.left W.K.written W.S.faults W.K.faults W.C.readings file (WasTold W.K.faults W.K.written (W.book world.old) (W.book world.new)) (W.book world.old) (W.book world.new) result }
    ensures served_read { (file : List ℕ) → IsServe file (map string_bytes words.now) → result ≡ 5 → HasSomeReadFault W.S.faults file (W.book world.new) }
    ensures served_write { (file : List ℕ) → IsServe file (map string_bytes words.now) → result ≡ 6 → HasSomeWriteFault W.K.faults (W.book world.new) }
    ensures check { (file : List ℕ) → IsCheck file (map string_bytes words.now) → IsCheckRun W.S.left W.K.written W.S.faults W.K.faults file (WasTold W.K.faults W.K.written (W.book world.old) (W.book world.new)) (W.book world.old) (W.book world.new) result }
    ensures audit { (file : List ℕ) → IsAudit file (map string_bytes words.now) → IsAuditRun W.S.left W.K.written W.S.faults W.K.faults file (WasTold W.K.faults W.K.written (W.book world.old) (W.book world.new)) (W.book world.old) (W.book world.new) result }
    ensures learn { (file : List ℕ) (window : ℕ) → IsLearn file window (map string_bytes words.now) → IsLearnRun W.S.left W.K.written W.S.faults W.K.faults file window (WasTold W.K.faults W.K.written (W.book world.old) (W.book world.new)) (W.book world.old) (W.book world.new) result }
    ensures learned_read { (file : List ℕ) (window : ℕ) → IsLearn file window (map string_bytes words.now) → result ≡ 5 → HasSomeReadFault W.S.faults file (W.book world.new) }
    ensures learned_write { (file : List ℕ) (window : ℕ) → IsLearn file window (map string_bytes words.now) → result ≡ 6 → EndHasFault W.K.faults ((W.book world.new).std Std.Out) }
    ensures load { (seed frames : ℕ) → IsGen seed frames (map string_bytes words.now) → IsLoadRun W.K.written W.K.faults seed frames (WasTold W.K.faults W.K.written (W.book world.old) (W.book world.new)) (W.book world.old) (W.book world.new) result }
    ensures split { (file : List ℕ) → IsSplitWords file (map string_bytes words.now) → IsCaptureRun W.S.left W.K.written W.S.faults W.K.faults file (WasTold W.K.faults W.K.written (W.book world.old) (W.book world.new)) (W.book world.old) (W.book world.new) result }
    ensures complete { IsComplete W.S.left W.S.faults W.K.faults (map string_bytes words.now) (W.book world.old) (W.book world.new) result }
{
    let mut errors = world.std(Std::Err);
    let status = perform(rt, alloc, words, world, &mut errors, gate);
    world.keep_std(Std::Err, errors);
    status
}

// Does what the words ask for, and tells this sink what standard error is told.
fn perform<R: Threads + Wait + Sync, W: World, G: Gate>(
    rt: &R,
    alloc: Global,
    words: &[String],
    world: &mut W,
    errors: &mut W::K,
    gate: &G,
) -> u8
where
    W::S: Drop,
    W::K: Drop,
    W::C: Drop,
    requires inputs { (name : _) → IsReady (λ s. W.S.faults s ≡ 0) ((W.book world.old).inputs name) }
    requires outputs { (name : _) → IsReady (λ k. W.K.faults k ≡ 0) ((W.book world.old).outputs name) }
    requires ports { (key : _) → IsReady (BothFresh W.S.faults W.K.faults) ((W.book world.old).ports key) }
    requires control { (key : _) → IsReady (BothFresh W.S.faults W.K.faults) ((W.book world.old).control key) }
    requires ticker { (W.book world.old).ticker.is_out ≡ false }
    requires out { IsReady (λ k. W.K.faults k ≡ 0) ((W.book world.old).std Std.Out) }
    ensures ran { IsAnyRun W.S.left W.K.written W.S.faults W.K.faults W.C.readings (map string_bytes words.now) (ToldBy W.K.faults W.K.written errors.old errors.new) (W.book world.old) (W.book world.new) result }
    ensures others { OthersStay (W.book world.old).std (W.book world.new).std Std.Out }
{
    match asked_by(words) {
        Asked::Replay(file) => replay_file(alloc, file, world, errors),
        Asked::Serve(file) => serve_file(rt, alloc, file, world, errors, gate),
        Asked::Check(file) => check_file(alloc, file, world, errors),
        Asked::Audit(file) => audit_file(alloc, file, world, errors),
        Asked::Generate { seed, frames } => generate(alloc, seed, frames, world, errors),
        Asked::Split(file) => split_capture(alloc, file, world, errors),
        Asked::Learn { file, window } => learn_file(alloc, file, window, world, errors),
        Asked::NoForm => {
            let _put = tell_usage(errors);
            USAGE
        }
    }
}

// Replays what the configuration of this name says.
fn replay_file<W: World>(alloc: Global, file: &str, world: &mut W, errors: &mut W::K) -> u8
    requires inputs { (name : _) → IsReady (λ s. W.S.faults s ≡ 0) ((W.book world.old).inputs name) }
    requires outputs { (name : _) → IsReady (λ k. W.K.faults k ≡ 0) ((W.book world.old).outputs name) }
    requires ports { (key : _) → IsReady (BothFresh W.S.faults W.K.faults) ((W.book world.old).ports key) }
    requires control { (key : _) → IsReady (BothFresh W.S.faults W.K.faults) ((W.book world.old).control key) }
    requires out { IsReady (λ k. W.K.faults k ≡ 0) ((W.book world.old).std Std.Out) }
    ensures ran { IsReplayRun W.S.left W.K.written W.S.faults W.K.faults file.now (ToldBy W.K.faults W.K.written errors.old errors.new) (W.book world.old) (W.book world.new) result }
    ensures others { OthersStay (W.book world.old).std (W.book world.new).std Std.Out }
{
    match configure(alloc, file, true, world) {
        Ok(plan) => replay_plan(alloc, plan, world, errors),
        Err(refusal) => refuse(refusal, file, errors),
    }
}

// Replays a plan: its ports, its control and its journal are opened, and kept again in the end.
fn replay_plan<W: World>(alloc: Global, plan: Plan, world: &mut W, errors: &mut W::K) -> u8
    requires built { IsBuilt true plan }
    requires outputs { (name : _) → IsReady (λ k. W.K.faults k ≡ 0) ((W.book world.old).outputs name) }
    requires ports { (key : _) → IsReady (BothFresh W.S.faults W.K.faults) ((W.book world.old).ports key) }
    requires control { (key : _) → IsReady (BothFresh W.S.faults W.K.faults) ((W.book world.old).control key) }
    requires out { IsReady (λ k. W.K.faults k ≡ 0) ((W.book world.old).std Std.Out) }
    ensures status { IsOneOf statuses result }
    ensures usage { result ≡ 2 → ⊥ }
    ensures config { result ≡ 3 → ⊥ }
    ensures memory { result ≡ 1 → ToldBy W.K.faults W.K.written errors.old errors.new memory_line }
    ensures unplayed { result ≡ 1 → IsUnserved (W.book world.old) (W.book world.new) ⊎ (KeepsAll false W.S.left W.K.written plan (W.book world.old) (W.book world.new) × IsOffPlanSame plan (W.book world.old) (W.book world.new)) }
    ensures open { result ≡ 7 → Rose (W.book world.old).faults (W.book world.new).faults }
    ensures still { result ≢ 7 → (W.book world.new).faults ≡ (W.book world.old).faults }
    ensures unopened { result ≡ 7 → IsPartUnopened false plan (ToldBy W.K.faults W.K.written errors.old errors.new) (W.book world.old) (W.book world.new) }
    ensures session { IsOneOf session_statuses result → IsSessionOf W.S.left W.K.written W.S.faults W.K.faults plan (ToldBy W.K.faults W.K.written errors.old errors.new) (W.book world.old) (W.book world.new) result }
    ensures quiet { IsOneOf quiet_statuses result → (W.book world.new).std Std.Out ≡ (W.book world.old).std Std.Out }
    ensures unused { IsOneOf unused_statuses result → IsUnusedOf false plan (W.book world.old) (W.book world.new) }
    ensures others { OthersStay (W.book world.old).std (W.book world.new).std Std.Out }
    ensures rest { W.book world.new ≡ record (W.book world.old) { faults = (W.book world.new).faults; outputs = (W.book world.new).outputs; ports = (W.book world.new).ports; control = (W.book world.new).control; std = (W.book world.new).std } }
{
    let Some((mut held, journal)) = room_for(alloc, &plan) else {
        let _put = tell_memory(errors);
        return NO_MEMORY;
    };
    if let Some(port) = open_all(plan.ports.as_slice(), &mut held, world) {
        keep_all(held, world);
        let _put = tell_unopened(errors, port_name(port).as_str());
        return OPEN_FAULT;
    }
    let control = match open_control(&plan.control, world) {
        Ok(control) => control,
        Err(_) => {
            keep_all(held, world);
            let _put = tell_unopened(errors, "control");
            return OPEN_FAULT;
        }
    };
    let sink = match world.output(journal.as_str()) {
        Ok(sink) => sink,
        Err(_) => {
            keep_all(held, world);
            keep_control(control, world);
            let _put = tell_unopened(errors, "journal");
            return OPEN_FAULT;
        }
    };
    let Played {
        control,
        ports,
        journal: sink,
        outcome,
    } = play(alloc, plan, control, held, sink);
    know_sessions();
    keep_all(ports, world);
    keep_control(control, world);
    world.keep_output(journal.as_str(), sink);
    conclude(outcome, world, errors)
}

// Room for the ports of a plan, and a copy of the name of its journal. `None` is want of memory.
fn room_for<S, K, C>(alloc: Global, plan: &Plan) -> Option<(Vec<PortEnds<S, K, C>>, Text)>
    ensures empty { IfSome result (λ room. room.0.items ≡ []) }
    ensures room { IfSome result (λ room. length plan.now.ports ≤ vec_capacity room.0) }
    ensures journal { IfSome result (λ room. room.1 ≡ plan.now.journal) }
{
    let journal = Text::new(String::from_str(alloc, plan.journal.as_str()).ok()?);
    let held = Vec::with_capacity(alloc, plan.ports.as_slice().len()).ok()?;
    Some((held, journal))
}
