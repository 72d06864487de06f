//! The configuration of a run.

ghost use Rattle.std.specs.Prelude.{◌≡◌, ◌≢◌, ◌≤◌, ◌⊎◌, Ok, Err, IfOk, IfSome, IfNone, length, take};
ghost use Rattle.savi_conf.specs.Answers.{IsAnswer};
ghost use Rattle.savi_ends.specs.Faults.{Rose};
ghost use Rattle.savi_ends.specs.Places.{IsReady, OthersStay};
ghost use Rattle.savi_conf.specs.declared.fault.ConfFault.{ConfFault};
ghost use Rattle.run_config.specs.declared.refusal.Refusal.{Refusal};
ghost use Rattle.run_config.specs.Configs.{EndHasFault, EndHasNoFault, IsBuilt, IsConfigured, IsReadFrom, IsReadThrough, IsRefused, IsWholeOrLong, TakesFew, TakesWhole};

use crate::refusal::Refusal;
use savi_conf::{ConfFault, OCTETS_MOST, read_plan};
use savi_ends::{Filled, Source, World, fill};
use savi_kinds::Plan;
use std::alloc::Global;

// Room for one octet more than a configuration may have, so that one that is too long is seen to be.
const ROOM: usize = OCTETS_MOST + 1;

/// Reads the plan that the configuration of this name says, for a replay or for a live session. The input and the output of
/// each port of a replay are captures.
///
/// The input is opened once, read to its end, or one octet further than a configuration may have, and kept in the world
/// again. Only it changes, and the world's count of faults, by one, where it couldn't be opened.
///
/// # Errors
///
/// `NoMemory` where an allocation failed, before the input was opened or after it was read; `CannotOpen` where the input
/// couldn't be opened, and its place is as it was; `ReadFailed` where a read failed; `Refused` with what is wrong with the
/// text.
pub fn configure<W: World>(
    alloc: Global,
    file: &str,
    replay: bool,
    world: &mut W,
) -> Result<Plan, Refusal>
    requires { (name : _) → IsReady (λ s. W.S.faults s ≡ 0) ((W.book world.old).inputs name) }

    ensures configured { IfOk result (IsConfigured replay W.S.left ((W.book world.old).inputs file.now)) }
    ensures refused { (fault : ConfFault) → result ≡ Err (Refusal.Refused fault) → IsRefused replay W.S.left ((W.book world.old).inputs file.now) fault }
    ensures unopened { result ≡ Err Refusal.CannotOpen → Rose (W.book world.old).faults (W.book world.new).faults }
    ensures still_world { result ≢ Err Refusal.CannotOpen → (W.book world.new).faults ≡ (W.book world.old).faults }
    ensures unread { result ≡ Err Refusal.ReadFailed → EndHasFault W.S.faults ((W.book world.new).inputs file.now) }
    ensures still { result ≢ Err Refusal.ReadFailed → result ≢ Err Refusal.CannotOpen → result ≢ Err Refusal.NoMemory → EndHasNoFault W.S.faults ((W.book world.new).inputs file.now) }
    ensures still_memory { result ≡ Err Refusal.NoMemory → ((W.book world.new).inputs file.now ≡ (W.book world.old).inputs file.now) ⊎ EndHasNoFault W.S.faults ((W.book world.new).inputs file.now) }

    ensures as_it_was { result ≡ Err Refusal.CannotOpen → (W.book world.new).inputs file.now ≡ (W.book world.old).inputs file.now }
    ensures kept { result ≡ Err Refusal.ReadFailed → IsReadFrom W.S.left ((W.book world.old).inputs file.now) ((W.book world.new).inputs file.now) }
    ensures whole { result ≢ Err Refusal.ReadFailed → result ≢ Err Refusal.CannotOpen → result ≢ Err Refusal.NoMemory → IsReadThrough W.S.left ((W.book world.old).inputs file.now) ((W.book world.new).inputs file.now) }
    ensures memory { result ≡ Err Refusal.NoMemory → ((W.book world.new).inputs file.now ≡ (W.book world.old).inputs file.now) ⊎ IsReadThrough W.S.left ((W.book world.old).inputs file.now) ((W.book world.new).inputs file.now) }
    ensures later { (W.book world.old).faults ≤ (W.book world.new).faults }
    ensures others { OthersStay (W.book world.old).inputs (W.book world.new).inputs file.now }
    ensures rest { W.book world.new ≡ record (W.book world.old) { faults = (W.book world.new).faults; inputs = (W.book world.new).inputs } }
{
    let Ok(mut buffer) = vec![in alloc; 0; ROOM] else {
        return Err(Refusal::NoMemory);
    };
    let Ok(mut source) = world.input(file) else {
        return Err(Refusal::CannotOpen);
    };
    let answer = read_config(alloc, &mut source, replay, &mut buffer);
    world.keep_input(source);
    answer
}

// Reads the plan that a source's text says, through a buffer of this room.
fn read_config<S: Source>(
    alloc: Global,
    source: &mut S,
    replay: bool,
    buffer: &mut [u8],
) -> Result<Plan, Refusal>
    requires { length buffer.old ≡ 65537 }
    ensures built { IfOk result (IsBuilt replay) }
    ensures says { IfOk result (λ plan. IfSome (S.left source.old) (λ text. IsAnswer text replay (Ok plan))) }
    ensures refused { (fault : ConfFault) → result ≡ Err (Refusal.Refused fault) → (fault ≢ ConfFault.NoMemory) × IfSome (S.left source.old) (λ text. IsAnswer text replay (Err fault)) }
    ensures unread { result ≡ Err Refusal.ReadFailed → Rose (S.faults source.old) (S.faults source.new) }
    ensures still { result ≢ Err Refusal.ReadFailed → S.faults source.new ≡ S.faults source.old }
    ensures opened { result ≢ Err Refusal.CannotOpen }
    ensures takes { TakesFew (S.left source.old) (S.left source.new) }
    ensures whole { result ≢ Err Refusal.ReadFailed → TakesWhole (S.left source.old) (S.left source.new) }
{
    let Some(count) = read_text(source, buffer) else {
        return Err(Refusal::ReadFailed);
    };
    match read_plan(alloc, &buffer[..count], replay) {
        Ok(plan) => Ok(plan),
        Err(ConfFault::NoMemory) => Err(Refusal::NoMemory),
        Err(fault) => Err(Refusal::Refused(fault)),
    }
}

// Reads all that a source has left to the front of a buffer, or as much as fills it, and answers how many octets that are.
// `None` is that a read failed.
fn read_text<S: Source>(source: &mut S, buffer: &mut [u8]) -> Option<usize>
    requires { length buffer.old ≡ 65537 }
    ensures cause { IfNone result (Rose (S.faults source.old) (S.faults source.new)) }
    ensures still { IfSome result (λ count. S.faults source.new ≡ S.faults source.old) }
    ensures within { IfSome result (λ count. count ≤ length buffer.new) }
    ensures text { IfSome result (λ count. IfSome (S.left source.old) (IsWholeOrLong (take count buffer.new))) }
    ensures takes { TakesFew (S.left source.old) (S.left source.new) }
    ensures whole { IfSome result (λ count. TakesWhole (S.left source.old) (S.left source.new)) }
{
    match fill(source, buffer) {
        Filled::Whole => Some(buffer.len()),
        Filled::Short(count) => Some(count),
        Filled::Failed => None,
    }
}
