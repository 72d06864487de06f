//! The split of a capture.

ghost use Rattle.std.specs.Prelude.{◌≡◌, ◌≤◌, IfSome, [], vec_capacity};
ghost use Rattle.savi_ends.specs.declared.world.Std.{Std};
ghost use Rattle.savi_ends.specs.Places.{IsReady, OthersStay};
ghost use Rattle.split_run.specs.Names.{AreNames};
ghost use Rattle.split_run.specs.Runs.{IsNamed};
ghost use Rattle.switch_run.specs.Session.{ToldBy};
ghost use Rattle.switch_run.specs.Splits.{IsCaptureRun, IsTold};

use crate::summing::write_line;
use crate::top::{MALFORMED, NO_MEMORY, OPEN_FAULT, READ_FAULT, WRITE_FAULT};
use pcap_split::Output;
use savi_ends::{Std, World};
use savi_kinds::Text;
use split_run::{OUTPUTS_MOST, Outcome, output_names, put_counts, split_file};
use std::alloc::Global;
use switch_report::{tell_malformed, tell_memory, tell_unopened, tell_unread, tell_unwritten};

/// Splits the capture of this name, and says what came of it. The answer is the status: 0 where the capture was read to its
/// end, 4 where it is malformed, 1 where there was no memory, before anything was opened, 5 where a read failed, 6 where a
/// write did, and 7 where the capture or an output couldn't be opened. O(n) in the octets of the capture.
pub fn split_capture<W: World>(alloc: Global, file: &str, world: &mut W, errors: &mut W::K) -> u8
    requires inputs { (name : _) → IsReady (λ s. W.S.faults s ≡ 0) ((W.book world.old).inputs name) }
    requires outputs { (name : _) → IsReady (λ k. W.K.faults k ≡ 0) ((W.book world.old).outputs name) }
    requires out { IsReady (λ k. W.K.faults k ≡ 0) ((W.book world.old).std Std.Out) }
    ensures ran { IsCaptureRun W.S.left W.K.written W.S.faults W.K.faults file.now (ToldBy W.K.faults W.K.written errors.old errors.new) (W.book world.old) (W.book world.new) result }
    ensures others { OthersStay (W.book world.old).std (W.book world.new).std Std.Out }
{
    let Some((names, held)) = room_for(alloc, file) else {
        let _put = tell_memory(errors);
        return NO_MEMORY;
    };
    let outcome = split_file(file, names.as_slice(), held, world);
    tell_outcome(outcome, file, names.as_slice(), world, errors)
}

// The names of the outputs, and room for them. `None` is want of memory.
fn room_for<K>(alloc: Global, file: &str) -> Option<(Vec<Text>, Vec<Output<K>>)>
    ensures names { IfSome result (λ room. AreNames file.now room.0.items) }
    ensures empty { IfSome result (λ room. room.1.items ≡ []) }
    ensures room { IfSome result (λ room. 16 ≤ vec_capacity room.1) }
{
    let names = output_names(alloc, file).ok()?;
    let held = Vec::with_capacity(alloc, OUTPUTS_MOST as usize).ok()?;
    Some((names, held))
}

// Writes what was counted, tells standard error what went wrong, and answers the status.
fn tell_outcome<W: World>(
    outcome: Outcome,
    file: &str,
    names: &[Text],
    world: &mut W,
    errors: &mut W::K,
) -> u8
    requires names { AreNames file.now names.now }
    requires named { IsNamed outcome }
    requires out { IsReady (λ k. W.K.faults k ≡ 0) ((W.book world.old).std Std.Out) }
    ensures told { IsTold W.K.written W.K.faults (ToldBy W.K.faults W.K.written errors.old errors.new) file.now outcome ((W.book world.old).std Std.Out) ((W.book world.new).std Std.Out) result }
    ensures others { OthersStay (W.book world.old).std (W.book world.new).std Std.Out }
    ensures rest { W.book world.new ≡ record (W.book world.old) { std = (W.book world.new).std } }
{
    match outcome {
        Outcome::Split(counts) => {
            if write_line(put_counts(counts).as_slice(), world) {
                0
            } else {
                WRITE_FAULT
            }
        }
        Outcome::Malformed { at, counts } => {
            if !write_line(put_counts(counts).as_slice(), world) {
                return WRITE_FAULT;
            }
            let _put = tell_malformed(errors, file, at);
            MALFORMED
        }
        Outcome::Unread => {
            let _put = tell_unread(errors, file);
            READ_FAULT
        }
        Outcome::Unwritten { interface } => {
            let _put = tell_unwritten(errors, names[interface as usize].as_str());
            WRITE_FAULT
        }
        Outcome::NoOutput { interface } => {
            let _put = tell_unopened(errors, names[interface as usize].as_str());
            OPEN_FAULT
        }
        Outcome::NoInput => {
            let _put = tell_unopened(errors, file);
            OPEN_FAULT
        }
    }
}
