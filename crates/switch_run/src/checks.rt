//! The check of a journal.

ghost use Rattle.std.specs.Prelude.{◌≡◌, Bool, if◌then◌else◌};
ghost use Rattle.savi_ends.specs.declared.world.Std.{Std};
ghost use Rattle.savi_ends.specs.Places.{IsReady, OthersStay};
ghost use Rattle.switch_run.specs.Causes.{Keeps, TookOrPart};
ghost use Rattle.switch_run.specs.Checks.{IsCheckRun};
ghost use Rattle.switch_run.specs.Session.{ToldBy};

use crate::summing::write_line;
use crate::top::{MALFORMED, NO_MEMORY, OPEN_FAULT, READ_FAULT, WRITE_FAULT};
use journal_check::{Checked, check};
use savi_ends::{Std, World};
use std::alloc::Global;
use switch_report::{
    CheckLine, put_bad_line, put_good, put_wrong, tell_memory, tell_unopened, tell_unread,
};

/// Checks the journal of this name, and writes to standard output what it is. The answer is the status: 0 where it is the
/// journal of a finished history, 4 where an entry or a line of it is wrong, 5 where a read of it failed, 7 where it
/// couldn't be opened, 1 where there was no memory, and 6 where the line wasn't written. It costs what a switch takes for
/// the events.
pub fn check_file<W: World>(alloc: Global, file: &str, world: &mut W, errors: &mut W::K) -> u8
    requires inputs { (name : _) → IsReady (λ s. W.S.faults s ≡ 0) ((W.book world.old).inputs name) }
    requires out { IsReady (λ k. W.K.faults k ≡ 0) ((W.book world.old).std Std.Out) }
    ensures ran { IsCheckRun W.S.left W.K.written W.S.faults W.K.faults file.now (ToldBy W.K.faults W.K.written errors.old errors.new) (W.book world.old) (W.book world.new) result }
    ensures others { OthersStay (W.book world.old).std (W.book world.new).std Std.Out }
{
    let Ok(mut source) = world.input(file) else {
        let _put = tell_unopened(errors, file);
        return OPEN_FAULT;
    };
    let checked = check(alloc, &mut source);
    world.keep_input(source);
    match checked {
        Checked::Good { entries } => write_answer(put_good(entries), 0, world),
        Checked::Wrong { entry, want, have } => {
            let line = put_wrong(entry, want.as_str(), have.as_str());
            write_answer(line, MALFORMED, world)
        }
        Checked::BadLine { n } => write_answer(put_bad_line(n), MALFORMED, world),
        Checked::Failed => {
            let _put = tell_unread(errors, file);
            READ_FAULT
        }
        Checked::NoMemory => {
            let _put = tell_memory(errors);
            NO_MEMORY
        }
    }
}

// Writes the line of a text, and answers the status: this one, where the line was written.
fn write_answer<W: World>(line: CheckLine, status: u8, world: &mut W) -> u8
    requires { IsReady (λ k. W.K.faults k ≡ 0) ((W.book world.old).std Std.Out) }
    ensures wrote { (done : Bool) × Keeps (TookOrPart W.K.faults W.K.written done line.items) ((W.book world.old).std Std.Out) ((W.book world.new).std Std.Out) × (result ≡ (if done then status else 6)) }
    ensures others { OthersStay (W.book world.old).std (W.book world.new).std Std.Out }
    ensures rest { W.book world.new ≡ record (W.book world.old) { std = (W.book world.new).std } }
{
    if write_line(line.as_slice(), world) {
        status
    } else {
        WRITE_FAULT
    }
}
