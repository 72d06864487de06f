//! The audit of a journal.

ghost use Rattle.std.specs.Prelude.{◌≡◌, not, if◌then◌else◌};
ghost use Rattle.savi_ends.specs.declared.world.Std.{Std};
ghost use Rattle.savi_ends.specs.Places.{IsReady, OthersStay};
ghost use Rattle.switch_run.specs.Audits.{IsAuditRun, audit_error, audit_status, closing_line};
ghost use Rattle.switch_run.specs.Session.{ToldBy};

use crate::top::{MALFORMED, NO_MEMORY, OPEN_FAULT, READ_FAULT, WRITE_FAULT};
use arrayvec::ArrayVec;
use audit_run::{Auditor, audit};
use journal_check::Checked;
use savi_ends::{Sink, Std, World};
use std::alloc::Global;
use switch_report::{
    CheckLine, put_audited, put_bad_line, put_wrong, tell_memory, tell_unopened, tell_unread,
};

/// Audits the journal of this name: writes to standard output the frames of IPv4 and ARP that are reported, and what was
/// counted, or what `check` says of a journal that isn't good. The answer is the status: that of a check, and 6 where not
/// all was written and no read failed. It costs what a check costs, and what a snoop does for each frame that passed.
pub fn audit_file<W: World>(alloc: Global, file: &str, world: &mut W, errors: &mut W::K) -> u8
    requires inputs { (name : _) → IsReady (λ s. W.S.faults s ≡ 0) ((W.book world.old).inputs name) }
    requires out { IsReady (λ k. W.K.faults k ≡ 0) ((W.book world.old).std Std.Out) }
    ensures ran { IsAuditRun W.S.left W.K.written W.S.faults W.K.faults file.now (ToldBy W.K.faults W.K.written errors.old errors.new) (W.book world.old) (W.book world.new) result }
    ensures others { OthersStay (W.book world.old).std (W.book world.new).std Std.Out }
{
    let Ok(mut source) = world.input(file) else {
        let _put = tell_unopened(errors, file);
        return OPEN_FAULT;
    };
    let mut auditor = Auditor::new(world.std(Std::Out));
    let checked = audit(alloc, &mut source, &mut auditor);
    world.keep_input(source);
    let line = put_closing(&checked, auditor.frames(), auditor.violations());
    let (out, failed) = auditor.finish(line.as_slice());
    world.keep_std(Std::Out, out);
    tell_audit(&checked, file, errors);
    status_by(&checked, failed)
}

// The line behind the violations, by what the text of a journal is and what was counted. A text that was read in part has
// none.
fn put_closing(checked: &Checked, frames: u64, violations: u64) -> CheckLine
    ensures { result.items ≡ closing_line frames violations checked.now }
{
    match checked {
        Checked::Good { entries } => put_audited(*entries, frames, violations),
        Checked::Wrong { entry, want, have } => put_wrong(*entry, want.as_str(), have.as_str()),
        Checked::BadLine { n } => put_bad_line(*n),
        Checked::Failed => ArrayVec::new(),
        Checked::NoMemory => ArrayVec::new(),
    }
}

// Tells standard error that a read failed, or that there was no memory.
fn tell_audit<K: Sink>(checked: &Checked, file: &str, errors: &mut K)
    ensures { ToldBy K.faults K.written errors.old errors.new (audit_error file.now checked.now) }
{
    match checked {
        Checked::Good { .. } => {}
        Checked::Wrong { .. } => {}
        Checked::BadLine { .. } => {}
        Checked::Failed => {
            let _put = tell_unread(errors, file);
        }
        Checked::NoMemory => {
            let _put = tell_memory(errors);
        }
    }
}

// The status by what the text is, and by whether a write failed.
fn status_by(checked: &Checked, failed: bool) -> u8
    ensures { result ≡ audit_status (not failed) checked.now }
{
    match checked {
        Checked::Good { .. } => status_unless(failed, 0),
        Checked::Wrong { .. } => status_unless(failed, MALFORMED),
        Checked::BadLine { .. } => status_unless(failed, MALFORMED),
        Checked::Failed => READ_FAULT,
        Checked::NoMemory => NO_MEMORY,
    }
}

// This status, unless a write failed.
fn status_unless(failed: bool, status: u8) -> u8
    ensures { result ≡ (if not failed then status else 6) }
{
    if failed { WRITE_FAULT } else { status }
}
