//! What standard error is told at the end of a run.

ghost use Rattle.std.specs.Prelude.{◌≡◌, ◌++◌};
ghost use Rattle.savi_history.specs.EndLines.{told_lines};
ghost use Rattle.switch_report.specs.RunLines.{journal_word, write_failed_line};
ghost use Rattle.switch_run.specs.Concluded.{refusal_line, refusal_status};
ghost use Rattle.switch_run.specs.Session.{ToldBy, journal_lines};

use crate::top::{CONFIG_FAULT, NO_MEMORY, OPEN_FAULT, READ_FAULT};
use run_config::Refusal;
use savi_ends::{Put, Sink};
use savi_kinds::{How, Who};
use switch_report::{
    tell_config, tell_each, tell_memory, tell_unopened, tell_unread, tell_unwritten,
};

/// Says why there is no plan. The answer is the status.
pub fn refuse<K: Sink>(refusal: Refusal, file: &str, errors: &mut K) -> u8
    ensures status { result ≡ refusal_status refusal }
    ensures told { ToldBy K.faults K.written errors.old errors.new (refusal_line file.now refusal) }
{
    match refusal {
        Refusal::NoMemory => {
            let _put = tell_memory(errors);
            NO_MEMORY
        }
        Refusal::CannotOpen => {
            let _put = tell_unopened(errors, file);
            OPEN_FAULT
        }
        Refusal::ReadFailed => {
            let _put = tell_unread(errors, file);
            READ_FAULT
        }
        Refusal::Refused(fault) => {
            let _put = tell_config(errors, fault);
            CONFIG_FAULT
        }
    }
}

/// Says how passes ended for good, and that the journal was not written where that is so.
pub fn tell_told<K: Sink>(ends: &[(Who, How)], journal_written: bool, errors: &mut K)
    ensures { ToldBy K.faults K.written errors.old errors.new (told_lines ends.now ++ journal_lines journal_written) }
{
    if journal_written {
        let _put = tell_each(ends, errors);
    } else {
        tell_untold(ends, errors);
    }
}

// Says how passes ended for good, and that the journal was not written.
fn tell_untold<K: Sink>(ends: &[(Who, How)], errors: &mut K)
    ensures { ToldBy K.faults K.written errors.old errors.new (told_lines ends.now ++ write_failed_line journal_word) }
{
    if let Put::Done = tell_each(ends, errors) {
        let _put = tell_unwritten(errors, "journal");
    }
}
