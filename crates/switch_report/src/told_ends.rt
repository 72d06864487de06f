//! The ends of passes that are told of a history, and the lines on standard error for those of which an operator has to
//! know.

ghost use Rattle.std.specs.Prelude.{◌≡◌, ◌≤◌, ◌&&◌};
ghost use Rattle.std.specs.List.{list_any};
ghost use Rattle.savi_ends.specs.Faults.{Rose};
ghost use Rattle.savi_ends.specs.Writes.{Extends};
ghost use Rattle.savi_history.specs.Endings.{is_failed_reason, is_failed_write_of, is_input, is_malformed_reason};
ghost use Rattle.savi_history.specs.EndLines.{told_lines};

use crate::end_lines::tell_end;
use savi_ends::{Put, Sink};
use savi_kinds::{How, Who};

/// Whether an input was malformed, or a line of it was too long. O(ends).
pub fn told_malformed(ends: &[(Who, How)]) -> bool
    ensures { result ≡ list_any (λ told. is_malformed_reason told.1) ends.now }
{
    ends.iter().any(|told| is_malformed(told.1))
}

/// Whether a read of an input failed. O(ends).
pub fn told_failed(ends: &[(Who, How)]) -> bool
    ensures { result ≡ list_any (λ told. is_input told.0 && is_failed_reason told.1) ends.now }
{
    ends.iter().any(|told| is_failed_read(told.0, told.1))
}

/// Whether a write of an output failed, or of a reply to control. O(ends).
pub fn told_failed_write(ends: &[(Who, How)]) -> bool
    ensures { result ≡ list_any (λ told. is_failed_write_of told.0 told.1) ends.now }
{
    ends.iter().any(|told| is_failed_write(told.0, told.1))
}

// Whether an input that ends so was malformed or had a line that is too long.
fn is_malformed(how: How) -> bool
    ensures { result ≡ is_malformed_reason how }
{
    matches!(how, How::Malformed(_) | How::Overlong(_))
}

// Whether a pass that ends so is an input at a read that failed.
fn is_failed_read(who: Who, how: How) -> bool
    ensures { result ≡ is_input who && is_failed_reason how }
{
    match who {
        Who::Ingress(_) | Who::Control => matches!(how, How::Failed),
        Who::Ticker | Who::Egress(_) => false,
    }
}

// Whether a pass that ends so is an output, or control, at a write that failed.
fn is_failed_write(who: Who, how: How) -> bool
    ensures { result ≡ is_failed_write_of who how }
{
    match who {
        Who::Egress(_) => matches!(how, How::Failed),
        Who::Control => matches!(how, How::Unwritten),
        Who::Ingress(_) | Who::Ticker => false,
    }
}

/// Writes the lines of these ends in order, one write a line, until all are written or a write fails. It takes no memory.
pub fn tell_each<K: Sink>(ends: &[(Who, How)], sink: &mut K) -> Put
    ensures extends { Extends result (K.written sink.old) (K.written sink.new) (told_lines ends.now) }
    ensures later { K.faults sink.old ≤ K.faults sink.new }
    ensures cause { result ≡ Put.Failed → Rose (K.faults sink.old) (K.faults sink.new) }
    ensures still { result ≡ Put.Done → K.faults sink.new ≡ K.faults sink.old }
{
    for told in ends {
        match tell_end(told.0, told.1, sink) {
            Put::Done => {}
            Put::Failed => return Put::Failed,
        }
    }
    Put::Done
}
