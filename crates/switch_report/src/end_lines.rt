//! The line on standard error for an end of which an operator has to know.

ghost use Rattle.std.specs.Prelude.{◌≡◌, ◌≤◌};
ghost use Rattle.savi_ends.specs.Faults.{Rose};
ghost use Rattle.savi_ends.specs.Writes.{Extends};
ghost use Rattle.savi_history.specs.EndLines.{end_line};

use crate::end_line::{EndLine, put_end_line};
use savi_ends::{Put, Sink};
use savi_kinds::{How, Who};

/// Writes the line of one end, unless it is an ordinary one, one by `quit` or a pause, which have none.
pub fn tell_end<K: Sink>(who: Who, how: How, sink: &mut K) -> Put
    ensures extends { Extends result (K.written sink.old) (K.written sink.new) (end_line who how) }
    ensures later { K.faults sink.old ≤ K.faults sink.new }
    ensures cause { result ≡ Put.Failed → Rose (K.faults sink.old) (K.faults sink.new) }
    ensures still { result ≡ Put.Done → K.faults sink.new ≡ K.faults sink.old }
{
    let mut line = EndLine::new();
    put_end_line(&mut line, who, how);
    tell_line(sink, line.as_slice())
}

// Writes a line, if there is one.
fn tell_line<K: Sink>(sink: &mut K, line: &[u8]) -> Put
    ensures extends { Extends result (K.written sink.old) (K.written sink.new) line.now }
    ensures later { K.faults sink.old ≤ K.faults sink.new }
    ensures cause { result ≡ Put.Failed → Rose (K.faults sink.old) (K.faults sink.new) }
    ensures still { result ≡ Put.Done → K.faults sink.new ≡ K.faults sink.old }
{
    if line.is_empty() {
        Put::Done
    } else {
        sink.write(line)
    }
}
