//! How what was taken from a queue is written.

ghost use Rattle.std.specs.Prelude.{◌≡◌, ◌≤◌, ◌++◌, length};
ghost use Rattle.savi_ends.specs.declared.sink.Put.{Put};
ghost use Rattle.savi_ends.specs.Faults.{Rose};
ghost use Rattle.savi_ends.specs.Writes.{Extends};
ghost use Rattle.savi_core.specs.Batches.{item_with};
ghost use Rattle.live_output.specs.OutputParts.{record_of, records_of};
ghost use Rattle.live_output.specs.Writing.{Holds};

use crate::gathered::Gathered;
use crate::records::put;
use savi_core::Batch;
use savi_ends::{Put, Sink};
use savi_kinds::{FRAME_OCTETS_OUT_MOST, Format};

/// Writes the records of a batch, one behind the other, in as few writes as there is room to gather them. What was gathered
/// before is given up. Where a write fails, no further one is made. O(n) in the octets of the batch.
pub(crate) fn write_batch<K: Sink>(
    format: Format,
    sink: &mut K,
    batch: &Batch,
    gathered: &mut Gathered,
) -> Put
    ensures extends { Extends result (K.written sink.old) (K.written sink.new) (records_of format batch.now) }
    ensures later { K.faults sink.old ≤ K.faults sink.new }
    ensures cause { result ≡ Put.Failed → Rose (K.faults sink.old) (K.faults sink.new) }
    ensures still { result ≡ Put.Done → K.faults sink.new ≡ K.faults sink.old }
{
    gathered.clear();
    for i in 0..batch.len() {
        let (moment, frame) = batch.item(i);
        match write_record(format, sink, moment, frame, gathered) {
            Put::Done => {}
            Put::Failed => return Put::Failed,
        }
    }
    gathered.flush(sink)
}

// Gathers the record of a frame. Where there is no room for it, what was gathered is written, and then the record.
fn write_record<K: Sink>(
    format: Format,
    sink: &mut K,
    moment: u64,
    frame: &[u8],
    gathered: &mut Gathered,
) -> Put
    requires { length frame.now ≤ FRAME_OCTETS_OUT_MOST }
    ensures done { result ≡ Put.Done → Holds (K.written sink.old) (K.written sink.new) gathered.new.octets.items (gathered.old.octets.items ++ record_of format (item_with moment frame.now)) }
    ensures part { result ≡ Put.Failed → Extends Put.Failed (K.written sink.old) (K.written sink.new) (gathered.old.octets.items ++ record_of format (item_with moment frame.now)) }
    ensures later { K.faults sink.old ≤ K.faults sink.new }
    ensures cause { result ≡ Put.Failed → Rose (K.faults sink.old) (K.faults sink.new) }
    ensures still { result ≡ Put.Done → K.faults sink.new ≡ K.faults sink.old }
{
    if gathered.add(format, moment, frame) {
        return Put::Done;
    }
    match gathered.flush(sink) {
        Put::Done => put(format, sink, moment, frame),
        Put::Failed => Put::Failed,
    }
}
