//! The parts of an output by its form, each in one write of its sink.

ghost use Rattle.std.specs.Prelude.{◌≡◌, ◌≤◌, length};
ghost use Rattle.savi_ends.specs.declared.sink.Put.{Put};
ghost use Rattle.savi_ends.specs.Faults.{Rose};
ghost use Rattle.savi_ends.specs.Writes.{Extends};
ghost use Rattle.savi_core.specs.Batches.{item_with};
ghost use Rattle.live_output.specs.OutputParts.{beginning, record_of};

use savi_ends::{Put, Sink};
use savi_kinds::{FRAME_OCTETS_OUT_MOST, Format};

/// Begins an output: a capture has its header in front of the first frame, a stream nothing.
pub(crate) fn begin<K: Sink>(format: Format, sink: &mut K) -> Put
    ensures extends { Extends result (K.written sink.old) (K.written sink.new) (beginning format) }
    ensures later { K.faults sink.old ≤ K.faults sink.new }
    ensures cause { result ≡ Put.Failed → Rose (K.faults sink.old) (K.faults sink.new) }
    ensures still { result ≡ Put.Done → K.faults sink.new ≡ K.faults sink.old }
{
    match format {
        Format::Pcap => pcap_io::begin(sink),
        Format::Stream => stream_io::begin(sink),
    }
}

/// Writes the record of a frame that is sent at this moment (ms). O(n) in the octets of the frame.
pub(crate) fn put<K: Sink>(format: Format, sink: &mut K, moment: u64, frame: &[u8]) -> Put
    requires { length frame.now ≤ FRAME_OCTETS_OUT_MOST }
    ensures extends { Extends result (K.written sink.old) (K.written sink.new) (record_of format (item_with moment frame.now)) }
    ensures later { K.faults sink.old ≤ K.faults sink.new }
    ensures cause { result ≡ Put.Failed → Rose (K.faults sink.old) (K.faults sink.new) }
    ensures still { result ≡ Put.Done → K.faults sink.new ≡ K.faults sink.old }
{
    match format {
        Format::Pcap => pcap_io::put(sink, moment, frame),
        Format::Stream => stream_io::put(sink, moment, frame),
    }
}
