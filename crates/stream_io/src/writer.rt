ghost use Rattle.std.specs.Prelude.{◌≡◌, ◌+◌, ◌≤◌, ◌++◌, length};
ghost use Rattle.arrayvec.specs.ArrayVec.{array_vec_len};
ghost use Rattle.savi_ends.specs.Faults.{Rose};
ghost use Rattle.savi_ends.specs.Writes.{Extends};
ghost use Rattle.stream_io.specs.Records.{record_text};

use arrayvec::ArrayVec;
use savi_ends::{Put, Sink};
use savi_kinds::FRAME_OCTETS_OUT_MOST;

/// The octets of the longest record of a frame: 4 and 1,522.
const RECORD_OCTETS_MOST: usize = 1_526;

/// Begins a stream, which has nothing in front of its first frame: nothing is written.
pub fn begin<K: Sink>(_sink: &mut K) -> Put
    ensures done { result ≡ Put.Done }
    ensures unwritten { _sink.new ≡ _sink.old }
{
    Put::Done
}

/// Writes a frame behind its length, in one write of the sink; a stream doesn't tell the moment. The frame has at most 1,522
/// octets: those of the longest that comes in, and a tag.
///
/// O(n) in the octets of the frame.
pub fn put<K: Sink>(sink: &mut K, _moment: u64, frame: &[u8]) -> Put
    requires { length frame.now ≤ FRAME_OCTETS_OUT_MOST }
    ensures extends { Extends result (K.written sink.old) (K.written sink.new) (record_text frame.now) }
    ensures later { K.faults sink.old ≤ K.faults sink.new }
    ensures cause { result ≡ Put.Failed → Rose (K.faults sink.old) (K.faults sink.new) }
    ensures still { result ≡ Put.Done → K.faults sink.new ≡ K.faults sink.old }
{
    let mut record: ArrayVec<u8, RECORD_OCTETS_MOST> = ArrayVec::new();
    add(&mut record, &(frame.len() as u32).to_be_bytes());
    add(&mut record, frame);
    sink.write(record.as_slice())
}

// Adds octets for which there is room.
fn add(text: &mut ArrayVec<u8, RECORD_OCTETS_MOST>, octets: &[u8])
    requires { array_vec_len text.old + length octets.now ≤ RECORD_OCTETS_MOST }
    ensures { text.new.items ≡ text.old.items ++ octets.now }
{
    match text.try_extend_from_slice(octets) {
        Ok(()) => {}
        Err(_) => unreachable!(),
    }
}
