ghost use Rattle.std.specs.Prelude.{◌≡◌, ◌+◌, ◌≤◌, [], ◌++◌, length};
ghost use Rattle.arrayvec.specs.ArrayVec.{array_vec_len};
ghost use Rattle.savi_ends.specs.Faults.{Rose};
ghost use Rattle.savi_ends.specs.Writes.{Extends};
ghost use Rattle.pcap_io.specs.Captures.{header_text, record_text};

use arrayvec::ArrayVec;
use savi_ends::{Put, Sink};
use savi_kinds::FRAME_OCTETS_OUT_MOST;

/// The octets of the longest record of a frame: 16 and 1,522.
const RECORD_OCTETS_MOST: usize = 1_538;

/// The header of a capture that is written (libpcap savefile format): little-endian, microseconds,
/// version 2.4, a snaplen of 65,535, Ethernet.
const HEADER: [u8; 24] = [
    0xd4, 0xc3, 0xb2, 0xa1, 2, 0, 4, 0, 0, 0, 0, 0, 0, 0, 0, 0, 0xff, 0xff, 0, 0, 1, 0, 0, 0,
];

/// The seconds of a record are counted modulo 2^32.
const SECONDS_END: u64 = 1 << 32;

/// Milliseconds in a second.
const MS_PER_SECOND: u64 = 1_000;

/// Begins a capture: writes its header, in one write of the sink.
pub fn begin<K: Sink>(sink: &mut K) -> Put
    ensures extends { Extends result (K.written sink.old) (K.written sink.new) header_text }
    ensures later { K.faults sink.old ≤ K.faults sink.new }
    ensures cause { result ≡ Put.Failed → Rose (K.faults sink.old) (K.faults sink.new) }
    ensures still { result ≡ Put.Done → K.faults sink.new ≡ K.faults sink.old }
{
    sink.write(&HEADER)
}

/// Writes the record of a frame that is sent at this moment (ms), in one write of the sink. The frame has at most 1,522
/// octets: those of the longest that comes in, and a tag.
///
/// The seconds are written modulo 2^32. O(n) in the octets of the frame.
pub fn put<K: Sink>(sink: &mut K, moment: u64, frame: &[u8]) -> Put
    requires { length frame.now ≤ FRAME_OCTETS_OUT_MOST }
    ensures extends { Extends result (K.written sink.old) (K.written sink.new) (record_text moment frame.now) }
    ensures later { K.faults sink.old ≤ K.faults sink.new }
    ensures cause { result ≡ Put.Failed → Rose (K.faults sink.old) (K.faults sink.new) }
    ensures still { result ≡ Put.Done → K.faults sink.new ≡ K.faults sink.old }
{
    let mut record = ArrayVec::new();
    put_record(moment, frame, &mut record);
    sink.write(record.as_slice())
}

// Puts the octets of the record of a frame into an empty buffer: where it is made it stays.
fn put_record(moment: u64, frame: &[u8], into: &mut ArrayVec<u8, RECORD_OCTETS_MOST>)
    requires empty { into.old.items ≡ [] }
    requires short { length frame.now ≤ FRAME_OCTETS_OUT_MOST }
    ensures { into.new.items ≡ record_text moment frame.now }
{
    let seconds = (moment / MS_PER_SECOND % SECONDS_END) as u32;
    let microseconds = (1_000 * (moment % MS_PER_SECOND)) as u32;
    let len = (frame.len() as u32).to_le_bytes();
    add(into, &seconds.to_le_bytes());
    add(into, &microseconds.to_le_bytes());
    add(into, &len);
    add(into, &len);
    add(into, frame);
}

// Adds octets for which there is room.
fn add(text: &mut ArrayVec<u8, RECORD_OCTETS_MOST>, octets: &[u8])
    requires { array_vec_len text.old + length octets.now ≤ RECORD_OCTETS_MOST }
    ensures { text.new.items ≡ text.old.items ++ octets.now }
{
    match text.try_extend_from_slice(octets) {
        Ok(()) => {}
        Err(_) => unreachable!(),
    }
}
