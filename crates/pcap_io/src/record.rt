ghost use Rattle.std.specs.Prelude.{◌≡◌, ◌≢◌, ◌≤◌, ◌^◌, ℕ, List, length};
ghost use Rattle.savi_ends.specs.Octets.{Takes};
ghost use Rattle.savi_ends.specs.Faults.{Rose};
ghost use Rattle.pcap_io.specs.Records.{stamp_of};
ghost use Rattle.pcap_io.specs.Readers.{Running, Answers};
ghost use Rattle.pcap_io.specs.Pieces.{Passes, state_after};

use crate::kind::HeaderKind;
use savi_ends::{Filled, Got, Source, fill};
use savi_kinds::{FRAME_OCTETS_MOST, Next};

/// The octets of a record in front of the captured ones.
pub(crate) const RECORD_HEADER_OCTETS: usize = 16;

/// The most captured octets of a record, libpcap's MAXIMUM_SNAPLEN.
const CAPTURED_OCTETS_MOST: u32 = 262_144;

/// No record ends past this place of its input: 2^62.
const LAST_PLACE: u64 = 1 << 62;

// Reads the record that begins at this place; the buffer is room for its octets, of which it holds a frame's.
pub(crate) fn read_record<S: Source>(
    source: &mut S,
    kind: HeaderKind,
    place: u64,
    buf: &mut [u8; FRAME_OCTETS_MOST],
) -> Next
    requires { place ≤ 2 ^ 62 }
    ensures later { S.faults source.old ≤ S.faults source.new }
    ensures cause { result ≡ Next.Failed → Rose (S.faults source.old) (S.faults source.new) }
    ensures still { result ≢ Next.Failed → S.faults source.new ≡ S.faults source.old }
    ensures octets { (gave : List ℕ) × Takes (S.left source.old) (S.left source.new) gave × Answers (Running kind place) (state_after kind place result) gave buf.new (S.left source.new) result }
{
    let mut head = [0; RECORD_HEADER_OCTETS];
    match fill(source, &mut head) {
        Filled::Whole => {}
        Filled::Short(0) => return Next::End,
        Filled::Short(_) => return Next::Malformed { at: place },
        Filled::Failed => return Next::Failed,
    }
    let len = kind.order.number_at(&head, 8);
    let end = place + RECORD_HEADER_OCTETS as u64 + u64::from(len);
    if len > CAPTURED_OCTETS_MOST || end > LAST_PLACE {
        return Next::Malformed { at: place };
    }
    let stamp = stamp_in(kind, &head);
    if len as usize > FRAME_OCTETS_MOST {
        return match pass_over(source, len as usize, buf) {
            Filled::Whole => Next::Long { stamp, len },
            Filled::Short(_) => Next::Malformed { at: place },
            Filled::Failed => Next::Failed,
        };
    }
    match fill(source, &mut buf[..len as usize]) {
        Filled::Whole => Next::Frame { stamp, len },
        Filled::Short(_) => Next::Malformed { at: place },
        Filled::Failed => Next::Failed,
    }
}

// The stamp (ms) of a record, rounded down.
fn stamp_in(kind: HeaderKind, head: &[u8; RECORD_HEADER_OCTETS]) -> u64
    ensures { result ≡ stamp_of kind head.now }
{
    let seconds = kind.order.number_at(head, 0);
    let fraction = kind.order.number_at(head, 4);
    1_000 * u64::from(seconds) + u64::from(fraction / kind.unit.per_ms())
}

// Takes so many octets from a source and keeps none of them; the buffer is room for the pieces.
fn pass_over<S: Source>(source: &mut S, len: usize, buf: &mut [u8; FRAME_OCTETS_MOST]) -> Filled
    ensures later { S.faults source.old ≤ S.faults source.new }
    ensures cause { result ≡ Filled.Failed → Rose (S.faults source.old) (S.faults source.new) }
    ensures still { result ≢ Filled.Failed → S.faults source.new ≡ S.faults source.old }
    ensures octets { (gave : List ℕ) × Takes (S.left source.old) (S.left source.new) gave × Passes result len gave (S.left source.new) }
{
    let mut missing = len;
    while missing > 0 {
        let room = missing.min(FRAME_OCTETS_MOST);
        match source.read(&mut buf[..room]) {
            Got::Bytes(n) => missing -= n,
            Got::End => return Filled::Short(len - missing),
            Got::Failed => return Filled::Failed,
        }
    }
    Filled::Whole
}
