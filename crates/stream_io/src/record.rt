ghost use Rattle.std.specs.Prelude.{◌≡◌, ◌≢◌, ◌≤◌, ◌^◌, ℕ, List, ◌++◌, length};
ghost use Rattle.savi_ends.specs.Octets.{Takes};
ghost use Rattle.savi_ends.specs.Faults.{Rose};
ghost use Rattle.stream_io.specs.Readers.{DecideRecord};
ghost use Rattle.stream_io.specs.Takings.{TakesBody, TakesRecord};

use crate::ahead::Ahead;
use savi_ends::{Filled, Source};
use savi_kinds::FRAME_OCTETS_MOST;

/// The octets of the length in front of a frame.
pub(crate) const LENGTH_OCTETS: usize = 4;

/// The most octets of a record behind its length.
const BODY_OCTETS_MOST: u32 = 262_144;

/// No record ends past this place of its input: 2^62.
const LAST_PLACE: u64 = 1 << 62;

/// What was taken for a record.
#[derive(Clone, Copy)]
pub(crate) enum Taken {
    /// The record, with so many octets behind its length; those of a frame are the first of the buffer.
    Whole(u32),
    /// Nothing is left.
    End,
    /// The record is too long, ends past the last place, or is cut short by the end of the source.
    Malformed,
    /// A read failed before the record was whole.
    Failed,
}

/// Takes the record that begins at this place. O(n) in its octets.
pub(crate) fn take_record<S: Source>(
    ahead: &mut Ahead,
    source: &mut S,
    place: u64,
    buf: &mut [u8; FRAME_OCTETS_MOST],
) -> Taken
    requires { place ≤ 2 ^ 62 }
    ensures later { S.faults source.old ≤ S.faults source.new }
    ensures cause { result ≡ Taken.Failed → Rose (S.faults source.old) (S.faults source.new) }
    ensures still { result ≢ Taken.Failed → S.faults source.new ≡ S.faults source.old }
    ensures octets { (gave : List ℕ) × Takes (S.left source.old) (S.left source.new) gave × TakesRecord result place (ahead.old ++ gave) ahead.new buf.new (S.left source.new) }
    ensures unread { DecideRecord place ahead.old → source.new ≡ source.old }
{
    let mut front = [0; LENGTH_OCTETS];
    match ahead.fill(source, &mut front) {
        Filled::Whole => {}
        Filled::Short(0) => return Taken::End,
        Filled::Short(_) => return Taken::Malformed,
        Filled::Failed => return Taken::Failed,
    }
    let len = u32::from_be_bytes(front);
    let end = place + LENGTH_OCTETS as u64 + u64::from(len);
    if len > BODY_OCTETS_MOST || end > LAST_PLACE {
        return Taken::Malformed;
    }
    match take_body(ahead, source, len as usize, buf) {
        Filled::Whole => Taken::Whole(len),
        Filled::Short(_) => Taken::Malformed,
        Filled::Failed => Taken::Failed,
    }
}

// Takes the octets behind a length: into the buffer where they are a frame's, else they are passed over.
fn take_body<S: Source>(
    ahead: &mut Ahead,
    source: &mut S,
    len: usize,
    buf: &mut [u8; FRAME_OCTETS_MOST],
) -> Filled
    ensures later { S.faults source.old ≤ S.faults source.new }
    ensures cause { result ≡ Filled.Failed → Rose (S.faults source.old) (S.faults source.new) }
    ensures still { result ≢ Filled.Failed → S.faults source.new ≡ S.faults source.old }
    ensures octets { (gave : List ℕ) × Takes (S.left source.old) (S.left source.new) gave × TakesBody result len (ahead.old ++ gave) ahead.new buf.new (S.left source.new) }
    ensures unread { len ≤ length ahead.old → source.new ≡ source.old }
{
    if len > FRAME_OCTETS_MOST {
        ahead.pass_over(source, len)
    } else {
        ahead.fill(source, &mut buf[..len])
    }
}
