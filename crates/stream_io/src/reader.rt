ghost use Rattle.std.specs.Prelude.{◌≡◌, ◌≢◌, ◌<◌, ◌≤◌, ◌+◌, ◌^◌, ℕ, List, [], take, IfSome};
ghost use Rattle.savi_ends.specs.Octets.{Takes};
ghost use Rattle.savi_ends.specs.Faults.{Rose};

use crate::ahead::Ahead;
use crate::record::{LENGTH_OCTETS, Taken, take_record};
use savi_ends::{Clock, Source};
use savi_kinds::{FRAME_OCTETS_MOST, Next};
use std::marker::Model;

/// A reader of frames over a stream of octets, over any source.
///
/// It takes no memory, reads its source in pieces, and takes each octet once.
#[derive(Drop)]
pub struct StreamReader {
    state: State,
    ahead: Ahead,
    // what of a record was read: only a whole frame goes into the caller's buffer
    room: [u8; FRAME_OCTETS_MOST],
}

// What a reader is ready for.
#[derive(Clone, Copy)]
enum State {
    // The record that begins at this place.
    Running { place: u64 },
    // Nothing: the input ended, is malformed at a place, or a read failed.
    End,
    Malformed { at: u64 },
    Failed,
}

impl Model for StreamReader {
    ghost use Rattle.stream_io.specs.Readers.{State as Phase, IsPlaced};

    ghost Value = { Phase };

    ghost use Rattle.stream_io.specs.ReaderStates.{state_of};

    ghost view = { λ r. state_of r.state r.ahead };

    ghost invariant = { λ r. IsPlaced (state_of r.state r.ahead) };
}

impl StreamReader {
    ghost use Rattle.savi_kinds.specs.declared.entry.How.TheVariants as how;
    ghost use Rattle.stream_io.specs.Readers.{Running, Ended, Answers, Stamps, DecideRecord, last_answer, IsPlaced};

    /// A reader at the beginning of its input.
    pub fn new() -> StreamReader
        ensures { result ≡ Running 0 [] }
    {
        StreamReader {
            state: State::Running { place: 0 },
            ahead: Ahead::new(),
            room: [0; FRAME_OCTETS_MOST],
        }
    }

    /// Reads the next record: a length of 4 octets, the most significant first, and that many octets.
    ///
    /// Up to 1,518 octets are a `Frame`, and stand at the front of the buffer; up to 262,144 are a `Long`, and are passed
    /// over. The stamp (ms) is a reading of the clock, taken when the record is whole; for no other answer the clock is
    /// read. `Malformed` gives the place of the first octet of a record that is longer, is cut short, or ends past place
    /// 2^62. `Failed` comes only where a read failed in this call. After `End`, `Malformed` or `Failed` the reader reads
    /// nothing and answers the same again. It reads the source only while it lacks octets of the record, in pieces as
    /// large as the source gives them, and keeps what stands behind the record for the next call. Where the answer isn't a
    /// `Frame` the buffer stays as it was.
    ///
    /// O(n) in the octets of the record, those of a frame copied once more.
    pub fn next<S: Source, C: Clock>(
        &mut self,
        source: &mut S,
        clock: &mut C,
        buf: &mut [u8; FRAME_OCTETS_MOST],
    ) -> Next
        ensures later { S.faults source.old ≤ S.faults source.new }
        ensures cause { result ≡ Next.Failed → self.old ≢ Ended how.Failed → Rose (S.faults source.old) (S.faults source.new) }
        ensures still { result ≢ Next.Failed → S.faults source.new ≡ S.faults source.old }
        ensures kept { ((stamp len : ℕ) → result ≢ Next.Frame stamp len) → buf.new ≡ buf.old }

        // There are octets that the source gave in this call, and the answer is what they are behind those that were held.
        ensures octets { (gave : List ℕ) × Takes (S.left source.old) (S.left source.new) gave × Answers self.old self.new gave buf.new (S.left source.new) result }

        // Nothing is read where the octets that are held decide the record.
        ensures unread { (place : ℕ) (held : List ℕ) → self.old ≡ Running place held → DecideRecord place held → source.new ≡ source.old }

        // A reader that has ended reads nothing and answers the same.
        ensures again { IfSome (last_answer self.old) (λ answer. (result ≡ answer) × (self.new ≡ self.old) × (source.new ≡ source.old) × (buf.new ≡ buf.old)) }
        ensures stamps { Stamps C.readings clock.old clock.new result }
        ensures placed { IsPlaced self.new }
    {
        match self.state {
            State::Running { place } => self.read_at(source, clock, place, buf),
            State::End => Next::End,
            State::Malformed { at } => Next::Malformed { at },
            State::Failed => Next::Failed,
        }
    }

    // Reads the record that begins at this place, and stands behind it.
    fn read_at<S: Source, C: Clock>(
        &mut self,
        source: &mut S,
        clock: &mut C,
        place: u64,
        buf: &mut [u8; FRAME_OCTETS_MOST],
    ) -> Next
        requires placed { place ≤ 2 ^ 62 }
        requires running { (held : List ℕ) × (self.old ≡ Running place held) }
        ensures later { S.faults source.old ≤ S.faults source.new }
        ensures cause { result ≡ Next.Failed → Rose (S.faults source.old) (S.faults source.new) }
        ensures still { result ≢ Next.Failed → S.faults source.new ≡ S.faults source.old }
        ensures kept { ((stamp len : ℕ) → result ≢ Next.Frame stamp len) → buf.new ≡ buf.old }
        ensures octets { (gave : List ℕ) × Takes (S.left source.old) (S.left source.new) gave × Answers self.old self.new gave buf.new (S.left source.new) result }
        ensures unread { (at : ℕ) (held : List ℕ) → self.old ≡ Running at held → DecideRecord at held → source.new ≡ source.old }
        ensures stamps { Stamps C.readings clock.old clock.new result }
        ensures placed { IsPlaced self.new }
    {
        match take_record(&mut self.ahead, source, place, &mut self.room) {
            Taken::Whole(len) => {
                copy_frame(len, &self.room, buf);
                let place = place + (LENGTH_OCTETS as u64 + u64::from(len));
                self.state = State::Running { place };
                let stamp = clock.now();
                if len as usize > FRAME_OCTETS_MOST {
                    Next::Long { stamp, len }
                } else {
                    Next::Frame { stamp, len }
                }
            }
            Taken::End => {
                self.state = State::End;
                Next::End
            }
            Taken::Malformed => {
                // for the contract: no more is held than one piece
                self.ahead.held();
                self.state = State::Malformed { at: place };
                Next::Malformed { at: place }
            }
            Taken::Failed => {
                self.state = State::Failed;
                Next::Failed
            }
        }
    }
}

// Copies so many octets where they are a frame's; else the buffer stays as it was.
fn copy_frame(len: u32, room: &[u8; FRAME_OCTETS_MOST], buf: &mut [u8; FRAME_OCTETS_MOST])
    ensures frame { len ≤ 1518 → take len buf.new ≡ take len room.now }
    ensures kept { 1518 < len → buf.new ≡ buf.old }
{
    let len = len as usize;
    if len <= FRAME_OCTETS_MOST {
        buf[..len].copy_from_slice(&room[..len]);
    }
}
