ghost use Rattle.std.specs.Prelude.{◌≡◌, ◌≢◌, ◌≤◌, ◌^◌, ℕ, List, [], ◌∷◌, take, IfSome};
ghost use Rattle.savi_ends.specs.Octets.{Takes};
ghost use Rattle.savi_ends.specs.Faults.{Rose};

use crate::header::{Header, read_header};
use crate::kind::{HEADER_OCTETS, HeaderKind};
use crate::record::{RECORD_HEADER_OCTETS, read_record};
use savi_ends::{Clock, Source};
use savi_kinds::{FRAME_OCTETS_MOST, Next};
use std::marker::Model;

/// A reader of a classic capture of Ethernet frames (libpcap savefile format), over any source.
///
/// It takes no memory, and takes each octet of its source once.
#[derive(Drop)]
pub struct PcapReader {
    state: State,
    // what of a record was read: only a whole frame goes into the caller's buffer
    room: [u8; FRAME_OCTETS_MOST],
}

// What a reader is ready for.
#[derive(Clone, Copy)]
enum State {
    // The header: of any classic kind, or only of this one.
    Fresh { only: Option<HeaderKind> },
    // The record that begins at this place.
    Running { kind: HeaderKind, place: u64 },
    // Nothing: the input ended, is malformed at a place, or a read failed.
    End,
    Malformed { at: u64 },
    Failed,
}

impl Model for PcapReader {
    ghost use Rattle.pcap_io.specs.Readers.{State as Phase, IsPlaced};

    ghost Value = { Phase };

    ghost use Rattle.pcap_io.specs.ReaderStates.{state_of};

    ghost view = { λ r. state_of r.state };

    ghost invariant = { λ r. IsPlaced (state_of r.state) };
}

impl PcapReader {
    ghost use Rattle.savi_kinds.specs.declared.entry.How.TheVariants as how;
    ghost use Rattle.pcap_io.specs.Kinds.{classic_kinds};
    ghost use Rattle.pcap_io.specs.Readers.{Fresh, Running, Ended, Answers, last_answer, IsPlaced};

    /// A reader that accepts the four classic headers: stamps in microseconds or nanoseconds, in either
    /// byte order.
    pub fn new() -> PcapReader
        ensures { result ≡ Fresh classic_kinds }
    {
        PcapReader {
            state: State::Fresh { only: None },
            room: [0; FRAME_OCTETS_MOST],
        }
    }

    /// A reader that accepts headers of this kind alone.
    pub fn of_kind(kind: HeaderKind) -> PcapReader
        ensures { result ≡ Fresh (kind ∷ []) }
    {
        PcapReader {
            state: State::Fresh { only: Some(kind) },
            room: [0; FRAME_OCTETS_MOST],
        }
    }

    /// Reads the next record, behind the header where that wasn't read yet.
    ///
    /// The octets of a `Frame` are the first `len` of the buffer; those of a `Long` are passed over. The
    /// stamp is in ms, and counts from the epoch of the capture. `Malformed` gives the place of the
    /// header or record that is at fault: a header cut short or of another kind, version or link type, a
    /// record cut short, of more than 262,144 captured octets, or that ends past place 2^62. `Failed`
    /// comes only where a read failed in this call. After `End`, `Malformed` or `Failed` the reader reads
    /// nothing and answers the same again. The clock isn't read. Where the answer isn't a `Frame` the buffer
    /// stays as it was.
    ///
    /// O(n) in the octets of the record, those of a frame copied once.
    pub fn next<S: Source, C: Clock>(
        &mut self,
        source: &mut S,
        _clock: &mut C,
        buf: &mut [u8; FRAME_OCTETS_MOST],
    ) -> Next
        ensures later { S.faults source.old ≤ S.faults source.new }
        ensures cause { result ≡ Next.Failed → self.old ≢ Ended how.Failed → Rose (S.faults source.old) (S.faults source.new) }
        ensures still { result ≢ Next.Failed → S.faults source.new ≡ S.faults source.old }
        ensures kept { ((stamp len : ℕ) → result ≢ Next.Frame stamp len) → buf.new ≡ buf.old }

        // There are octets that the source gave in this call, and the answer is what they are.
        ensures octets { (gave : List ℕ) × Takes (S.left source.old) (S.left source.new) gave × Answers self.old self.new gave buf.new (S.left source.new) result }

        // A reader that has ended reads nothing and answers the same.
        ensures again { IfSome (last_answer self.old) (λ answer. (result ≡ answer) × (self.new ≡ self.old) × (source.new ≡ source.old) × (buf.new ≡ buf.old)) }
        ensures placed { IsPlaced self.new }
        ensures clock { _clock.new ≡ _clock.old }
    {
        match self.state {
            State::Fresh { only } => match read_header(source, only) {
                Header::Of(kind) => self.read_at(source, kind, HEADER_OCTETS as u64, buf),
                Header::Malformed => {
                    self.state = State::Malformed { at: 0 };
                    Next::Malformed { at: 0 }
                }
                Header::Failed => {
                    self.state = State::Failed;
                    Next::Failed
                }
            },
            State::Running { kind, place } => self.read_at(source, kind, place, buf),
            State::End => Next::End,
            State::Malformed { at } => Next::Malformed { at },
            State::Failed => Next::Failed,
        }
    }

    // Reads the record that begins at this place, and stands behind it.
    fn read_at<S: Source>(
        &mut self,
        source: &mut S,
        kind: HeaderKind,
        place: u64,
        buf: &mut [u8; FRAME_OCTETS_MOST],
    ) -> Next
        requires { place ≤ 2 ^ 62 }
        ensures later { S.faults source.old ≤ S.faults source.new }
        ensures cause { result ≡ Next.Failed → Rose (S.faults source.old) (S.faults source.new) }
        ensures still { result ≢ Next.Failed → S.faults source.new ≡ S.faults source.old }
        ensures kept { ((stamp len : ℕ) → result ≢ Next.Frame stamp len) → buf.new ≡ buf.old }
        ensures octets { (gave : List ℕ) × Takes (S.left source.old) (S.left source.new) gave × Answers (Running kind place) self.new gave buf.new (S.left source.new) result }
        ensures placed { IsPlaced self.new }
    {
        let answer = read_record(source, kind, place, &mut self.room);
        copy_frame(answer, &self.room, buf);
        self.state = State::behind(kind, place, answer);
        answer
    }
}

impl State {
    ghost use Rattle.pcap_io.specs.Readers.{IsPlaced};
    ghost use Rattle.pcap_io.specs.ReaderStates.{state_of};
    ghost use Rattle.pcap_io.specs.Pieces.{state_after};

    // Where a reader stands after this answer to the record at this place.
    fn behind(kind: HeaderKind, place: u64, answer: Next) -> State
        requires { IsPlaced (state_after kind place answer) }
        ensures { state_of result ≡ state_after kind place answer }
    {
        let size = RECORD_HEADER_OCTETS as u64;
        match answer {
            Next::Frame { stamp: _, len } | Next::Long { stamp: _, len } => State::Running {
                kind,
                place: place + (size + u64::from(len)),
            },
            Next::End => State::End,
            Next::Malformed { at } => State::Malformed { at },
            Next::Failed => State::Failed,
        }
    }
}

// Copies the octets of a frame; where the answer isn't one the buffer stays as it was.
fn copy_frame(answer: Next, room: &[u8; FRAME_OCTETS_MOST], buf: &mut [u8; FRAME_OCTETS_MOST])
    requires { (stamp len : ℕ) → answer ≡ Next.Frame stamp len → len ≤ 1518 }
    ensures frame { (stamp len : ℕ) → answer ≡ Next.Frame stamp len → take len buf.new ≡ take len room.now }
    ensures kept { ((stamp len : ℕ) → answer ≢ Next.Frame stamp len) → buf.new ≡ buf.old }
{
    if let Next::Frame { stamp: _, len } = answer {
        let len = len as usize;
        buf[..len].copy_from_slice(&room[..len]);
    }
}
