ghost use Rattle.std.specs.Prelude.{◌≡◌, ◌≢◌, ◌≤◌, ℕ, List, [], ◌∷◌, take, IfSome};
ghost use Rattle.savi_ends.specs.Octets.{Takes};
ghost use Rattle.savi_ends.specs.Faults.{Rose};
ghost use Rattle.pcapng_io.specs.Readers.{KeepsUnlessFrame};

use crate::next::NgNext;
use crate::position::Position;
use crate::steps::read_on;
use arrayvec::ArrayVec;
use savi_ends::Source;
use savi_kinds::FRAME_OCTETS_MOST;
use std::marker::Model;

/// A reader of a capture of several interfaces (pcapng), over any source.
///
/// It takes no memory, and takes each octet of its source once.
#[derive(Drop)]
pub struct NgReader {
    position: Position,
    state: State,
    // what of a packet was read: only a whole frame goes into the caller's buffer
    room: [u8; FRAME_OCTETS_MOST],
}

// What a reader is ready for.
#[derive(Clone, Copy)]
pub(crate) enum State {
    // The next block.
    Reading,
    // Nothing: the capture ended, is malformed at a place, or a read failed.
    End,
    Malformed { at: u64 },
    Failed,
}

impl Model for NgReader {
    ghost use Rattle.pcapng_io.specs.Readers.{State as Phase, IsPlaced};

    ghost Value = { Phase };

    ghost use Rattle.pcapng_io.specs.ReaderStates.{state_at, standing_of};

    ghost view = { λ r. state_at r.state (standing_of r.position) };

    ghost invariant = { λ r. IsPlaced (state_at r.state (standing_of r.position)) };
}

impl NgReader {
    ghost use Rattle.savi_kinds.specs.declared.entry.How.TheVariants as how;
    ghost use Rattle.pcapng_io.specs.Runs.{at_start};
    ghost use Rattle.pcapng_io.specs.Readers.{Reading, Ended, Answers, last_answer, IsPlaced};

    /// A reader of a whole file, which begins with a section header in either byte order.
    pub fn new() -> NgReader
        ensures { result ≡ Reading at_start }
    {
        NgReader {
            position: Position {
                place: 0,
                order: None,
                earlier: 0,
                units: ArrayVec::new(),
            },
            state: State::Reading,
            room: [0; FRAME_OCTETS_MOST],
        }
    }

    /// Reads up to the next interface or packet; blocks of other types are passed over.
    ///
    /// The octets of a `Frame` are the first `len` of the buffer; any other answer leaves it as it was. The
    /// stamp is in ms, rounded down, and at most 2^62. `Malformed` gives the place of the block that is at fault: one cut
    /// short, of another length at its end, of less than 12 or more than 1,048,576 octets, or that ends past place 2^62; no
    /// section header at the start; another major version than 1; an option that doesn't fit its block; a resolution under
    /// 10^-38 s or 2^-100 s; more than 256 interfaces of a section or 65,536 of the file; a packet of an interface that there
    /// isn't, or of more than 262,144 captured octets. `Failed` comes only where a read failed in this call. After `End`,
    /// `Malformed` or `Failed` the reader reads nothing and answers the same again.
    ///
    /// O(n) in the octets that are read, those of a frame copied once.
    pub fn next<S: Source>(&mut self, source: &mut S, buf: &mut [u8; FRAME_OCTETS_MOST]) -> NgNext
        ensures later { S.faults source.old ≤ S.faults source.new }
        ensures cause { result ≡ NgNext.Failed → self.old ≢ Ended how.Failed → Rose (S.faults source.old) (S.faults source.new) }
        ensures still { result ≢ NgNext.Failed → S.faults source.new ≡ S.faults source.old }
        ensures kept { KeepsUnlessFrame result buf.old buf.new }

        // There are octets that the source gave in this call, and the answer is what they are.
        ensures octets { (gave : List ℕ) × Takes (S.left source.old) (S.left source.new) gave × Answers self.old self.new gave buf.new (S.left source.new) result }

        // A reader that has ended reads nothing and answers the same.
        ensures again { IfSome (last_answer self.old) (λ answer. (result ≡ answer) × (self.new ≡ self.old) × (source.new ≡ source.old) × (buf.new ≡ buf.old)) }
        ensures placed { IsPlaced self.new }
    {
        match self.state {
            State::Reading => {
                let answer = read_on(&mut self.position, source, &mut self.room);
                copy_frame(answer, &self.room, buf);
                self.state = State::behind(answer);
                answer
            }
            State::End => NgNext::End,
            State::Malformed { at } => NgNext::Malformed { at },
            State::Failed => NgNext::Failed,
        }
    }
}

impl State {
    ghost use Rattle.pcapng_io.specs.Blocks.{Standing};
    ghost use Rattle.pcapng_io.specs.ReaderStates.{state_at};
    ghost use Rattle.pcapng_io.specs.Pieces.{state_after};

    // What a reader is ready for after this answer.
    fn behind(answer: NgNext) -> State
        ensures { (s : Standing) → state_at result s ≡ state_after answer s }
    {
        match answer {
            NgNext::Interface { .. } | NgNext::Frame { .. } | NgNext::Long { .. } => State::Reading,
            NgNext::End => State::End,
            NgNext::Malformed { at } => State::Malformed { at },
            NgNext::Failed => State::Failed,
        }
    }
}

// Copies the octets of a frame; any other answer leaves the buffer as it was.
fn copy_frame(answer: NgNext, room: &[u8; FRAME_OCTETS_MOST], buf: &mut [u8; FRAME_OCTETS_MOST])
    requires { (interface stamp len : ℕ) → answer ≡ NgNext.Frame interface stamp len → len ≤ 1518 }
    ensures frame { (interface stamp len : ℕ) → answer ≡ NgNext.Frame interface stamp len → take len buf.new ≡ take len room.now }
    ensures kept { KeepsUnlessFrame answer buf.old buf.new }
{
    if let NgNext::Frame { len, .. } = answer {
        let len = len as usize;
        buf[..len].copy_from_slice(&room[..len]);
    }
}
