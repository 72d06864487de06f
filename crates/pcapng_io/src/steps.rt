ghost use Rattle.std.specs.Prelude.{◌≡◌, ◌≢◌, ◌≤◌, ℕ, List, [], ◌∷◌, IfSome};
ghost use Rattle.savi_ends.specs.Octets.{Takes};
ghost use Rattle.savi_ends.specs.Faults.{Rose};
ghost use Rattle.pcapng_io.specs.Readers.{Reading, Answers, IsSound};
ghost use Rattle.pcapng_io.specs.ReaderStates.{standing_of};
ghost use Rattle.pcapng_io.specs.Pieces.{state_after};

use crate::blocks::read_block;
use crate::next::NgNext;
use crate::position::Position;
use crate::stop::Stop;
use savi_ends::Source;
use savi_kinds::FRAME_OCTETS_MOST;

// Reads blocks up to one that tells something, or up to the end.
pub(crate) fn read_on<S: Source>(
    position: &mut Position,
    source: &mut S,
    buf: &mut [u8; FRAME_OCTETS_MOST],
) -> NgNext
    requires sound { IsSound (standing_of position.old) }
    ensures later { S.faults source.old ≤ S.faults source.new }
    ensures cause { result ≡ NgNext.Failed → Rose (S.faults source.old) (S.faults source.new) }
    ensures still { result ≢ NgNext.Failed → S.faults source.new ≡ S.faults source.old }
    ensures octets { (gave : List ℕ) × Takes (S.left source.old) (S.left source.new) gave × Answers (Reading (standing_of position.old)) (state_after result (standing_of position.new)) gave buf.new (S.left source.new) result }
    ensures sound { IsSound (standing_of position.new) }
{
    loop {
        match read_block(source, position, buf) {
            Ok(Some(whole)) => {
                position.pass(whole);
                if let Some(answer) = whole.block.answer() {
                    return answer;
                }
            }
            Ok(None) => return NgNext::End,
            Err(Stop::Malformed) => return NgNext::Malformed { at: position.place },
            Err(Stop::Failed) => return NgNext::Failed,
        }
    }
}
