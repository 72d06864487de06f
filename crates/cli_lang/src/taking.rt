ghost use Rattle.std.specs.Prelude.{◌≡◌, ◌≢◌, ◌≤◌, ℕ, List, ◌++◌};
ghost use Rattle.savi_ends.specs.Octets.{Takes};
ghost use Rattle.savi_ends.specs.Faults.{Rose};
ghost use Rattle.cli_lang.specs.Takings.{DecideLine, TakesLine};

use crate::ahead::{Ahead, Octet};
use savi_ends::Source;
use savi_kinds::CONTROL_LINE_OCTETS;

const LINE_FEED: u8 = b'\n';

/// What was taken for a line; its octets stand at the front of the buffer.
#[derive(Clone, Copy)]
pub(crate) enum Taken {
    /// So many octets, and the line feed behind them.
    Whole(usize),
    /// So many octets, and then the input ended.
    Last(usize),
    /// More octets than a line may have, without a line feed.
    Long,
    /// A read failed before the line was whole.
    Failed,
}

/// Takes the next line, up to the octet that makes it too long. O(n).
pub(crate) fn take_line<S: Source>(
    ahead: &mut Ahead,
    source: &mut S,
    buf: &mut [u8; CONTROL_LINE_OCTETS],
) -> Taken
    ensures later { S.faults source.old ≤ S.faults source.new }
    ensures cause { result ≡ Taken.Failed → Rose (S.faults source.old) (S.faults source.new) }
    ensures still { result ≢ Taken.Failed → S.faults source.new ≡ S.faults source.old }
    ensures octets { (gave : List ℕ) × Takes (S.left source.old) (S.left source.new) gave × TakesLine result (ahead.old ++ gave) ahead.new buf.new (S.left source.new) }
    ensures unread { DecideLine ahead.old → source.new ≡ source.old }
{
    let mut n = 0;
    loop {
        let octet = match ahead.next(source) {
            Octet::Is(octet) => octet,
            Octet::End => return Taken::Last(n),
            Octet::Failed => return Taken::Failed,
        };
        if octet == LINE_FEED {
            return Taken::Whole(n);
        }
        if n == buf.len() {
            return Taken::Long;
        }
        buf[n] = octet;
        n += 1;
    }
}
