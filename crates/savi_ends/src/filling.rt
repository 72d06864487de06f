ghost use Rattle.std.specs.Prelude.{◌≡◌, ◌≢◌, ◌≤◌, ℕ, List};
ghost use Rattle.savi_ends.specs.Octets.{Takes};
ghost use Rattle.savi_ends.specs.Faults.{Rose};
ghost use Rattle.savi_ends.specs.Fills.{Fills};

use crate::source::{Got, Source};

/// How far a buffer was filled.
#[derive(Clone, Copy, PartialEq, Eq, Debug)]
pub enum Filled {
    /// The whole buffer.
    Whole,
    /// So many octets at its front, fewer than it has room for, and then the source ended.
    Short(usize),
    /// A read failed before the buffer was full.
    Failed,
}

/// Reads until the buffer is full or the source ends, in pieces of any size.
///
/// A buffer that is empty is `Whole`, and nothing is read. O(n) in the octets that are read, and at
/// most one read for each of them and one more.
pub fn fill<S: Source>(source: &mut S, buf: &mut [u8]) -> Filled
    ensures later { S.faults source.old ≤ S.faults source.new }
    ensures cause { result ≡ Filled.Failed → Rose (S.faults source.old) (S.faults source.new) }
    ensures still { result ≢ Filled.Failed → S.faults source.new ≡ S.faults source.old }
    ensures octets { (gave : List ℕ) × Takes (S.left source.old) (S.left source.new) gave × Fills result buf.new gave (S.left source.new) }
{
    let mut at = 0;
    while at < buf.len() {
        match source.read(&mut buf[at..]) {
            Got::Bytes(n) => at += n,
            Got::End => return Filled::Short(at),
            Got::Failed => return Filled::Failed,
        }
    }
    Filled::Whole
}
