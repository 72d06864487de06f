ghost use Rattle.std.specs.Prelude.{◌≡◌, ◌<◌, ◌≤◌, ◌++◌, ℕ, [], length, min, drop};
ghost use Rattle.savi_ends.specs.Reads.{octets_given, FitsIn};
ghost use Rattle.savi_ends.specs.Pieces.{piece_of, count_given, buffer_after};

use crate::source::Got;

/// Copies the front of what is left to the front of a buffer, at most `most` octets.
pub(crate) fn give(left: &[u8], most: usize, buf: &mut [u8]) -> Got
    requires most { 1 ≤ most }
    requires room { 0 < length buf.old }
    ensures gives { result ≡ piece_of left.now (min most (length buf.old)) }
    ensures buffer { buf.new ≡ buffer_after result left.now buf.old }
    ensures fits { FitsIn result (length buf.old) }
    ensures octets { left.now ≡ octets_given result buf.new ++ drop (count_given result) left.now }
    ensures end { result ≡ Got.End → left.now ≡ [] }
{
    if left.is_empty() {
        return Got::End;
    }
    let n = most.min(buf.len()).min(left.len());
    buf[..n].copy_from_slice(&left[..n]);
    Got::Bytes(n)
}
