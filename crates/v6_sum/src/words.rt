// Sums over 16-bit words, taken eight octets at a time.

ghost use Rattle.std.specs.Prelude.{◌≡◌, ◌+◌, ◌*◌, ◌^◌, ◌<◌, ◌≤◌, length};
ghost use Rattle.v6_sum.specs.WideSum.{plain_sum, IsSameFolded};

use byteorder::{BigEndian, ByteOrder};

/// Octets that the sum takes in one step.
const WIDE: usize = 8;
/// Octets of a word.
const WORD: usize = 2;

/// Adds the words of the octets to a running sum, whose carries are still to be folded. O(n).
pub fn add_words(running: u64, octets: &[u8]) -> u64
    requires room { running ≤ 2 ^ 60 }
    requires short { length octets.now ≤ 65535 }
    ensures same { IsSameFolded result (running + plain_sum octets.now) }
    ensures bound { result ≤ running + 2 ^ 30 * (length octets.now + 1) }
{
    let mut total = running;
    let mut at = 0;
    'wide: while octets.len() - at >= WIDE {
        let word = BigEndian::read_u64(&octets[at..]);
        total += (word >> 32) + (word & 0xffff_ffff);
        at += WIDE;
    }
    'narrow: while octets.len() - at >= WORD {
        total += u64::from(BigEndian::read_u16(&octets[at..]));
        at += WORD;
    }
    if at < octets.len() {
        total += u64::from(octets[at]) * 256;
    }
    total
}

/// Adds what a sum carried out of its low 16 bits at the bottom, until nothing is carried. O(1).
pub fn fold_carries(running: u64) -> u16
    ensures { IsSameFolded result running }
{
    let mut total = running;
    'carry: while total > 0xffff {
        total = (total >> 16) + (total & 0xffff);
    }
    total as u16
}
