// The checksum of a message.

ghost use Rattle.std.specs.Prelude.{◌≡◌, ◌+◌, ◌%◌, ◌≤◌, ◌↔◌, length, IsTrue};
ghost use Rattle.v6_sum.specs.InternetChecksum.{checksum, with_word_at};

use crate::words::{add_words, fold_carries};
use savi_kinds::Addr;

/// The Internet checksum over the pseudo header and the message (RFC 8200 section 8.1), the message's
/// own checksum octets being taken as they stand. The message has at most 65,535 octets. O(n).
pub fn sum_of(src: Addr, dst: Addr, next: u8, message: &[u8]) -> u16
    requires { length message.now ≤ 65535 }
    ensures { result ≡ checksum src dst next message.now }
{
    // The length and the next header are words of the pseudo header, since both fit 16 bits.
    let mut running = message.len() as u64 + u64::from(next);
    running = add_words(running, &src.0.to_be_bytes());
    running = add_words(running, &dst.0.to_be_bytes());
    !fold_carries(add_words(running, message))
}

/// Whether the message carries its right checksum: the checksum over the whole of it is 0 (RFC 1071
/// section 1). The message has at most 65,535 octets. O(n).
pub fn sum_ok(src: Addr, dst: Addr, next: u8, message: &[u8]) -> bool
    requires { length message.now ≤ 65535 }
    ensures { IsTrue result ↔ (checksum src dst next message.now ≡ 0) }
{
    sum_of(src, dst, next, message) == 0
}

/// Puts the checksum of the message into its checksum field, the two octets at an even place, which
/// count as zero (RFC 4443 section 2.3). The message has at most 65,535 octets, and the other octets
/// stay. O(n).
pub fn fill_sum(src: Addr, dst: Addr, next: u8, message: &mut [u8], place: usize)
    requires even { place % 2 ≡ 0 }
    requires within { place + 2 ≤ length message.old }
    requires short { length message.old ≤ 65535 }
    ensures ok { checksum src dst next message.new ≡ 0 }
    ensures field { message.new
        ≡ with_word_at message.old place
        (checksum src dst next (with_word_at message.old place 0)) }
{
    message[place] = 0;
    message[place + 1] = 0;
    let [high, low] = field_sum(src, dst, next, message, place).to_be_bytes();
    message[place] = high;
    message[place + 1] = low;
}

/// The checksum of a message whose checksum field is zero: the one word with which it is right.
fn field_sum(src: Addr, dst: Addr, next: u8, message: &[u8], place: usize) -> u16
    requires even { place % 2 ≡ 0 }
    requires within { place + 2 ≤ length message.now }
    requires short { length message.now ≤ 65535 }
    requires zero { with_word_at message.now place 0 ≡ message.now }
    ensures value { result ≡ checksum src dst next message.now }
    ensures ok { checksum src dst next (with_word_at message.now place result) ≡ 0 }
{
    sum_of(src, dst, next, message)
}
