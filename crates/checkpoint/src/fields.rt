//! The fields of a line that no other line has.

ghost use Rattle.std.specs.Prelude.{◌≡◌, ◌+◌, ◌≤◌, ◌<◌, ◌^◌, ◌∷◌, ◌++◌, length, decimal};
ghost use Rattle.arrayvec.specs.ArrayVec.{array_vec_len};
ghost use Rattle.savi_kinds.specs.Characters.{space};
ghost use Rattle.control_replies.specs.Bindings.{until_text};
ghost use Rattle.checkpoint.specs.StateLines.{text_in_vlan, two_text};

use hist_store::{JournalLine, put_number, put_octets, put_word};
use savi_kinds::DEFAULT_VLAN;

// Appends a space and a moment that is a sum of two numbers of 64 bits, which has at most 20 digits.
#[tactic(auto, using(crate::proofs::Digits::twenty_digits))]
pub fn put_sum(into: &mut JournalLine, moment: u128)
    requires small { moment < 2 ^ 65 }
    requires room { array_vec_len into.old + 21 ≤ 3400 }
    ensures text { into.new.items ≡ into.old.items ++ space ∷ decimal moment }
    ensures size { array_vec_len into.new ≤ array_vec_len into.old + 21 }
{
    let mut digits = itoa::Buffer::new();
    put_word(into, digits.format(moment));
}

// Appends a space and a moment, or `-` where there is none.
pub fn put_until(into: &mut JournalLine, until: Option<u64>)
    requires { array_vec_len into.old + 21 ≤ 3400 }
    ensures text { into.new.items ≡ into.old.items ++ space ∷ until_text until }
    ensures size { array_vec_len into.new ≤ array_vec_len into.old + 21 }
{
    match until {
        Some(moment) => put_number(into, moment),
        None => put_word(into, "-"),
    }
}

// Appends a space and whether a second probe is still to come.
pub fn put_two(into: &mut JournalLine, two: bool)
    requires { array_vec_len into.old + 4 ≤ 3400 }
    ensures text { into.new.items ≡ into.old.items ++ space ∷ two_text two }
    ensures size { array_vec_len into.new ≤ array_vec_len into.old + 4 }
{
    put_word(into, if two { "yes" } else { "no" });
}

// Appends a space and a key: the text of an address, and its VLAN where that isn't the first one.
pub fn put_key(into: &mut JournalLine, text: &str, vlan: u16)
    requires { array_vec_len into.old + 7 + length text.now ≤ 3400 }
    ensures text { into.new.items ≡ into.old.items ++ space ∷ text_in_vlan text.now vlan }
    ensures size { array_vec_len into.new ≤ array_vec_len into.old + 7 + length text.now }
{
    put_word(into, text);
    if vlan != DEFAULT_VLAN {
        let mut digits = itoa::Buffer::new();
        into.push(b'@');
        put_octets(into, digits.format(vlan).as_bytes());
    }
}
