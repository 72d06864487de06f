//! A line of a reply, field by field.

ghost use Rattle.std.specs.Prelude.{◌≡◌, ◌+◌, ◌≤◌, ◌<◌, ◌^◌, ◌∷◌, ◌++◌, length, decimal};
ghost use Rattle.arrayvec.specs.ArrayVec.{array_vec_len};
ghost use Rattle.savi_kinds.specs.Characters.{space};
ghost use Rattle.hist_store.specs.PortTexts.{port_text};

use arrayvec::ArrayVec;
use savi_kinds::Port;

/// At least the octets of the longest line, 83, which is that of a binding.
pub const LINE_OCTETS: usize = 96;

/// A buffer for one line.
pub type Line = ArrayVec<u8, LINE_OCTETS>;

// Appends octets.
pub fn put_octets(into: &mut Line, octets: &[u8])
    requires { array_vec_len into.old + length octets.now ≤ 96 }
    ensures text { into.new.items ≡ into.old.items ++ octets.now }
    ensures size { array_vec_len into.new ≡ array_vec_len into.old + length octets.now }
{
    match into.try_extend_from_slice(octets) {
        Ok(()) => {}
        Err(_) => unreachable!(),
    }
}

// Appends a space and a word.
pub fn put_word(into: &mut Line, word: &str)
    requires { array_vec_len into.old + 1 + length word.now ≤ 96 }
    ensures text { into.new.items ≡ into.old.items ++ space ∷ word.now }
    ensures size { array_vec_len into.new ≡ array_vec_len into.old + 1 + length word.now }
{
    into.push(b' ');
    put_octets(into, word.as_bytes());
}

// Appends a space and a number, which has at most 20 digits.
pub fn put_number(into: &mut Line, n: u64)
    requires { array_vec_len into.old + 21 ≤ 96 }
    ensures text { into.new.items ≡ into.old.items ++ space ∷ decimal n }
    ensures size { array_vec_len into.new ≤ array_vec_len into.old + 21 }
{
    let mut digits = itoa::Buffer::new();
    put_word(into, digits.format(n));
}

// Appends a space and the moment (ms) at which a station ends, which has at most 19 digits.
#[tactic(auto, using(crate::proofs::Lines::nineteen_digits))]
pub fn put_moment(into: &mut Line, moment: u64)
    requires moment { moment < 2 ^ 63 }
    requires room { array_vec_len into.old + 20 ≤ 96 }
    ensures text { into.new.items ≡ into.old.items ++ space ∷ decimal moment }
    ensures size { array_vec_len into.new ≤ array_vec_len into.old + 20 }
{
    let mut digits = itoa::Buffer::new();
    put_word(into, digits.format(moment));
}

// Appends a space and a port's number.
pub fn put_port(into: &mut Line, port: Port)
    requires { array_vec_len into.old + 3 ≤ 96 }
    ensures text { into.new.items ≡ into.old.items ++ space ∷ port_text port }
    ensures size { array_vec_len into.new ≤ array_vec_len into.old + 3 }
{
    into.push(b' ');
    put_port_number(into, port);
}

// Appends a port's number, which has at most two digits.
#[tactic(auto, using(crate::proofs::Lines::two_digits))]
pub fn put_port_number(into: &mut Line, port: Port)
    requires { array_vec_len into.old + 2 ≤ 96 }
    ensures text { into.new.items ≡ into.old.items ++ port_text port }
    ensures size { array_vec_len into.new ≤ array_vec_len into.old + 2 }
{
    let mut digits = itoa::Buffer::new();
    put_octets(into, digits.format(port.get()).as_bytes());
}
