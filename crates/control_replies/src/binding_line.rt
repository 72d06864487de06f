//! The line of a binding.

ghost use Rattle.std.specs.Prelude.{◌≡◌, ◌+◌, ◌≤◌, ◌<◌, ◌^◌, ◌∷◌, [], ◌++◌, length, IfSome};
ghost use Rattle.arrayvec.specs.ArrayVec.{array_vec_len};
ghost use Rattle.savi_kinds.specs.Characters.{space};
ghost use Rattle.hist_store.specs.TextOfLines.{lines_text};
ghost use Rattle.control_replies.specs.Bindings.{binding_fields, claimant_text, until_text};

use crate::line::{Line, put_octets, put_port, put_word};
use savi_kinds::{Addr, Port, put_key};

/// The line of a binding in a VLAN, with its line feed: `state` is the word for its state, `until` the moment (ms) at which it
/// ends, a sum of at most two numbers of 64 bits.
pub fn binding_line(
    vlan: u16,
    address: Addr,
    port: Port,
    state: &str,
    claimant: Option<Port>,
    until: Option<u128>,
) -> Line
    requires vlan { vlan ≤ 4094 }
    requires short { length state.now ≤ 10 }
    requires moment { IfSome until (λ moment. moment < 2 ^ 65) }
    ensures text { result.items ≡ lines_text (binding_fields vlan address port state.now claimant until ∷ []) }
    ensures size { array_vec_len result ≤ 83 }
{
    let text = put_key(vlan, address);
    let mut line = Line::new();
    put_octets(&mut line, text.as_bytes());
    put_port(&mut line, port);
    put_word(&mut line, state);
    put_claimant(&mut line, claimant);
    put_until(&mut line, until);
    line.push(b'\n');
    line
}

// Appends a space and a claimant.
fn put_claimant(into: &mut Line, claimant: Option<Port>)
    requires { array_vec_len into.old + 3 ≤ 96 }
    ensures text { into.new.items ≡ into.old.items ++ space ∷ claimant_text claimant }
    ensures size { array_vec_len into.new ≤ array_vec_len into.old + 3 }
{
    match claimant {
        Some(port) => put_port(into, port),
        None => put_word(into, "-"),
    }
}

// Appends a space and a moment, which has at most 20 digits.
#[tactic(auto, using(crate::proofs::Lines::twenty_digits))]
fn put_until(into: &mut Line, until: Option<u128>)
    requires room { array_vec_len into.old + 21 ≤ 96 }
    requires moment { IfSome until (λ moment. moment < 2 ^ 65) }
    ensures text { into.new.items ≡ into.old.items ++ space ∷ until_text until }
    ensures size { array_vec_len into.new ≤ array_vec_len into.old + 21 }
{
    match until {
        Some(moment) => {
            let mut digits = itoa::Buffer::new();
            put_word(into, digits.format(moment));
        }
        None => put_word(into, "-"),
    }
}
