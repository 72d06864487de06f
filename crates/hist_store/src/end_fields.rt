ghost use Rattle.std.specs.Prelude.{◌≡◌, ◌+◌, ◌≤◌, [], ◌∷◌, ◌++◌, length, decimal};
ghost use Rattle.arrayvec.specs.ArrayVec.{array_vec_len};
ghost use Rattle.savi_kinds.specs.Characters.{space};
ghost use Rattle.hist_store.specs.TextOfLines.{spaced};
ghost use Rattle.hist_store.specs.EndTexts.{who_text, how_fields};

use crate::journal_line::JournalLine;
use crate::pieces::{put_number, put_octets, put_word};
use crate::port_fields::put_port;
use savi_kinds::{How, Who};

/// Appends a space and a pass.
pub fn put_who(into: &mut JournalLine, who: Who)
    requires { array_vec_len into.old + 8 ≤ 3400 }
    ensures text { into.new.items ≡ into.old.items ++ space ∷ who_text who }
    ensures size { array_vec_len into.new ≤ array_vec_len into.old + 8 }
{
    into.push(b' ');
    match who {
        Who::Ingress(port) => {
            put_octets(into, b"in");
            put_port(into, port);
        }
        Who::Control => put_octets(into, b"control"),
        Who::Ticker => put_octets(into, b"ticker"),
        Who::Egress(port) => {
            put_octets(into, b"out");
            put_port(into, port);
        }
    }
}

/// Appends the fields of a reason, each with a space in front.
pub fn put_how(into: &mut JournalLine, how: How)
    requires { array_vec_len into.old + 31 ≤ 3400 }
    ensures text { into.new.items ≡ into.old.items ++ spaced (how_fields how) }
    ensures size { array_vec_len into.new ≤ array_vec_len into.old + 31 }
{
    match how {
        How::End => put_word(into, "end"),
        How::Quit => put_word(into, "quit"),
        How::Malformed(at) => put_named(into, "malformed", at),
        How::Overlong(at) => put_named(into, "overlong", at),
        How::Failed => put_word(into, "failed"),
        How::Unwritten => put_word(into, "unwritten"),
        How::Paused => put_word(into, "paused"),
    }
}

// Appends a word and a number, each with a space in front.
fn put_named(into: &mut JournalLine, name: &str, value: u64)
    requires { array_vec_len into.old + 22 + length name.now ≤ 3400 }
    ensures text { into.new.items ≡ into.old.items ++ spaced (name.now ∷ decimal value ∷ []) }
    ensures size { array_vec_len into.new ≤ array_vec_len into.old + 22 + length name.now }
{
    put_word(into, name);
    put_number(into, value);
}
