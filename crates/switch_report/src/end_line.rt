//! The lines on standard error for the ends of which an operator has to know.

ghost use Rattle.std.specs.Prelude.{◌≡◌, ◌≤◌, ◌+◌, ◌++◌, [], length, codes, decimal};
ghost use Rattle.arrayvec.specs.ArrayVec.{array_vec_len};
ghost use Rattle.savi_history.specs.EndLines.{where_text, failed_text, end_line, end_line_of};

use arrayvec::ArrayVec;
use itoa::Buffer;
use savi_kinds::{How, Port, Who};

/// The octets of the longest line of an end: `port 16`, a colon and a space, `overlong line at `, a number of 20 digits
/// and the line feed.
pub const END_LINE_OCTETS: usize = 47;

/// A buffer for a line of an end.
pub type EndLine = ArrayVec<u8, END_LINE_OCTETS>;

/// Writes the line of an end into an empty buffer: nothing for an ordinary end, one by `quit` or a pause.
pub fn put_end_line(into: &mut EndLine, who: Who, how: How)
    requires { into.old.items ≡ [] }
    ensures { into.new.items ≡ end_line who how }
{
    match how {
        How::End | How::Quit | How::Paused => {}
        How::Malformed(at) => put_counted(into, who, "malformed at ", at),
        How::Overlong(at) => put_counted(into, who, "overlong line at ", at),
        How::Failed => put_what(into, who, failed_words(who)),
        How::Unwritten => put_what(into, who, "write failed"),
    }
}

// Writes a line of what happened and a number.
fn put_counted(into: &mut EndLine, who: Who, what: &str, count: u64)
    requires empty { into.old.items ≡ [] }
    requires short { length what.now ≤ 17 }
    ensures { into.new.items ≡ end_line_of who (what.now ++ decimal count) }
{
    put_who(into, who);
    put_octets(into, what.as_bytes());
    put_number(into, count);
    into.push(b'\n');
}

// Writes a line of what happened.
fn put_what(into: &mut EndLine, who: Who, what: &str)
    requires empty { into.old.items ≡ [] }
    requires short { length what.now ≤ 17 }
    ensures { into.new.items ≡ end_line_of who what.now }
{
    put_who(into, who);
    put_octets(into, what.as_bytes());
    into.push(b'\n');
}

// Writes whose end it is, a colon and a space.
fn put_who(into: &mut EndLine, who: Who)
    requires { into.old.items ≡ [] }
    ensures text { into.new.items ≡ where_text who ++ codes ": " }
    ensures size { array_vec_len into.new ≤ 9 }
{
    match who {
        Who::Ingress(port) | Who::Egress(port) => put_port(into, port),
        Who::Control => put_octets(into, b"control"),
        Who::Ticker => put_octets(into, b"ticker"),
    }
    put_octets(into, b": ");
}

// Writes a port, whose number has at most two digits.
fn put_port(into: &mut EndLine, port: Port)
    requires { into.old.items ≡ [] }
    ensures text { into.new.items ≡ where_text (Who.Ingress port) }
    ensures size { array_vec_len into.new ≤ 7 }
{
    put_octets(into, b"port ");
    put_number(into, u64::from(port.get()));
}

// What failed, by whose end it is.
fn failed_words(who: Who) -> &'static str
    ensures text { result.now ≡ failed_text who }
    ensures short { length result.now ≤ 12 }
{
    match who {
        Who::Ingress(_) | Who::Control | Who::Ticker => "read failed",
        Who::Egress(_) => "write failed",
    }
}

// Writes a number for which there is room.
fn put_number(into: &mut EndLine, n: u64)
    requires { array_vec_len into.old + length (decimal n) ≤ 47 }
    ensures text { into.new.items ≡ into.old.items ++ decimal n }
    ensures size { array_vec_len into.new ≡ array_vec_len into.old + length (decimal n) }
{
    let mut digits = Buffer::new();
    put_octets(into, digits.format(n).as_bytes());
}

// Writes octets for which there is room.
fn put_octets(into: &mut EndLine, octets: &[u8])
    requires { array_vec_len into.old + length octets.now ≤ 47 }
    ensures text { into.new.items ≡ into.old.items ++ octets.now }
    ensures size { array_vec_len into.new ≡ array_vec_len into.old + length octets.now }
{
    match into.try_extend_from_slice(octets) {
        Ok(()) => {}
        Err(_) => unreachable!(),
    }
}
