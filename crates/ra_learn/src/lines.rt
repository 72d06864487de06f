//! The lines that are printed.

ghost use Rattle.std.specs.Prelude.{◌≡◌, ◌+◌, ◌≤◌, ◌++◌, ◌∷◌, [], length, decimal, vec_capacity};
ghost use Rattle.arrayvec.specs.ArrayVec.{array_vec_len};
ghost use Rattle.savi_kinds.specs.Ports.{number_of};
ghost use Rattle.ra_learn.specs.Printed.{advert_line, guard_line, router_line, link_prefix_line, lost_line, last_line};

use crate::guard::Guard;
use crate::prefixes::LinkPrefix;
use crate::routers::Router;
use arrayvec::ArrayVec;
use itoa::Buffer;
use savi_kinds::{Moment, Port, put_addr};

/// At least the octets of the longest line, 72: that of a prefix, with an address of 39 octets and a moment of 20.
pub const LINE_OCTETS: usize = 96;

/// A line, with its line feed.
pub type Line = ArrayVec<u8, LINE_OCTETS>;

/// The line of a router advertisement: its moment, its port, and whether it passes.
pub fn put_advert(moment: Moment, port: Port, passes: bool) -> Line
    ensures { result.items ≡ advert_line moment (number_of port) passes }
{
    let mut line = ArrayVec::new();
    put_word(&mut line, b"advert");
    put_number(&mut line, moment);
    put_number(&mut line, u64::from(port.get()));
    if passes {
        put_last(&mut line, b"pass");
    } else {
        put_last(&mut line, b"drop");
    }
    line
}

/// The line of a port: its state.
pub fn put_port(port: Port, guard: Guard) -> Line
    ensures { result.items ≡ guard_line (number_of port) guard }
{
    let mut line = ArrayVec::new();
    put_word(&mut line, b"port");
    put_number(&mut line, u64::from(port.get()));
    match guard {
        Guard::Learning => put_last(&mut line, b"learning"),
        Guard::Blocking => put_last(&mut line, b"blocking"),
        Guard::Forwarding => put_last(&mut line, b"forwarding"),
    }
    line
}

/// The line of a router: its address, its port, and the moment before which it stands.
pub fn put_router(router: Router) -> Line
    ensures { result.items ≡ router_line router }
{
    let mut line = ArrayVec::new();
    put_word(&mut line, b"router");
    put_word(&mut line, put_addr(router.source).as_bytes());
    put_number(&mut line, u64::from(router.port.get()));
    put_last_number(&mut line, router.until);
    line
}

/// The line of a prefix: its text, and the moment before which it stands, or `-` where it always does.
pub fn put_prefix(prefix: LinkPrefix) -> Line
    ensures { result.items ≡ link_prefix_line prefix }
{
    let mut line = ArrayVec::new();
    put_word(&mut line, b"prefix");
    put_octets(&mut line, put_addr(prefix.prefix.net).as_bytes());
    put_octets(&mut line, b"/");
    put_number(&mut line, u64::from(prefix.prefix.len));
    match prefix.until {
        Some(until) => put_last_number(&mut line, until),
        None => put_last(&mut line, b"-"),
    }
    line
}

/// The line of how many routers and prefixes found no place.
pub fn put_lost(lost: u64) -> Line
    ensures { result.items ≡ lost_line lost }
{
    let mut line = ArrayVec::new();
    put_word(&mut line, b"lost");
    put_last_number(&mut line, lost);
    line
}

/// The last line.
pub fn put_end() -> Line
    ensures { result.items ≡ last_line }
{
    let mut line = ArrayVec::new();
    put_last(&mut line, b"end");
    line
}

/// Puts a line behind a text that has room for it. O(1).
pub fn push_line(text: &mut Vec<u8>, line: &Line)
    requires { length text.old.items + 96 ≤ vec_capacity text.old }
    ensures items { text.new.items ≡ text.old.items ++ line.now.items }
    ensures len { length text.new.items ≤ length text.old.items + 96 }
    ensures capacity { vec_capacity text.old ≤ vec_capacity text.new }
{
    match text.extend_from_slice(line.as_slice()) {
        Ok(()) => {}
        Err(_) => unreachable!(),
    }
}

// A number, and a space.
fn put_number(line: &mut Line, n: u64)
    requires { array_vec_len line.old ≤ 75 }
    ensures text { line.new.items ≡ line.old.items ++ decimal n ++ 32 ∷ [] }
    ensures size { array_vec_len line.new ≤ array_vec_len line.old + 21 }
{
    let mut digits = Buffer::new();
    put_word(line, digits.format(n).as_bytes());
}

// A number, and a line feed.
fn put_last_number(line: &mut Line, n: u64)
    requires { array_vec_len line.old ≤ 75 }
    ensures { line.new.items ≡ line.old.items ++ decimal n ++ 10 ∷ [] }
{
    let mut digits = Buffer::new();
    put_last(line, digits.format(n).as_bytes());
}

// A word, and a space.
fn put_word(line: &mut Line, word: &[u8])
    requires { array_vec_len line.old + length word.now ≤ 95 }
    ensures text { line.new.items ≡ line.old.items ++ word.now ++ 32 ∷ [] }
    ensures size { array_vec_len line.new ≡ array_vec_len line.old + length word.now + 1 }
{
    put_octets(line, word);
    line.push(b' ');
}

// A word, and a line feed.
fn put_last(line: &mut Line, word: &[u8])
    requires { array_vec_len line.old + length word.now ≤ 95 }
    ensures { line.new.items ≡ line.old.items ++ word.now ++ 10 ∷ [] }
{
    put_octets(line, word);
    line.push(b'\n');
}

// Octets for which there is room.
fn put_octets(line: &mut Line, octets: &[u8])
    requires { array_vec_len line.old + length octets.now ≤ 96 }
    ensures text { line.new.items ≡ line.old.items ++ octets.now }
    ensures size { array_vec_len line.new ≡ array_vec_len line.old + length octets.now }
{
    match line.try_extend_from_slice(octets) {
        Ok(()) => {}
        Err(_) => unreachable!(),
    }
}
