//! The line of a frame that is reported.

ghost use Rattle.std.specs.Prelude.{◌≡◌, ◌+◌, ◌≤◌, ◌++◌, [], length, decimal};
ghost use Rattle.arrayvec.specs.ArrayVec.{array_vec_len};
ghost use Rattle.savi_kinds.specs.Ports.{number_of};
ghost use Rattle.audit_run.specs.Violations.{reason_word, violation_line};

use arrayvec::ArrayVec;
use itoa::Buffer;
use savi_kinds::Port;
use v4_snoop::Reason;

/// At least the octets of the longest line, 63: two numbers of at most 20 digits, that of a port of at most 2, a reason of
/// 12, and 9 of the word, the spaces and the line feed.
pub(crate) const LINE_OCTETS: usize = 96;

/// A line, with its line feed.
pub(crate) type Line = ArrayVec<u8, LINE_OCTETS>;

/// The line of a frame in entry `n` of a segment that came in at a port, with the reason for which it is reported.
pub(crate) fn put_violation(segment: u64, n: u64, port: Port, reason: Reason) -> Line
    ensures { result.items ≡ violation_line segment n (number_of port) reason }
{
    let mut line = ArrayVec::new();
    put_number(&mut line, segment, b" ");
    put_number(&mut line, n, b" port ");
    put_number(&mut line, u64::from(port.get()), b" ");
    put_octets(&mut line, word_of(reason).as_bytes());
    put_octets(&mut line, b"\n");
    line
}

// The word of a reason.
fn word_of(reason: Reason) -> &'static str
    ensures word { result.now ≡ reason_word reason }
    ensures short { length result.now ≤ 12 }
{
    match reason {
        Reason::ArpBad => "arp-bad",
        Reason::ArpSource => "arp-source",
        Reason::IpBad => "ip-bad",
        Reason::Server => "server",
        Reason::IpSource => "ip-source",
        Reason::RequestFull => "request-full",
        Reason::PortFull => "port-full",
    }
}

// A number, and octets behind it.
fn put_number(line: &mut Line, n: u64, behind: &[u8])
    requires room { array_vec_len line.old ≤ 56 }
    requires short { length behind.now ≤ 6 }
    ensures text { line.new.items ≡ line.old.items ++ decimal n ++ behind.now }
    ensures size { array_vec_len line.new ≤ array_vec_len line.old + 20 + length behind.now }
{
    let mut digits = Buffer::new();
    put_octets(line, digits.format(n).as_bytes());
    put_octets(line, behind);
}

// Octets for which there is room.
fn put_octets(line: &mut Line, octets: &[u8])
    requires { array_vec_len line.old + length octets.now ≤ 96 }
    ensures text { line.new.items ≡ line.old.items ++ octets.now }
    ensures size { array_vec_len line.new ≡ array_vec_len line.old + length octets.now }
{
    match line.try_extend_from_slice(octets) {
        Ok(()) => {}
        Err(_) => unreachable!(),
    }
}
