//! The lines of standard output that say what the text of a journal is, and what its audit has counted.

ghost use Rattle.std.specs.Prelude.{◌≡◌, ◌≤◌, ◌+◌, ◌++◌, [], length, decimal};
ghost use Rattle.arrayvec.specs.ArrayVec.{array_vec_len};
ghost use Rattle.switch_report.specs.CheckLines.{audited_line, bad_line, good_line, wrong_line};

use arrayvec::ArrayVec;
use itoa::Buffer;

/// The most octets of a field's text in a line of a check.
pub const FIELD_TEXT_OCTETS: usize = 64;

/// At least the octets of the longest line of a check, 177: 28 of words, a number of at most 20 digits, two texts and the
/// line feed.
pub const CHECK_LINE_OCTETS: usize = 256;

/// A line of a check, with its line feed.
pub type CheckLine = ArrayVec<u8, CHECK_LINE_OCTETS>;

/// The line of the journal of a history with so many entries.
pub fn put_good(entries: u64) -> CheckLine
    ensures { result.items ≡ good_line entries }
{
    let mut line = ArrayVec::new();
    put_counted(&mut line, "good: ", entries);
    put_octets(&mut line, b" entries");
    line.push(b'\n');
    line
}

/// The line of a journal whose entry of this number has one text where there would be another.
pub fn put_wrong(entry: u64, want: &str, have: &str) -> CheckLine
    requires want { length want.now ≤ 64 }
    requires have { length have.now ≤ 64 }
    ensures { result.items ≡ wrong_line entry want.now have.now }
{
    let mut line = ArrayVec::new();
    put_counted(&mut line, "wrong at entry ", entry);
    put_octets(&mut line, b": want ");
    put_octets(&mut line, want.as_bytes());
    put_octets(&mut line, b" have ");
    put_octets(&mut line, have.as_bytes());
    line.push(b'\n');
    line
}

/// The line of a journal whose line of this number may not stand where it does.
pub fn put_bad_line(n: u64) -> CheckLine
    ensures { result.items ≡ bad_line n }
{
    let mut line = ArrayVec::new();
    put_counted(&mut line, "bad line ", n);
    line.push(b'\n');
    line
}

/// The line of the audit of the journal of a history with so many entries: how many frames of IPv4 and ARP passed, and how
/// many frames are reported.
pub fn put_audited(entries: u64, frames: u64, violations: u64) -> CheckLine
    ensures { result.items ≡ audited_line entries frames violations }
{
    let mut line = ArrayVec::new();
    put_counted(&mut line, "audited ", entries);
    put_further(&mut line, " frames ", frames);
    put_further(&mut line, " violations ", violations);
    line.push(b'\n');
    line
}

// Begins a line with words and a number.
fn put_counted(line: &mut CheckLine, words: &str, count: u64)
    requires empty { line.old.items ≡ [] }
    requires short { length words.now ≤ 15 }
    ensures text { line.new.items ≡ words.now ++ decimal count }
    ensures size { array_vec_len line.new ≤ length words.now + 20 }
{
    let mut digits = Buffer::new();
    put_octets(line, words.as_bytes());
    put_octets(line, digits.format(count).as_bytes());
}

// Goes on with words and a number.
fn put_further(line: &mut CheckLine, words: &str, count: u64)
    requires room { array_vec_len line.old ≤ 100 }
    requires short { length words.now ≤ 15 }
    ensures text { line.new.items ≡ line.old.items ++ words.now ++ decimal count }
    ensures size { array_vec_len line.new ≤ array_vec_len line.old + length words.now + 20 }
{
    let mut digits = Buffer::new();
    put_octets(line, words.as_bytes());
    put_octets(line, digits.format(count).as_bytes());
}

// Writes octets for which there is room.
fn put_octets(line: &mut CheckLine, octets: &[u8])
    requires { array_vec_len line.old + length octets.now ≤ 256 }
    ensures text { line.new.items ≡ line.old.items ++ octets.now }
    ensures size { array_vec_len line.new ≡ array_vec_len line.old + length octets.now }
{
    match line.try_extend_from_slice(octets) {
        Ok(()) => {}
        Err(_) => unreachable!(),
    }
}
