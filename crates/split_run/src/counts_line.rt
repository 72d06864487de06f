//! The line of what was counted.

ghost use Rattle.std.specs.Prelude.{◌≡◌, ◌≤◌, ◌+◌, ◌++◌, length, decimal};
ghost use Rattle.arrayvec.specs.ArrayVec.{array_vec_len};
ghost use Rattle.split_run.specs.CountsLines.{counts_line};

use arrayvec::ArrayVec;
use itoa::Buffer;
use pcap_split::Counts;

/// The octets of the longest line: 34 of words and spaces, four numbers of at most 20 digits, and the line feed.
pub const COUNTS_LINE_OCTETS: usize = 115;

/// A line of what was counted, with its line feed.
pub type CountsLine = ArrayVec<u8, COUNTS_LINE_OCTETS>;

/// The line of what was counted: `interfaces I frames F long L skipped S`.
pub fn put_counts(counts: Counts) -> CountsLine
    ensures { result.items ≡ counts_line counts }
{
    let mut line = ArrayVec::new();
    put_counted(&mut line, "interfaces ", counts.interfaces);
    put_counted(&mut line, " frames ", counts.frames);
    put_counted(&mut line, " long ", counts.long);
    put_counted(&mut line, " skipped ", counts.skipped);
    line.push(b'\n');
    line
}

// Adds words and a number for which there is room.
fn put_counted(line: &mut CountsLine, words: &str, count: u64)
    requires { array_vec_len line.old + length words.now + 20 ≤ 115 }
    ensures text { line.new.items ≡ line.old.items ++ (words.now ++ decimal count) }
    ensures size { array_vec_len line.new ≤ array_vec_len line.old + length words.now + 20 }
{
    let mut digits = Buffer::new();
    put_octets(line, words.as_bytes());
    put_octets(line, digits.format(count).as_bytes());
}

// Adds octets for which there is room.
fn put_octets(line: &mut CountsLine, octets: &[u8])
    requires { array_vec_len line.old + length octets.now ≤ 115 }
    ensures text { line.new.items ≡ line.old.items ++ octets.now }
    ensures size { array_vec_len line.new ≡ array_vec_len line.old + length octets.now }
{
    match line.try_extend_from_slice(octets) {
        Ok(()) => {}
        Err(_) => unreachable!(),
    }
}
