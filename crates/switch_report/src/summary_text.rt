//! The summary's line.

ghost use Rattle.std.specs.Prelude.{◌≡◌, ◌≤◌, ◌+◌, ◌++◌, length, codes, decimal};
ghost use Rattle.arrayvec.specs.ArrayVec.{array_vec_len};
ghost use Rattle.savi_history.specs.Summary.{summary_text};
ghost use Rattle.switch_report.specs.Sums.{sum_of};

use crate::summary::Summary;
use arrayvec::ArrayVec;
use itoa::Buffer;

/// At least the octets of the longest line of a summary, 193: seven words, and seven numbers of at most 20 digits.
pub const SUMMARY_OCTETS: usize = 256;

/// The line of a summary, with its line feed.
pub fn put_summary(summary: Summary) -> ArrayVec<u8, SUMMARY_OCTETS>
    ensures { result.items ≡ summary_text (sum_of summary) }
{
    let mut line = ArrayVec::new();
    put_count(&mut line, "entries ", summary.entries);
    put_count(&mut line, " frames ", summary.frames);
    put_count(&mut line, " passed ", summary.passed);
    put_count(&mut line, " dropped ", summary.dropped);
    put_count(&mut line, " probes ", summary.probes);
    put_count(&mut line, " lost ", summary.lost);
    put_count(&mut line, " cut ", summary.cut);
    line.push(b'\n');
    line
}

// Writes a name and a number.
fn put_count(line: &mut ArrayVec<u8, SUMMARY_OCTETS>, name: &str, count: u64)
    requires { array_vec_len line.old + length name.now + 20 ≤ 256 }
    ensures text { line.new.items ≡ line.old.items ++ (name.now ++ decimal count) }
    ensures size { array_vec_len line.new ≤ array_vec_len line.old + length name.now + 20 }
{
    let mut digits = Buffer::new();
    put_octets(line, name.as_bytes());
    put_octets(line, digits.format(count).as_bytes());
}

// Writes octets for which there is room.
fn put_octets(line: &mut ArrayVec<u8, SUMMARY_OCTETS>, octets: &[u8])
    requires { array_vec_len line.old + length octets.now ≤ 256 }
    ensures text { line.new.items ≡ line.old.items ++ octets.now }
    ensures size { array_vec_len line.new ≡ array_vec_len line.old + length octets.now }
{
    match line.try_extend_from_slice(octets) {
        Ok(()) => {}
        Err(_) => unreachable!(),
    }
}
