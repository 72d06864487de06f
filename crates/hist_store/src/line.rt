ghost use Rattle.std.specs.Prelude.{◌≡◌, ◌+◌, ◌<◌, ◌≤◌, ◌++◌, length};
ghost use Rattle.arrayvec.specs.ArrayVec.{array_vec_len};
ghost use Rattle.savi_kinds.specs.declared.entry.Act.TheVariants.{Frame};
ghost use Rattle.hist_store.specs.TextOfLines.{spaced};
ghost use Rattle.hist_store.specs.LineTexts.{FitsAct, FitsLine, act_fields, line_text, probe_fields};

use crate::end_fields::{put_how, put_who};
use crate::journal_line::JournalLine;
use crate::pieces::{put_decimal, put_hex, put_number, put_word};
use crate::port_fields::{put_port_field, put_ports};
use crate::verdict_fields::put_entry_verdict;
use savi_kinds::{Act, Entry, Port};

/// Writes the journal's line of the entry with this number, in place of what the buffer held. The line is
/// without its line feed, for which there is room.
///
/// The entry has a verdict exactly where it is a frame or a long frame; what its line lacks is empty or 0; an
/// end has a reason of its kind. A frame and a command have as many octets as their `len` says, which is at most 1,518
/// for a frame and 120 for a command; every other entry has none. One pass over the octets.
pub fn put_line(n: u64, e: &Entry, octets: &[u8], into: &mut JournalLine)
    requires { FitsLine (record { entry = e.now; octets = octets.now }) }
    ensures text { into.new.items ≡ line_text n (record { entry = e.now; octets = octets.now }) }
    ensures room { array_vec_len into.new < 3400 }
{
    into.clear();
    put_decimal(into, n);
    put_number(into, u64::from(e.by));
    put_number(into, e.moment);
    put_act(into, e, octets);
}

// Appends the fields of an entry's act, each with a space in front.
fn put_act(into: &mut JournalLine, e: &Entry, octets: &[u8])
    requires room { array_vec_len into.old + 3300 ≤ 3400 }
    requires fits { FitsAct e.now octets.now e.now.act }
    ensures text { into.new.items ≡ into.old.items ++ spaced (act_fields e.now octets.now e.now.act) }
    ensures size { array_vec_len into.new ≤ array_vec_len into.old + 3300 }
{
    match e.act {
        Act::Frame { port, stamp, .. } => put_frame(into, e, port, stamp, octets),
        Act::Long { port, stamp, len } => {
            put_word(into, "L");
            put_port_field(into, port);
            put_number(into, stamp);
            put_number(into, u64::from(len));
            put_entry_verdict(into, e.verdict);
            put_probes(into, e);
        }
        Act::Tick { stamp } => {
            put_word(into, "T");
            put_number(into, stamp);
            put_probes(into, e);
        }
        Act::Command { stamp, .. } => {
            put_word(into, "C");
            put_number(into, stamp);
            put_hex(into, octets);
            put_probes(into, e);
        }
        Act::Drain { port, count } => {
            put_word(into, "D");
            put_port_field(into, port);
            put_number(into, u64::from(count));
        }
        Act::End { who, how } => {
            put_word(into, "E");
            put_who(into, who);
            put_how(into, how);
        }
    }
}

// Appends the fields of a frame, each with a space in front. Neither the place of its octets nor their count is a field.
fn put_frame(into: &mut JournalLine, e: &Entry, port: Port, stamp: u64, octets: &[u8])
    requires room { array_vec_len into.old + 3300 ≤ 3400 }
    requires short { length octets.now ≤ 1518 }
    ensures text { into.new.items ≡ into.old.items ++ spaced (act_fields e.now octets.now (Frame port stamp 0 0)) }
    ensures size { array_vec_len into.new ≤ array_vec_len into.old + 3300 }
{
    put_word(into, "F");
    put_port_field(into, port);
    put_number(into, stamp);
    put_hex(into, octets);
    put_entry_verdict(into, e.verdict);
    put_ports(into, e.outs);
    put_ports(into, e.cuts);
    put_probes(into, e);
}

// Appends how many probes were queued and how many left out, each with a space in front.
fn put_probes(into: &mut JournalLine, e: &Entry)
    requires { array_vec_len into.old + 42 ≤ 3400 }
    ensures text { into.new.items ≡ into.old.items ++ spaced (probe_fields e.now) }
    ensures size { array_vec_len into.new ≤ array_vec_len into.old + 42 }
{
    put_number(into, u64::from(e.probes));
    put_number(into, u64::from(e.lost));
}
