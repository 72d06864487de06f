//! The first lines of a base: its moment, the ports that are shut, and the counts.

ghost use Rattle.std.specs.Prelude.{◌≡◌, ◌<◌, ◌≤◌, [], ◌∷◌, Some, codes, decimal, length, slice_get, map};
ghost use Rattle.hist_store.specs.TextOfLines.{joined};
ghost use Rattle.hist_store.specs.PortTexts.{members_text};
ghost use Rattle.checkpoint.specs.BaseLines.{count_lines, counter_name};

use control_replies::Counts;
use hist_store::{JournalLine, RULES, name_of, put_number, put_octets, put_ports, put_word};
use savi_kinds::{Moment, PortSet};

// Writes the line of the moment into an empty buffer.
pub fn put_moment(into: &mut JournalLine, moment: Moment)
    requires { into.old.items ≡ [] }
    ensures { into.new.items ≡ joined (codes "moment" ∷ decimal moment ∷ []) }
{
    put_octets(into, b"moment");
    put_number(into, moment);
}

// Writes the line of the ports that are shut into an empty buffer.
pub fn put_shut(into: &mut JournalLine, shut: PortSet)
    requires { into.old.items ≡ [] }
    ensures { into.new.items ≡ joined (codes "shut" ∷ members_text shut ∷ []) }
{
    put_octets(into, b"shut");
    put_ports(into, shut);
}

// Writes the line of the i-th counter into an empty buffer.
pub fn put_count(into: &mut JournalLine, counts: &Counts, i: u32)
    requires empty { into.old.items ≡ [] }
    requires within { i < 27 }
    ensures { Some into.new.items ≡ slice_get (map joined (count_lines counts.now)) i }
{
    put_octets(into, b"count");
    put_word(into, counter_name(i));
    put_number(into, counts.at(i));
}

// The name of the i-th counter.
fn counter_name(i: u32) -> &'static str
    requires { i < 27 }
    ensures name { result.now ≡ counter_name i }
    ensures short { length result.now ≤ 17 }
{
    match i {
        23 => "Pass",
        24 => "Cut",
        25 => "Probes",
        26 => "Lost",
        _ => name_of(RULES[i as usize]),
    }
}
