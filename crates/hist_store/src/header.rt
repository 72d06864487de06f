ghost use Rattle.std.specs.Prelude.{◌≡◌, ◌+◌, ◌*◌, ◌≤◌, [], ◌∷◌, ◌++◌, All, decimal, length, map};
ghost use Rattle.arrayvec.specs.ArrayVec.{array_vec_len};
ghost use Rattle.savi_kinds.specs.Characters.{space};
ghost use Rattle.savi_kinds.specs.ValidPlan.{HasPlanVlans, IsValidPlan};
ghost use Rattle.savi_kinds.specs.Vlans.{IsVlan};
ghost use Rattle.hist_store.specs.TextOfLines.{lines_text};
ghost use Rattle.hist_store.specs.declared.version.Version.TheVariants.{Two};
ghost use Rattle.hist_store.specs.JournalTexts.{address_text, journal_begin_text, journal_end_text, journal_header_text, limit_lines, journal_port_fields, prefix_fields, prefix_text_by, setting, time_lines, word_lines};

use crate::journal_line::JournalLine;
use crate::pieces::{put_decimal, put_octets, put_word};
use crate::port_fields::put_port_field;
use crate::vlan_fields::{put_port_vlans, put_vlan};
use savi_kinds::{Addr, Plan, PortPlan, PrefixPlan, put_addr, put_mac, savi_word, unknown_word};

/// Writes the journal's header, in place of what the buffer held: `savi-journal 2` and the lines of the plan, each with its
/// line feed. The addresses are written after RFC 5952.
///
/// The lines of a plan within the limits fit: 152 octets of settings, 69 for each of 16 ports and 67 for each of 32 prefixes are
/// 3,400.
pub fn put_header(plan: &Plan, into: &mut JournalLine)
    requires { IsValidPlan plan.now }
    ensures { into.new.items ≡ journal_header_text address_text plan.now }
{
    into.clear();
    put_word_lines(into, plan);
    put_limit_lines(into, plan);
    put_time_lines(into, plan);
    put_port_lines(into, plan.ports.as_slice());
    put_prefix_lines(into, plan.prefixes.as_slice());
}

/// Writes the line behind which the entries of a segment stand, in place of what the buffer held. It has its line feed. O(1).
pub fn put_begin(into: &mut JournalLine)
    ensures { into.new.items ≡ journal_begin_text }
{
    into.clear();
    put_octets(into, b"begin\n");
}

/// Writes the last line of a segment, in place of what the buffer held: how many entries it has. It has its line feed. O(1).
pub fn put_end(count: u64, into: &mut JournalLine)
    ensures { into.new.items ≡ journal_end_text count }
{
    into.clear();
    put_setting(into, "end", count);
}

// Appends the lines whose values are words.
fn put_word_lines(into: &mut JournalLine, plan: &Plan)
    requires { array_vec_len into.old + 59 ≤ 3400 }
    ensures text { into.new.items ≡ into.old.items ++ lines_text (word_lines Two plan.now) }
    ensures size { array_vec_len into.new ≤ array_vec_len into.old + 59 }
{
    let mac = put_mac(plan.mac);
    put_octets(into, b"savi-journal 2\n");
    put_word_line(into, "mac", mac.as_str());
    put_word_line(into, "savi", savi_word(plan.savi));
    put_word_line(into, "unknown", unknown_word(plan.drop_unknown));
}

// Appends the lines whose values are limits.
#[tactic(auto, using(crate::proofs::HeaderSizes::limit_digits))]
fn put_limit_lines(into: &mut JournalLine, plan: &Plan)
    requires valid { IsValidPlan plan.now }
    requires room { array_vec_len into.old + 55 ≤ 3400 }
    ensures text { into.new.items ≡ into.old.items ++ lines_text (limit_lines plan.now) }
    ensures size { array_vec_len into.new ≤ array_vec_len into.old + 55 }
{
    put_setting(into, "per_port", u64::from(plan.per_port));
    put_setting(into, "depth", u64::from(plan.depth));
    put_setting(into, "entries", plan.entries);
    put_setting(into, "bytes", plan.bytes);
}

// Appends the lines whose values are times, in ms.
#[tactic(auto, using(crate::proofs::HeaderSizes::time_digits))]
fn put_time_lines(into: &mut JournalLine, plan: &Plan)
    requires valid { IsValidPlan plan.now }
    requires room { array_vec_len into.old + 38 ≤ 3400 }
    ensures text { into.new.items ≡ into.old.items ++ lines_text (time_lines plan.now) }
    ensures size { array_vec_len into.new ≤ array_vec_len into.old + 38 }
{
    put_setting(into, "gap", plan.gap);
    put_setting(into, "test", plan.test);
    put_setting(into, "binding", plan.life);
}

// Appends a line for each port.
fn put_port_lines(into: &mut JournalLine, ports: &[PortPlan])
    requires vlans { All HasPlanVlans ports.now }
    requires room { array_vec_len into.old + 69 * length ports.now ≤ 3400 }
    ensures text { into.new.items ≡ into.old.items ++ lines_text (map journal_port_fields ports.now) }
    ensures size { array_vec_len into.new ≤ array_vec_len into.old + 69 * length ports.now }
{
    for port in ports {
        put_port_line(into, port);
    }
}

// Appends the line of a port.
fn put_port_line(into: &mut JournalLine, port: &PortPlan)
    requires vlans { HasPlanVlans port.now }
    requires room { array_vec_len into.old + 69 ≤ 3400 }
    ensures text { into.new.items ≡ into.old.items ++ lines_text (journal_port_fields port.now ∷ []) }
    ensures size { array_vec_len into.new ≤ array_vec_len into.old + 69 }
{
    put_octets(into, b"port");
    put_port_field(into, port.number);
    put_word(into, port.role.word());
    put_word(into, port.format.word());
    put_port_vlans(into, &port.vlan);
    into.push(b'\n');
}

// Appends a line for each prefix.
fn put_prefix_lines(into: &mut JournalLine, prefixes: &[PrefixPlan])
    requires vlans { All (λ p. IsVlan p.vlan) prefixes.now }
    requires room { array_vec_len into.old + 67 * length prefixes.now ≤ 3400 }
    ensures text { into.new.items ≡ into.old.items ++ lines_text (map (prefix_fields address_text) prefixes.now) }
    ensures size { array_vec_len into.new ≤ array_vec_len into.old + 67 * length prefixes.now }
{
    for prefix in prefixes {
        put_prefix_line(into, prefix);
    }
}

// Appends the line of a prefix.
fn put_prefix_line(into: &mut JournalLine, prefix: &PrefixPlan)
    requires vlan { IsVlan prefix.now.vlan }
    requires room { array_vec_len into.old + 67 ≤ 3400 }
    ensures text { into.new.items ≡ into.old.items ++ lines_text (prefix_fields address_text prefix.now ∷ []) }
    ensures size { array_vec_len into.new ≤ array_vec_len into.old + 67 }
{
    put_octets(into, b"prefix");
    put_prefix(into, prefix.prefix.net, prefix.prefix.len);
    put_word(into, prefix.method.word());
    put_vlan(into, prefix.vlan);
    into.push(b'\n');
}

// Appends a space and a prefix: an address of at most 39 octets, '/' and at most three digits.
fn put_prefix(into: &mut JournalLine, net: Addr, len: u8)
    requires { array_vec_len into.old + 44 ≤ 3400 }
    ensures text { into.new.items ≡ into.old.items ++ space ∷ prefix_text_by address_text (record { net = net; len = len }) }
    ensures size { array_vec_len into.new ≤ array_vec_len into.old + 44 }
{
    let address = put_addr(net);
    put_word(into, address.as_str());
    into.push(b'/');
    put_decimal(into, u64::from(len));
}

// Appends a line of a name and a number.
fn put_setting(into: &mut JournalLine, name: &str, value: u64)
    requires { array_vec_len into.old + length name.now + length (decimal value) + 2 ≤ 3400 }
    ensures text { into.new.items ≡ into.old.items ++ lines_text (setting name.now value ∷ []) }
    ensures size { array_vec_len into.new ≡ array_vec_len into.old + length name.now + length (decimal value) + 2 }
{
    put_octets(into, name.as_bytes());
    into.push(b' ');
    put_decimal(into, value);
    into.push(b'\n');
}

// Appends a line of a name and a word.
fn put_word_line(into: &mut JournalLine, name: &str, word: &str)
    requires { array_vec_len into.old + length name.now + length word.now + 2 ≤ 3400 }
    ensures text { into.new.items ≡ into.old.items ++ lines_text ((name.now ∷ word.now ∷ []) ∷ []) }
    ensures size { array_vec_len into.new ≡ array_vec_len into.old + length name.now + length word.now + 2 }
{
    put_octets(into, name.as_bytes());
    put_word(into, word);
    into.push(b'\n');
}
