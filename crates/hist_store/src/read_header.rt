//! The lines of a journal's header, and those around the entries of a segment, read one by one.
//!
//! Each reader takes exactly the lines that are printed, in their one spelling: whose value would be printed otherwise, as
//! a MAC address in upper case, is none. The order of the lines is the caller's to keep, but for that of ports and prefixes;
//! so is which of them a plan may have, as that a trunk is a trusted port.

ghost use Rattle.std.specs.Prelude.{IsTrue, ◌↔◌, ◌≡◌, ◌^◌, ◌<◌, ◌≤◌, [], ◌∷◌, ◌++◌, ℕ, Bool, List, codes, decimal, Option, Some, IfSome, IsSomeAnd};
ghost use Rattle.savi_kinds.specs.declared.address.Mac.{Mac};
ghost use Rattle.savi_kinds.specs.declared.address.Prefix.{Prefix};
ghost use Rattle.savi_kinds.specs.declared.plan.Role.{Role};
ghost use Rattle.savi_kinds.specs.declared.plan.Method.{Method};
ghost use Rattle.savi_kinds.specs.declared.plan.Format.{Format};
ghost use Rattle.savi_kinds.specs.declared.plan.PrefixPlan.{PrefixPlan};
ghost use Rattle.savi_kinds.specs.declared.plan.Vlan.{Vlan};
ghost use Rattle.savi_kinds.specs.declared.port.Port.{Port};
ghost use Rattle.savi_kinds.specs.MacText.{HasSixOctets};
ghost use Rattle.savi_kinds.specs.Prefixes.{IsPrefix, first_of, past_of};
ghost use Rattle.savi_kinds.specs.PlanWords.{role_word, method_word, format_word};
ghost use Rattle.savi_kinds.specs.ValidPlan.{StandsBefore};
ghost use Rattle.savi_kinds.specs.Vlans.{IsVlan};
ghost use Rattle.hist_store.specs.declared.version.Version.{Version};
ghost use Rattle.hist_store.specs.TextOfLines.{joined};
ghost use Rattle.hist_store.specs.JournalTexts.{address_text, prefix_text_by, version_line, mac_line, savi_line, unknown_line, setting, journal_port_line, prefix_fields, begin_line, journal_end_line};
ghost use Rattle.hist_store.specs.VlanTexts.{AreVlans};
ghost use Rattle.hist_store.specs.HeaderLines.{IsNextPort, IsNextPrefix};

use crate::read_fields::{behind, is_word, read_number, take_field, take_port};
use crate::read_vlans::{read_port_vlans, read_vlan};
use crate::version::Version;
use savi_kinds::{
    Addr, Format, Mac, Method, Port, Prefix, PrefixPlan, Role, Vlan, put_addr, put_mac, read_mac,
    read_prefix,
};

/// Reads the first line of a journal: the version of its text. `None` exactly where the line isn't one. O(1).
pub fn read_version_line(line: &[u8]) -> Option<Version>
    ensures read { IfSome result (λ version. line.now ≡ joined (version_line version)) }
    ensures whole { (version : Version) → line.now ≡ joined (version_line version) → result ≡ Some version }
{
    if is_word(line, "savi-journal 2") {
        return Some(Version::Two);
    }
    if is_word(line, "savi-journal 1") {
        return Some(Version::One);
    }
    None
}

/// Reads the line of the switch's own MAC address. `None` exactly where the line isn't one. O(1).
pub fn read_mac_line(line: &[u8]) -> Option<Mac>
    ensures read { IfSome result (λ mac. line.now ≡ joined (mac_line mac)) }
    ensures whole { (mac : Mac) → HasSixOctets mac → line.now ≡ joined (mac_line mac) → result ≡ Some mac }
{
    let value = value_of(line, "mac")?;
    let mac = read_mac(value)?;
    if is_word(value, put_mac(mac).as_str()) {
        Some(mac)
    } else {
        None
    }
}

/// Reads the line that says whether sources are validated. `None` exactly where the line isn't it. O(1).
pub fn read_savi_line(line: &[u8]) -> Option<bool>
    ensures read { IfSome result (λ savi. line.now ≡ joined (savi_line savi)) }
    ensures whole { (savi : Bool) → line.now ≡ joined (savi_line savi) → result ≡ Some savi }
{
    if is_word(line, "savi on") {
        return Some(true);
    }
    if is_word(line, "savi off") {
        return Some(false);
    }
    None
}

/// Reads the line that says whether packets with an unknown next header are dropped. `None` exactly where the line isn't
/// it. O(1).
pub fn read_unknown_line(line: &[u8]) -> Option<bool>
    ensures read { IfSome result (λ drop_unknown. line.now ≡ joined (unknown_line drop_unknown)) }
    ensures whole { (drop_unknown : Bool) → line.now ≡ joined (unknown_line drop_unknown) → result ≡ Some drop_unknown }
{
    if is_word(line, "unknown drop") {
        return Some(true);
    }
    if is_word(line, "unknown pass") {
        return Some(false);
    }
    None
}

/// Reads the line of a setting of this name, whose value is a number of 64 bits: a limit, a time in ms, or, by the name
/// `end`, how many entries a segment has. `None` exactly where the line isn't one. O(n).
pub fn read_setting(line: &[u8], name: &str) -> Option<u64>
    ensures read { IfSome result (λ value. (line.now ≡ joined (setting name.now value)) × (value < 2 ^ 64)) }
    ensures whole { (value : ℕ) → value < 2 ^ 64 → line.now ≡ joined (setting name.now value) → result ≡ Some value }
{
    read_number(value_of(line, name)?)
}

/// Reads the line of a port behind that of the port before it, if there was one: its number, role, format and VLANs, which are
/// one, or from 1 to 8 of a trunk. `None` exactly where the line isn't one, or the port doesn't come behind. O(1).
pub fn read_port_line(line: &[u8], last: Option<Port>) -> Option<(Port, Role, Format, Vlan)>
    ensures read { IfSome result
        (λ r. (line.now ≡ joined (journal_port_line r.0 r.1 r.2 r.3)) × AreVlans r.3 × IsNextPort last r.0) }
    ensures whole { (port : Port) (role : Role) (format : Format) (vlan : Vlan) → AreVlans vlan → IsNextPort last port
        → line.now ≡ joined (journal_port_line port role format vlan)
        → IsSomeAnd result (λ r. (r.0 ≡ port) × (r.1 ≡ role) × (r.2 ≡ format) × (r.3 ≡ vlan)) }
{
    let (port, rest) = take_port(behind(line, "port")?)?;
    let (role, rest) = take_field(rest)?;
    let role = read_role(role)?;
    let (format, rest) = take_field(rest)?;
    let format = read_format(format)?;
    let vlan = read_port_vlans(rest)?;
    if is_next_port(last, port) {
        Some((port, role, format, vlan))
    } else {
        None
    }
}

/// Reads the line of a prefix behind that of the prefix before it, if there was one. `None` exactly where the line isn't
/// one, or the prefix doesn't come behind: in a higher VLAN, or in the same one behind the end of the one before it. The one
/// before it has a length from 1 to 128, and no bit set past it. O(1).
pub fn read_prefix_line(line: &[u8], last: Option<PrefixPlan>) -> Option<PrefixPlan>
    requires { IfSome last (λ plan. IsPrefix plan.prefix) }
    ensures read { IfSome result
        (λ plan. (line.now ≡ joined (prefix_fields address_text plan)) × IsPrefix plan.prefix × IsVlan plan.vlan × IsNextPrefix last plan) }
    ensures whole { (plan : PrefixPlan) → first_of plan.prefix < 2 ^ 128
        → IsPrefix plan.prefix → IsVlan plan.vlan → IsNextPrefix last plan
        → line.now ≡ joined (prefix_fields address_text plan)
        → result ≡ Some plan }
{
    let (prefix, rest) = take_field(behind(line, "prefix")?)?;
    let prefix = read_written_prefix(prefix)?;
    let (method, rest) = take_field(rest)?;
    let method = read_method(method)?;
    let vlan = read_vlan(rest)?;
    let plan = PrefixPlan {
        prefix,
        method,
        vlan,
    };
    if is_next_prefix(last, plan) {
        Some(plan)
    } else {
        None
    }
}

/// Whether a line is the one behind which the entries of a segment stand. O(1).
pub fn is_begin_line(line: &[u8]) -> bool
    ensures { IsTrue result ↔ (line.now ≡ joined begin_line) }
{
    is_word(line, "begin")
}

// What stands behind a name and a space.
fn value_of<'a>(line: &'a [u8], name: &str) -> Option<&'a [u8]>
    ensures read { IfSome result (λ value. line.now ≡ joined (name.now ∷ value.now ∷ [])) }
    ensures whole { (value : List ℕ) → line.now ≡ joined (name.now ∷ value ∷ []) → IsSomeAnd result (λ r. r.now ≡ value) }
{
    behind(behind(line, name)?, " ")
}

fn read_role(word: &[u8]) -> Option<Role>
    ensures read { IfSome result (λ role. word.now ≡ role_word role) }
    ensures whole { (role : Role) → word.now ≡ role_word role → result ≡ Some role }
{
    if is_word(word, "host") {
        return Some(Role::Host);
    }
    if is_word(word, "server") {
        return Some(Role::Server);
    }
    if is_word(word, "trusted") {
        return Some(Role::Trusted);
    }
    None
}

fn read_format(word: &[u8]) -> Option<Format>
    ensures read { IfSome result (λ format. word.now ≡ format_word format) }
    ensures whole { (format : Format) → word.now ≡ format_word format → result ≡ Some format }
{
    if is_word(word, "pcap") {
        return Some(Format::Pcap);
    }
    if is_word(word, "stream") {
        return Some(Format::Stream);
    }
    None
}

fn is_next_port(last: Option<Port>, port: Port) -> bool
    ensures { IsTrue result ↔ IsNextPort last port }
{
    match last {
        None => true,
        Some(last) => last.get() < port.get(),
    }
}

// A prefix in its one spelling.
fn read_written_prefix(field: &[u8]) -> Option<Prefix>
    ensures read { IfSome result (λ prefix. (field.now ≡ prefix_text_by address_text prefix) × IsPrefix prefix) }
    ensures whole { (prefix : Prefix) → first_of prefix < 2 ^ 128
        → IsPrefix prefix → field.now ≡ prefix_text_by address_text prefix
        → result ≡ Some prefix }
{
    let prefix = read_prefix(field)?;
    if length_behind(field, prefix.net)? == u64::from(prefix.len) {
        Some(prefix)
    } else {
        None
    }
}

// The number behind the text of this address and a slash.
fn length_behind(field: &[u8], net: Addr) -> Option<u64>
    ensures read { IfSome result (λ len. field.now ≡ address_text net.0 ++ codes "/" ++ decimal len) }
    ensures whole { (len : ℕ) → len < 2 ^ 64
        → field.now ≡ address_text net.0 ++ codes "/" ++ decimal len → result ≡ Some len }
{
    read_number(behind(behind(field, put_addr(net).as_str())?, "/")?)
}

fn read_method(word: &[u8]) -> Option<Method>
    ensures read { IfSome result (λ method. word.now ≡ method_word method) }
    ensures whole { (method : Method) → word.now ≡ method_word method → result ≡ Some method }
{
    if is_word(word, "fcfs") {
        return Some(Method::Fcfs);
    }
    if is_word(word, "dhcp") {
        return Some(Method::Dhcp);
    }
    if is_word(word, "mixed") {
        return Some(Method::Mixed);
    }
    None
}

fn is_next_prefix(last: Option<PrefixPlan>, next: PrefixPlan) -> bool
    requires { IfSome last (λ plan. IsPrefix plan.prefix) }
    ensures { IsTrue result ↔ IsNextPrefix last next }
{
    match last {
        None => true,
        Some(last) => stands_before(last, next),
    }
}

// Whether a prefix is of a lower VLAN than another one, or of the same and ends before that begins.
fn stands_before(one: PrefixPlan, other: PrefixPlan) -> bool
    requires { IsPrefix one.prefix }
    ensures { IsTrue result ↔ StandsBefore one other }
{
    one.vlan < other.vlan || (one.vlan == other.vlan && ends_before(one.prefix, other.prefix))
}

// Whether a prefix ends before another one begins.
fn ends_before(one: Prefix, other: Prefix) -> bool
    requires { IsPrefix one }
    ensures { IsTrue result ↔ (past_of one ≤ first_of other) }
{
    match one.net.0.checked_add(1 << (128 - one.len)) {
        Some(past) => past <= other.net.0,
        None => false,
    }
}
