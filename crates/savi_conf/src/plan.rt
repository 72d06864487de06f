//! The plan that a document says, where it meets every requirement.
ghost use Rattle.std.specs.Prelude.{
  ◌≡◌,
  ◌≤◌,
  ◌+◌,
  ◌*◌,
  ◌<◌,
  ◌≤ℤ◌,
  ℕ,
  pos,
  IfOk,
  IfSome,
  IsPermutation,
  IsSome,
  IsSomeAnd,
  Some,
  All,
  AllPairs,
  codes,
  false,
  length,
  map,
  option_map,
  true,
};
ghost use Rattle.std.specs.List.Sorted.{IsNonDecreasing, IsStrictlyIncreasing};
ghost use Rattle.savi_conf.specs.Documents.{integer_or, text_at, text_or};
ghost use Rattle.savi_conf.specs.PlanOf.{IsPortOf, IsPrefixOf, SaysVlan};
ghost use Rattle.savi_conf.specs.Requirements.{AreVlanNumbers, IsBetween, IsSwitchMac, number_in, vlans_in};
ghost use Rattle.savi_conf.specs.Told.{CanSayPort, CanSayPrefix};
ghost use Rattle.savi_kinds.specs.PlanWords.{format_word, method_word, role_word, savi_word, unknown_word};
ghost use Rattle.savi_conf.specs.Words.{HasWord};
ghost use Rattle.savi_kinds.specs.MacText.{IsMacText};
ghost use Rattle.savi_kinds.specs.Ports.{number_of};
ghost use Rattle.savi_kinds.specs.Macs.{is_group};
ghost use Rattle.toml.specs.View.{table_view};

use crate::document::{integers_at, text_at};
use crate::numbers::integer_or;
use crate::ports::number;
use crate::prefixes::prefix_at;
use crate::vlans::vlan;
use crate::words;
use savi_kinds::{
    Format, Mac, Method, Port, PortPlan, PrefixPlan, Role, Text, Vlan, Vlans, read_mac,
};
use std::alloc::{AllocError, Global};
use toml::Table;

// A number that isn't negative.
fn natural(value: i64) -> u64
    requires { pos 0 ≤ℤ value }
    ensures { pos result ≡ value }
{
    value.unsigned_abs()
}

// A number of at most 2^32 - 1 that isn't negative.
fn small(value: i64) -> u32
    requires low { pos 0 ≤ℤ value }
    requires high { value ≤ℤ pos 4294967295 }
    ensures { pos result ≡ value }
{
    natural(value) as u32
}

// The number at a key, or the default.
pub(crate) fn natural_at(table: &Table, key: &str, default: i64) -> u64
    requires { pos 0 ≤ℤ integer_or key.now default (table_view table.now) }
    ensures { integer_or key.now default (table_view table.now) ≡ pos result }
{
    natural(integer_or(table, key, default))
}

// The same, of at most 2^32 - 1.
pub(crate) fn small_at(table: &Table, key: &str, default: i64) -> u32
    requires low { pos 0 ≤ℤ integer_or key.now default (table_view table.now) }
    requires high { integer_or key.now default (table_view table.now) ≤ℤ pos 4294967295 }
    ensures { integer_or key.now default (table_view table.now) ≡ pos result }
{
    small(integer_or(table, key, default))
}

// The text at a key that has one.
pub(crate) fn text(alloc: Global, table: &Table, key: &str) -> Result<Text, AllocError>
    requires { IsSome (text_at key.now (table_view table.now)) }
    ensures { IfOk result (λ t. text_at key.now (table_view table.now) ≡ Some t) }
{
    match text_at(table, key) {
        Some(words) => Ok(Text::new(String::from_str(alloc, words)?)),
        None => unreachable!(),
    }
}

// The switch's own address.
pub(crate) fn switch_mac(document: &Table) -> Mac
    requires { IsSomeAnd (text_at (codes "mac") (table_view document.now)) IsSwitchMac }
    ensures spelled { IsSomeAnd (text_at (codes "mac") (table_view document.now)) (λ text. IsMacText text result) }
    ensures unicast { is_group result ≡ false }
{
    match text_at(document, "mac") {
        Some(text) => mac_of(text),
        None => unreachable!(),
    }
}

fn mac_of(text: &str) -> Mac
    requires { IsSwitchMac text.now }
    ensures spelled { IsMacText text.now result }
    ensures unicast { is_group result ≡ false }
{
    match read_mac(text.as_bytes()) {
        Some(mac) => mac,
        None => unreachable!(),
    }
}

// Whether sources are validated.
pub(crate) fn is_savi_on(document: &Table) -> bool
    requires { HasWord (codes "savi") savi_word (table_view document.now) }
    ensures { text_or (codes "savi") (savi_word true) (table_view document.now) ≡ savi_word result }
{
    match text_at(document, "savi") {
        Some(text) => known(words::savi(text)),
        None => true,
    }
}

// Whether packets with an unknown next header are dropped.
pub(crate) fn drops_unknown(document: &Table) -> bool
    requires { HasWord (codes "unknown") unknown_word (table_view document.now) }
    ensures { text_or (codes "unknown") (unknown_word true) (table_view document.now) ≡ unknown_word result }
{
    match text_at(document, "unknown") {
        Some(text) => known(words::unknown(text)),
        None => true,
    }
}

// What a word that is known stands for.
fn known<T: Copy>(meaning: Option<T>) -> T
    requires { IsSome meaning }
    ensures { meaning ≡ Some result }
{
    match meaning {
        Some(value) => value,
        None => unreachable!(),
    }
}

// The port that a table says.
pub(crate) fn port_plan(alloc: Global, table: &Table) -> Result<PortPlan, AllocError>
    requires { CanSayPort (table_view table.now) }
    ensures { IfOk result (IsPortOf (table_view table.now)) }
{
    Ok(PortPlan {
        number: port_number(table),
        role: port_role(table),
        format: port_format(table),
        input: text(alloc, table, "input")?,
        output: text(alloc, table, "output")?,
        vlan: port_vlan(alloc, table)?,
    })
}

fn port_number(table: &Table) -> Port
    requires { IsSomeAnd (number_in (table_view table.now)) (IsBetween 1 16) }
    ensures { number_in (table_view table.now) ≡ Some (pos (number_of result)) }
{
    match number(table) {
        Some(value) => port_of(value),
        None => unreachable!(),
    }
}

fn port_of(value: i64) -> Port
    requires { IsBetween 1 16 value }
    ensures { pos (number_of result) ≡ value }
{
    match Port::new(small(value) as u8) {
        Some(port) => port,
        None => unreachable!(),
    }
}

fn port_role(table: &Table) -> Role
    requires text { IsSome (text_at (codes "role") (table_view table.now)) }
    requires word { HasWord (codes "role") role_word (table_view table.now) }
    ensures { text_at (codes "role") (table_view table.now) ≡ Some (role_word result) }
{
    match text_at(table, "role") {
        Some(text) => known(words::role(text)),
        None => unreachable!(),
    }
}

fn port_format(table: &Table) -> Format
    requires { HasWord (codes "format") format_word (table_view table.now) }
    ensures { text_or (codes "format") (format_word Format.Pcap) (table_view table.now) ≡ format_word result }
{
    match text_at(table, "format") {
        Some(text) => known(words::format(text)),
        None => Format::Pcap,
    }
}

fn port_vlan(alloc: Global, table: &Table) -> Result<Vlan, AllocError>
    requires numbers { AreVlanNumbers (vlans_in (table_view table.now)) }
    requires few { length (vlans_in (table_view table.now)) ≤ 8 }
    ensures { IfOk result (SaysVlan (table_view table.now)) }
{
    match integers_at(alloc, table, "trunk")? {
        Some(numbers) => Ok(Vlan::Trunk(trunk(numbers.as_slice()))),
        None => Ok(Vlan::Access(vlan_number(vlan(table)))),
    }
}

// The VLANs that a trunk lists, in rising order.
fn trunk(numbers: &[i64]) -> Vlans
    requires numbers { AreVlanNumbers numbers.now }
    requires few { length numbers.now ≤ 8 }
    ensures permutation { IsPermutation numbers.now (map (λ v. pos v) result.items) }
    ensures order { IsStrictlyIncreasing result.items }
{
    let mut vlans = Vlans::new();
    for number in numbers {
        vlans.push(vlan_number(*number));
    }
    sort_vlans(&mut vlans);
    vlans
}

fn sort_vlans(vlans: &mut Vlans)
    ensures permutation { IsPermutation vlans.old.items vlans.new.items }
    ensures order { IsNonDecreasing vlans.new.items }
{
    vlans.sort_unstable();
}

// The number of a VLAN.
fn vlan_number(number: i64) -> u16
    requires { IsBetween 1 4094 number }
    ensures { pos result ≡ number }
{
    small(number) as u16
}

// The prefix that a table says.
pub(crate) fn prefix_plan(table: &Table) -> PrefixPlan
    requires { CanSayPrefix (table_view table.now) }
    ensures { IsPrefixOf (table_view table.now) result }
{
    match prefix_at(table) {
        Some(prefix) => PrefixPlan {
            prefix,
            method: prefix_method(table),
            vlan: vlan_number(vlan(table)),
        },
        None => unreachable!(),
    }
}

fn prefix_method(table: &Table) -> Method
    requires text { IsSome (text_at (codes "method") (table_view table.now)) }
    requires word { HasWord (codes "method") method_word (table_view table.now) }
    ensures { text_at (codes "method") (table_view table.now) ≡ Some (method_word result) }
{
    match text_at(table, "method") {
        Some(text) => known(words::method(text)),
        None => unreachable!(),
    }
}
