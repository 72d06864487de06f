//! What the prefixes of a configuration have to meet.
ghost use Rattle.std.specs.Prelude.{◌≡◌, ◌↔◌, IsTrue, IfSome, IfNone, All, AllPairs, codes};
ghost use Rattle.savi_conf.specs.Documents.{text_at};
ghost use Rattle.savi_conf.specs.Requirements.{HasPrefix, HaveApartRanges, TellsPlanPrefix, IsSomePrefix, vlan_in};
ghost use Rattle.savi_kinds.specs.PlanWords.{method_word};
ghost use Rattle.savi_conf.specs.Words.{HasWord};
ghost use Rattle.savi_kinds.specs.Prefixes.{AreApart, IsPrefix};
ghost use Rattle.savi_kinds.specs.declared.address.Prefix.{Prefix};
ghost use Rattle.toml.specs.View.{table_view};

use crate::document::text_at;
use crate::ranges::{are_apart, is_plan_prefix};
use crate::vlans::vlan;
use crate::words::has_method;
use savi_kinds::{Prefix, read_prefix};
use toml::Table;

// The prefix that the table tells.
pub(crate) fn prefix_at(table: &Table) -> Option<Prefix>
    ensures read { IfSome result (λ p. HasPrefix (table_view table.now) p) }
    ensures prefix { IfSome result IsPrefix }
    ensures only { IfNone result ((p : Prefix) → ¬ HasPrefix (table_view table.now) p) }
{
    match text_at(table, "prefix") {
        Some(text) => read_prefix(text.as_bytes()),
        None => None,
    }
}

// Whether each text is that of a prefix.
pub(crate) fn have_prefix_texts(prefixes: &[&Table]) -> bool
    ensures { IsTrue result ↔ All (λ t. IfSome (text_at (codes "prefix") (table_view t.now)) IsSomePrefix) prefixes.now }
{
    prefixes.iter().all(|table| has_prefix_text(table))
}

fn has_prefix_text(table: &Table) -> bool
    ensures { IsTrue result ↔ IfSome (text_at (codes "prefix") (table_view table.now)) IsSomePrefix }
{
    match text_at(table, "prefix") {
        Some(text) => is_some_prefix(text),
        None => true,
    }
}

fn is_some_prefix(text: &str) -> bool
    ensures { IsTrue result ↔ IsSomePrefix text.now }
{
    read_prefix(text.as_bytes()).is_some()
}

// Whether a plan may name each prefix.
pub(crate) fn tell_plan_prefixes(prefixes: &[&Table]) -> bool
    ensures { IsTrue result ↔ All (λ t. TellsPlanPrefix (table_view t.now)) prefixes.now }
{
    prefixes.iter().all(|table| tells_plan_prefix(table))
}

fn tells_plan_prefix(table: &Table) -> bool
    ensures { IsTrue result ↔ TellsPlanPrefix (table_view table.now) }
{
    match prefix_at(table) {
        Some(prefix) => is_plan_prefix(prefix),
        None => true,
    }
}

// Whether no two prefixes of one VLAN have an address in common.
pub(crate) fn have_apart_ranges(prefixes: &[&Table]) -> bool
    ensures { IsTrue result ↔ AllPairs (λ t u. HaveApartRanges (table_view t.now) (table_view u.now)) prefixes.now }
{
    for (i, table) in prefixes.iter().enumerate() {
        if !are_apart_from(&prefixes[..i], table) {
            return false;
        }
    }
    true
}

fn are_apart_from(prefixes: &[&Table], other: &Table) -> bool
    ensures { IsTrue result ↔ All (λ t. HaveApartRanges (table_view t.now) (table_view other.now)) prefixes.now }
{
    prefixes.iter().all(|table| are_apart_ranges(table, other))
}

fn are_apart_ranges(one: &Table, other: &Table) -> bool
    ensures { IsTrue result ↔ HaveApartRanges (table_view one.now) (table_view other.now) }
{
    !are_of_one_vlan(one, other) || tell_apart_ranges(one, other)
}

fn are_of_one_vlan(one: &Table, other: &Table) -> bool
    ensures { IsTrue result ↔ (vlan_in (table_view one.now) ≡ vlan_in (table_view other.now)) }
{
    vlan(one) == vlan(other)
}

fn tell_apart_ranges(one: &Table, other: &Table) -> bool
    ensures { IsTrue result ↔ ((p q : Prefix) → HasPrefix (table_view one.now) p → HasPrefix (table_view other.now) q → AreApart p q) }
{
    match (prefix_at(one), prefix_at(other)) {
        (Some(prefix), Some(other_prefix)) => are_apart(prefix, other_prefix),
        _ => true,
    }
}

pub(crate) fn have_methods(prefixes: &[&Table]) -> bool
    ensures { IsTrue result ↔ All (λ t. HasWord (codes "method") method_word (table_view t.now)) prefixes.now }
{
    prefixes.iter().all(|table| has_method(table))
}
