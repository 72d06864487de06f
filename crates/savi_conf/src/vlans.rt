//! The VLANs of ports and prefixes (IEEE 802.1Q).
ghost use Rattle.std.specs.Prelude.{◌≡◌, ◌≢◌, ◌↔◌, IsTrue, IsSome, IfOk, [], ◌∷◌, All, AllPairs, Any, Some, codes, map};
ghost use Rattle.savi_conf.specs.Documents.{text_at};
ghost use Rattle.savi_conf.specs.Gathering.{Gathers};
ghost use Rattle.savi_conf.specs.Requirements.{AreFewVlans, AreVlanNumbers, HasOneVlanKey, HasTrunkRole, IsBetween, trunk_in, vlan_in, vlans_in};
ghost use Rattle.toml.specs.View.{table_view};

use crate::document::{integer_at, integers_at, text_at, value_at};
use crate::numbers::{integer_or, is_between};
use arrayvec::ArrayVec;
use savi_kinds::{DEFAULT_VLAN, VLAN_MOST, VLANS_MOST};
use std::alloc::{AllocError, Global};
use toml::Table;

// Numbers of VLANs, each once.
type Gathered = ArrayVec<i64, VLANS_MOST>;

// The number at `vlan`, or that of the default VLAN.
pub(crate) fn vlan(table: &Table) -> i64
    ensures { result ≡ vlan_in (table_view table.now) }
{
    integer_or(table, "vlan", i64::from(DEFAULT_VLAN))
}

// The numbers of each port's VLANs.
pub(crate) fn vlans_of_each(alloc: Global, ports: &[&Table]) -> Result<Vec<Vec<i64>>, AllocError>
    ensures { IfOk result (λ v. map (λ numbers. numbers.items) v.items ≡ map (λ t. vlans_in (table_view t.now)) ports.now) }
{
    let mut vlans = Vec::new(alloc);
    for port in ports {
        vlans.push(vlans_of(alloc, port)?)?;
    }
    Ok(vlans)
}

// The numbers of a port's VLANs: those that a trunk lists, or that of an access port.
fn vlans_of(alloc: Global, port: &Table) -> Result<Vec<i64>, AllocError>
    ensures { IfOk result (λ v. v.items ≡ vlans_in (table_view port.now)) }
{
    match integers_at(alloc, port, "trunk")? {
        Some(numbers) => Ok(numbers),
        None => {
            let mut numbers = Vec::new(alloc);
            numbers.push(vlan(port))?;
            Ok(numbers)
        }
    }
}

// Whether no port has both `vlan` and `trunk`.
pub(crate) fn have_one_vlan_key(ports: &[&Table]) -> bool
    ensures { IsTrue result ↔ All (λ p. HasOneVlanKey (table_view p.now)) ports.now }
{
    ports.iter().all(|port| has_one_vlan_key(port))
}

fn has_one_vlan_key(port: &Table) -> bool
    ensures { IsTrue result ↔ HasOneVlanKey (table_view port.now) }
{
    !is_trunk(port) || integer_at(port, "vlan").is_none()
}

// Whether the port is a trunk.
fn is_trunk(port: &Table) -> bool
    ensures { IsTrue result ↔ IsSome (trunk_in (table_view port.now)) }
{
    match value_at(port, "trunk") {
        Some(value) => value.is_array(),
        None => false,
    }
}

// Whether the numbers of each port are those of VLANs, one or more, no two the same.
pub(crate) fn are_all_vlan_numbers(vlans: &[Vec<i64>]) -> bool
    ensures { IsTrue result ↔ All (λ v. AreVlanNumbers v.items) vlans.now }
{
    vlans
        .iter()
        .all(|numbers| are_vlan_numbers(numbers.as_slice()))
}

fn are_vlan_numbers(numbers: &[i64]) -> bool
    ensures { IsTrue result ↔ AreVlanNumbers numbers.now }
{
    !numbers.is_empty() && are_in_range(numbers) && are_different(numbers)
}

fn are_in_range(numbers: &[i64]) -> bool
    ensures { IsTrue result ↔ All (IsBetween 1 4094) numbers.now }
{
    numbers.iter().all(|number| is_vlan_number(*number))
}

fn is_vlan_number(number: i64) -> bool
    ensures { IsTrue result ↔ IsBetween 1 4094 number }
{
    is_between(1, u64::from(VLAN_MOST), number)
}

fn are_different(numbers: &[i64]) -> bool
    ensures { IsTrue result ↔ AllPairs (λ v w. v ≢ w) numbers.now }
{
    for (i, number) in numbers.iter().enumerate() {
        if is_among(*number, &numbers[..i]) {
            return false;
        }
    }
    true
}

// Whether the VLAN of each prefix is one.
pub(crate) fn have_prefix_vlans(prefixes: &[&Table]) -> bool
    ensures { IsTrue result ↔ All (λ t. IsBetween 1 4094 (vlan_in (table_view t.now))) prefixes.now }
{
    prefixes.iter().all(|table| has_prefix_vlan(table))
}

fn has_prefix_vlan(prefix: &Table) -> bool
    ensures { IsTrue result ↔ IsBetween 1 4094 (vlan_in (table_view prefix.now)) }
{
    is_vlan_number(vlan(prefix))
}

// Whether each trunk is trusted.
pub(crate) fn have_trunk_roles(ports: &[&Table]) -> bool
    ensures { IsTrue result ↔ All (λ p. HasTrunkRole (table_view p.now)) ports.now }
{
    ports.iter().all(|port| has_trunk_role(port))
}

fn has_trunk_role(port: &Table) -> bool
    ensures { IsTrue result ↔ HasTrunkRole (table_view port.now) }
{
    !is_trunk(port) || is_trusted(port)
}

fn is_trusted(port: &Table) -> bool
    ensures { IsTrue result ↔ (text_at (codes "role") (table_view port.now) ≡ Some (codes "trusted")) }
{
    match text_at(port, "role") {
        Some(text) => text == "trusted",
        None => false,
    }
}

// Whether the VLANs of all ports are `VLANS_MOST` at most.
pub(crate) fn are_few_vlans(vlans: &[Vec<i64>]) -> bool
    ensures { IsTrue result ↔ AreFewVlans (map (λ numbers. numbers.items) vlans.now) }
{
    let mut gathered = Gathered::new();
    for numbers in vlans {
        if !are_gathered(&mut gathered, numbers.as_slice()) {
            return false;
        }
    }
    true
}

// Puts numbers behind the others, each one unless it is there. `false` where there is no room for one.
fn are_gathered(gathered: &mut Gathered, numbers: &[i64]) -> bool
    ensures { Gathers gathered.old.items numbers.now result gathered.new.items }
{
    for number in numbers {
        if !is_gathered(gathered, *number) {
            return false;
        }
    }
    true
}

fn is_gathered(gathered: &mut Gathered, number: i64) -> bool
    ensures { Gathers gathered.old.items (number ∷ []) result gathered.new.items }
{
    is_among(number, gathered.as_slice()) || gathered.try_push(number).is_ok()
}

fn is_among(number: i64, numbers: &[i64]) -> bool
    ensures { IsTrue result ↔ Any (λ n. n ≡ number) numbers.now }
{
    numbers.iter().any(|other| *other == number)
}
