//! What the line of a port, and that of a prefix, says of VLANs (IEEE 802.1Q).

ghost use Rattle.std.specs.Prelude.{◌≡◌, ◌↔◌, ℕ, List, Some, IsTrue, IfSome, IsSomeAnd, decimal};
ghost use Rattle.savi_kinds.specs.declared.plan.Vlan.{Vlan};
ghost use Rattle.savi_kinds.specs.Vlans.{IsVlan};
ghost use Rattle.hist_store.specs.TextOfLines.{spaced};
ghost use Rattle.hist_store.specs.HeaderLines.{IsAbove};
ghost use Rattle.hist_store.specs.VlanTexts.{AreVlans, BeginTrunk, ListsBehind, port_vlan_fields, vlan_fields};

use crate::read_fields::{behind, read_number};
use crate::read_ports::cut_member;
use savi_kinds::{DEFAULT_VLAN, VLAN_MOST, Vlan, Vlans};

// What stands in front of the number of an access port's VLAN.
const ACCESS: &str = " vlan ";

// What stands in front of the numbers of a trunk's VLANs.
const TRUNK: &str = " trunk ";

// The VLANs of a port, by what stands behind the other fields of its line.
pub fn read_port_vlans(text: &[u8]) -> Option<Vlan>
    ensures read { IfSome result (λ vlan. (text.now ≡ spaced (port_vlan_fields vlan)) × AreVlans vlan) }
    ensures whole { (vlan : Vlan) → AreVlans vlan → text.now ≡ spaced (port_vlan_fields vlan) → result ≡ Some vlan }
{
    match behind(text, TRUNK) {
        Some(numbers) => {
            let numbers = read_numbers(numbers, Vlans::new())?;
            Some(Vlan::Trunk(numbers))
        }
        None => {
            let number = read_vlan(text)?;
            Some(Vlan::Access(number))
        }
    }
}

// The VLAN of a prefix, by what stands behind the other fields of its line: nothing, where it is VLAN 1.
pub fn read_vlan(text: &[u8]) -> Option<u16>
    ensures read { IfSome result (λ vlan. (text.now ≡ spaced (vlan_fields vlan)) × IsVlan vlan) }
    ensures whole { (vlan : ℕ) → IsVlan vlan → text.now ≡ spaced (vlan_fields vlan) → result ≡ Some vlan }
{
    if text.is_empty() {
        return Some(DEFAULT_VLAN);
    }
    let digits = behind(text, ACCESS)?;
    let vlan = read_vlan_number(digits)?;
    if vlan == DEFAULT_VLAN {
        return None;
    }
    Some(vlan)
}

// The number of a VLAN.
fn read_vlan_number(field: &[u8]) -> Option<u16>
    ensures read { IfSome result (λ vlan. (field.now ≡ decimal vlan) × IsVlan vlan) }
    ensures whole { (vlan : ℕ) → IsVlan vlan → field.now ≡ decimal vlan → result ≡ Some vlan }
{
    let number = read_number(field)?;
    if number == 0 {
        return None;
    }
    if number > u64::from(VLAN_MOST) {
        return None;
    }
    Some(number as u16)
}

// The numbers before, and behind them those that a text lists, with commas between: all of them are those of a trunk.
fn read_numbers(text: &[u8], before: Vlans) -> Option<Vlans>
    requires { BeginTrunk before.items }
    ensures read { IfSome result (λ whole. ListsBehind before.items whole.items text.now) }
    ensures whole { (whole : List ℕ) → ListsBehind before.items whole text.now → IsSomeAnd result (λ vlans. vlans.items ≡ whole) }
{
    let (number, rest) = cut_member(text);
    let vlan = read_vlan_number(number)?;
    if before.is_full() {
        return None;
    }
    if !is_above_all(before.as_slice(), vlan) {
        return None;
    }
    let mut grown = before;
    grown.push(vlan);
    if rest.is_empty() {
        return Some(grown);
    }
    let more = behind(rest, ",")?;
    read_numbers(more, grown)
}

// Whether a number is above those of a list that rises.
fn is_above_all(numbers: &[u16], vlan: u16) -> bool
    ensures { IsTrue result ↔ IsAbove numbers.now vlan }
{
    match numbers.last() {
        None => true,
        Some(last) => *last < vlan,
    }
}
