//! The VLANs of ports (IEEE 802.1Q).

ghost use Rattle.std.specs.BTreeSet.{insert_key};
ghost use Rattle.std.specs.Ordering.{nat_cmp};
ghost use Rattle.std.specs.Prelude.{◌≡◌, ◌<◌, ◌≤◌, ◌↔◌, true, false, IsTrue, Some, IfSome, IfNone, if◌then◌else◌, fold, length, nat_le};
ghost use Rattle.std.specs.List.{position, position_or_len, slice_get};
ghost use Rattle.savi_kinds.specs.Vlans.{is_member_of, is_trunk, numbers_of_vlan, vlans_of_ports as vlans_among_ports};

use crate::limits::VLANS_MOST;
use crate::plan::{PortPlan, Vlan};
use arrayvec::ArrayVec;
use std::slice;

/// Numbers of VLANs, in rising order, each once.
pub type Vlans = ArrayVec<u16, VLANS_MOST>;

impl Vlan {
    /// The numbers of the port's VLANs: one, or those that the trunk lists. O(1).
    pub fn numbers(&self) -> &[u16]
        ensures { result.now ≡ numbers_of_vlan self.now }
    {
        match self {
            Vlan::Access(number) => slice::from_ref(number),
            Vlan::Trunk(numbers) => numbers.as_slice(),
        }
    }

    /// Whether the port is a trunk. O(1).
    pub fn is_trunk(&self) -> bool
        ensures { result ≡ is_trunk self.now }
    {
        matches!(self, Vlan::Trunk(_))
    }
}

impl PortPlan {
    /// Whether the port is a member of the VLAN: an access port of it, or a trunk that lists it. O(1): of at most 8 numbers.
    pub fn is_member_of(&self, vlan: u16) -> bool
        ensures { result ≡ is_member_of vlan self.now }
    {
        self.vlan.numbers().contains(&vlan)
    }
}

/// Puts a VLAN among others, at its place in their order, unless it is there. `false` where there is no room for it, and
/// then nothing has changed. O(n) in the number of VLANs.
pub fn add_vlan(vlans: &mut Vlans, vlan: u16) -> bool
    ensures added { IsTrue result ↔ (length (insert_key nat_cmp vlans.old.items vlan) ≤ 8) }
    ensures vlans { vlans.new.items ≡ (if result then insert_key nat_cmp vlans.old.items vlan else vlans.old.items) }
{
    let place = place_of(vlans.as_slice(), vlan);
    if is_at(vlans.as_slice(), place, vlan) {
        return true;
    }
    vlans.try_insert(place, vlan).is_ok()
}

// The place of the first number that isn't lower, or behind all.
fn place_of(numbers: &[u16], vlan: u16) -> usize
    ensures { result ≡ position_or_len (λ n. nat_le vlan n) numbers.now }
{
    first_from(numbers, vlan).unwrap_or(numbers.len())
}

// The place of the first number that isn't lower.
fn first_from(numbers: &[u16], vlan: u16) -> Option<usize>
    ensures { result ≡ position (λ n. nat_le vlan n) numbers.now }
{
    numbers.iter().position(|number| *number >= vlan)
}

// Whether the number stands at this place.
fn is_at(numbers: &[u16], place: usize, vlan: u16) -> bool
    ensures { IsTrue result ↔ (slice_get numbers.now place ≡ Some vlan) }
{
    match numbers.get(place) {
        Some(number) => *number == vlan,
        None => false,
    }
}

/// The VLANs of all these ports, in rising order, each once; `None` where there are more than `VLANS_MOST`. O(n) in the
/// number of ports.
pub fn vlans_of_ports(ports: &[PortPlan]) -> Option<Vlans>
    ensures some { IfSome result (λ vlans. vlans.items ≡ vlans_among_ports ports.now) }
    ensures none { IfNone result (8 < length (vlans_among_ports ports.now)) }
{
    let mut vlans = Vlans::new();
    for port in ports {
        if !add_vlans(&mut vlans, port.vlan.numbers()) {
            return None;
        }
    }
    Some(vlans)
}

// Puts several VLANs among others. `false` where there is no room for one of them.
fn add_vlans(vlans: &mut Vlans, numbers: &[u16]) -> bool
    ensures added { result ≡ true → vlans.new.items ≡ fold (insert_key nat_cmp) vlans.old.items numbers.now }
    ensures full { result ≡ false → 8 < length (fold (insert_key nat_cmp) vlans.old.items numbers.now) }
{
    for number in numbers {
        if !add_vlan(vlans, *number) {
            return false;
        }
    }
    true
}
