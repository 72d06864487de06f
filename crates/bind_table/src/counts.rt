//! How many addresses each port holds, kept as a number for each.

ghost use Rattle.std.specs.Prelude.{◌≡◌, ◌≤◌, ◌<◌, ◌-◌, ◌^◌, ◌||◌, ℕ, slice_index};
ghost use Rattle.savi_kinds.specs.Ports.{number_of};
ghost use Rattle.savi_kinds.specs.PortSets.{is_member};
ghost use Rattle.mix_rules.specs.States.{is_fixed_to, is_bound_to, is_held_in};
ghost use Rattle.bind_table.specs.Counts.{once_in, AreMoved, AreHolders};

use dhcp_states::Bound;
use fcfs_states::Fcfs;
use mix_rules::AddrState;
use savi_kinds::{PORTS_MOST, Port, PortSet};

// How many addresses the port holds. O(1).
pub(crate) fn count(counts: &[u32; PORTS_MOST], q: Port) -> u32
    ensures { result ≡ slice_index counts.now (number_of q - 1) }
{
    counts[usize::from(q.get()) - 1]
}

// Counts an address anew that the ports of one set held, and those of another one hold now. O(1) where they are the same,
// which is the common case; else it goes over the 16 ports.
#[inline(always)]
pub(crate) fn recount(counts: &mut [u32; PORTS_MOST], left: PortSet, came: PortSet)
    requires least { (port : ℕ) → 1 ≤ port → port ≤ 16 → once_in left port ≤ slice_index counts.old (port - 1) }
    requires most { (port : ℕ) → 1 ≤ port → port ≤ 16 → slice_index counts.old (port - 1) ≤ 2 ^ 20 }
    ensures { AreMoved left came counts.old counts.new }
{
    if left.0 != came.0 {
        count_ports(counts, left, came);
    }
}

// Takes an address from the ports of one set, and gives it to those of another one.
#[inline(never)]
fn count_ports(counts: &mut [u32; PORTS_MOST], left: PortSet, came: PortSet)
    requires least { (port : ℕ) → 1 ≤ port → port ≤ 16 → once_in left port ≤ slice_index counts.old (port - 1) }
    requires most { (port : ℕ) → 1 ≤ port → port ≤ 16 → slice_index counts.old (port - 1) ≤ 2 ^ 20 }
    ensures { AreMoved left came counts.old counts.new }
{
    for place in 0..PORTS_MOST {
        let Some(port) = Port::new(place as u8 + 1) else {
            unreachable!();
        };
        counts[place] = counts[place] + u32::from(came.contains(port))
            - u32::from(left.contains(port));
    }
}

// The ports that hold an address of this state.
#[inline(always)]
pub(crate) fn holders(state: &AddrState) -> PortSet
    ensures { AreHolders state.now result }
{
    with_fixed(
        with_bound(with_first_come(PortSet::empty(), state.fcfs), state.dhcp),
        state.fixed,
    )
}

#[inline(always)]
fn with_fixed(ports: PortSet, fixed: Option<Port>) -> PortSet
    ensures { (port : ℕ) → 1 ≤ port → is_member result port ≡ (is_fixed_to port fixed || is_member ports port) }
{
    match fixed {
        Some(p) => ports.with(p),
        None => ports,
    }
}

#[inline(always)]
fn with_bound(ports: PortSet, dhcp: Option<Bound>) -> PortSet
    ensures { (port : ℕ) → 1 ≤ port → is_member result port ≡ (is_bound_to port dhcp || is_member ports port) }
{
    match dhcp {
        Some(bound) => ports.with(bound.p),
        None => ports,
    }
}

#[inline(always)]
fn with_first_come(ports: PortSet, fcfs: Fcfs) -> PortSet
    ensures { (port : ℕ) → 1 ≤ port → is_member result port ≡ (is_held_in port fcfs || is_member ports port) }
{
    match fcfs {
        Fcfs::NoBind => ports,
        Fcfs::Tentative { p, .. } | Fcfs::Valid { p, .. } | Fcfs::TestLt { p, .. } => ports.with(p),
        Fcfs::TestVp { p, q, .. } => ports.with(q).with(p),
    }
}
