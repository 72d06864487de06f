//! The VLANs of access ports.

ghost use Rattle.std.specs.Prelude.{◌≡◌, ◌==◌, ℕ, Some};
ghost use Rattle.savi_kinds.specs.Ports.{number_of};
ghost use Rattle.savi_kinds.specs.Vlans.{access_number, vlan_among};
ghost use Rattle.savi_kinds.specs.declared.plan.Vlan.TheVariants.{Access};
ghost use Rattle.v4_snoop.specs.Snooped.{HasAccessVlans};

use savi_kinds::{PORTS_MOST, PortPlan, Vlan};

/// The VLAN of each access port among these, at the number of the port. O(n) for each number.
pub(crate) fn access_vlans(ports: &[PortPlan]) -> [Option<u16>; PORTS_MOST + 1]
    ensures { HasAccessVlans ports.now result }
{
    let mut vlans = [None; PORTS_MOST + 1];
    for number in 0..PORTS_MOST + 1 {
        vlans[number] = own_vlan(ports, number);
    }
    vlans
}

// The VLAN of the port of this number, where it is an access port.
fn own_vlan(ports: &[PortPlan], number: usize) -> Option<u16>
    ensures { (vlan : ℕ) → vlan_among ports.now number ≡ Some (Access vlan) → result ≡ Some vlan }
{
    for port in ports {
        if has_number(port, number) {
            return access_number(&port.vlan);
        }
    }
    None
}

fn has_number(port: &PortPlan, number: usize) -> bool
    ensures { result ≡ (number_of port.now.number == number) }
{
    usize::from(port.number.get()) == number
}

// The one VLAN of an access port.
fn access_number(vlan: &Vlan) -> Option<u16>
    ensures { result ≡ access_number vlan.now }
{
    match vlan {
        Vlan::Access(number) => Some(*number),
        Vlan::Trunk(_) => None,
    }
}
