//! Which VLANs a further port of a plan may have (IEEE 802.1Q).

ghost use Rattle.std.specs.Prelude.{◌≡◌, ◌≤◌, ◌↔◌, IsTrue, fold, length, true};
ghost use Rattle.std.specs.BTreeSet.{insert_key};
ghost use Rattle.std.specs.Ordering.{nat_cmp};
ghost use Rattle.savi_kinds.specs.declared.plan.Role.TheVariants.{Trusted};
ghost use Rattle.savi_kinds.specs.Vlans.{is_trunk, numbers_of_vlan, vlans_of_ports as vlans_among_ports};

use savi_kinds::{PortPlan, Role, Vlan, add_vlan, vlans_of_ports};

// Whether a further port of this role may have these VLANs beside the ports of a plan: a trunk is trusted, and over all ports
// there are at most 8. O(n) in the VLANs of all ports.
pub fn may_have_vlans(role: Role, vlan: &Vlan, ports: &[PortPlan]) -> bool
    requires { length (vlans_among_ports ports.now) ≤ 8 }
    ensures { IsTrue result
        ↔ ((is_trunk vlan.now ≡ true → role ≡ Trusted) × (length (fold (insert_key nat_cmp) (vlans_among_ports ports.now) (numbers_of_vlan vlan.now)) ≤ 8)) }
{
    is_role_of(role, vlan) && have_room(vlan, ports)
}

// Whether a port of this role may be a trunk, if it is one.
fn is_role_of(role: Role, vlan: &Vlan) -> bool
    ensures { IsTrue result ↔ (is_trunk vlan.now ≡ true → role ≡ Trusted) }
{
    !vlan.is_trunk() || role == Role::Trusted
}

// Whether the VLANs of these ports and of a further one are at most 8.
fn have_room(vlan: &Vlan, ports: &[PortPlan]) -> bool
    requires { length (vlans_among_ports ports.now) ≤ 8 }
    ensures { IsTrue result ↔ (length (fold (insert_key nat_cmp) (vlans_among_ports ports.now) (numbers_of_vlan vlan.now)) ≤ 8) }
{
    let Some(mut vlans) = vlans_of_ports(ports) else {
        return false;
    };
    for number in vlan.numbers() {
        if !add_vlan(&mut vlans, *number) {
            return false;
        }
    }
    true
}
