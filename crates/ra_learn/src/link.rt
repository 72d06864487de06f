//! The link that is learned of: the access ports of VLAN 1.

ghost use Rattle.std.specs.Prelude.{◌≡◌, ◌≤◌, ℕ};
ghost use Rattle.std.specs.List.{list_any};
ghost use Rattle.savi_kinds.specs.PortSets.{is_member};
ghost use Rattle.ra_learn.specs.Link.{is_link_port, is_link_port_at};

use savi_kinds::{DEFAULT_VLAN, PortPlan, PortSet, Vlan};

/// The ports of the link among these ports of a plan. O(n).
pub(crate) fn link_ports(ports: &[PortPlan]) -> PortSet
    ensures { (n : ℕ) → 1 ≤ n → is_member result n ≡ list_any (is_link_port_at n) ports.now }
{
    let mut link = PortSet::empty();
    for port in ports {
        if is_link_port(port) {
            link = link.with(port.number);
        }
    }
    link
}

/// Whether a port is one of the link. O(1).
pub(crate) fn is_link_port(port: &PortPlan) -> bool
    ensures { result ≡ is_link_port port.now }
{
    match &port.vlan {
        Vlan::Access(number) => *number == DEFAULT_VLAN,
        Vlan::Trunk(_) => false,
    }
}
