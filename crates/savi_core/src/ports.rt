//! The ports of a plan, found by number, and those of a VLAN.

ghost use Rattle.std.specs.Prelude.{◌≡◌, ◌≢◌, ◌==◌, ◌≤◌, ◌<◌, ◌*◌, ◌+◌, length, map, true, false, List, ℕ, slice_index_or, if◌then◌else◌, Some, None, IfSome, IfNone, ◌&&◌};
ghost use Rattle.std.specs.List.{position};
ghost use Rattle.std.specs.List.Sorted.{IsStrictlyIncreasing};
ghost use Rattle.savi_kinds.specs.Ports.{number_of};
ghost use Rattle.savi_kinds.specs.PortSets.{is_member, set_of};
ghost use Rattle.savi_kinds.specs.ValidPlan.{IsValidPlan, IsWithin, numbers_of};
ghost use Rattle.savi_kinds.specs.declared.plan.PortPlan.{PortPlan};
ghost use Rattle.savi_kinds.specs.declared.plan.Role.TheVariants.{Trusted};
ghost use Rattle.savi_kinds.specs.Vlans.{IsVlan, access_vlan, is_member_of, vlan_among, vlans_of, vlans_of_ports as vlans_among};
ghost use Rattle.checkpoint.specs.BaseLines.{has_vlan};
ghost use Rattle.savi_history.specs.Vlans.{vlan_at, vlan_at_port};
ghost use Rattle.savi_history.specs.Passes.{has_port, role_of, place_of, place_among, pass_of, is_trusted};
ghost use Rattle.savi_history.specs.Outs.{is_in_scope, others_in};
ghost use Rattle.savi_core.specs.Leaving.{tag_at};
ghost use Rattle.savi_core.specs.Origins.{IsOrigin};
ghost use Rattle.savi_core.specs.PortTables.{members_among, ports_among};
ghost use Rattle.savi_core.specs.VlanSets.{vlan_at_place, vlan_of_place};

use crate::port_sets::without;
use arrayvec::ArrayVec;
use eth_frame::Tag;
use savi_kinds::{
    PORTS_MOST, Plan, Port, PortPlan, PortSet, Role, Scope, VLANS_MOST, Vlan, Who, vlans_of_ports,
};
use std::marker::Model;

/// The ports of a VLAN: its access ports, and the trunks that list it.
#[derive(Clone, Copy, PartialEq, Eq, Debug, Default)]
pub struct VlanPorts {
    pub vlan: u16,
    pub all: PortSet,
    /// Those that are trusted.
    pub trusted: PortSet,
}

/// Where a frame comes from.
#[derive(Clone, Copy, PartialEq, Eq, Debug)]
pub struct Origin {
    pub port: Port,
    /// The place of its VLAN among those of the plan; `None` where it has no VLAN at the port.
    pub set: Option<usize>,
}

/// A plan with what is asked of its ports again and again, found in O(1). Contracts see the plan, which is valid.
#[derive(Drop)]
pub struct Ports {
    plan: Plan,
    // by the number of a port
    places: [u8; PORTS_MOST + 1],
    // by the place of a VLAN among those of the plan, in rising order
    vlans: ArrayVec<VlanPorts, VLANS_MOST>,
}

impl Model for Ports {
    ghost use Rattle.savi_kinds.specs.declared.plan.Plan.{Plan};
    ghost use Rattle.savi_core.specs.PortTables.{IsPortTable};

    ghost Value = { Plan };

    ghost view = { λ p. p.plan };

    ghost invariant = { λ p. IsPortTable (record { plan = p.plan; places = p.places; vlans = p.vlans.items }) };
}

impl Ports {
    /// The ports of this plan. O(ports), at most 16, for each VLAN.
    pub fn make(plan: Plan) -> Ports
        requires { IsValidPlan plan }
        ensures { result ≡ plan }
    {
        let places = places_of(plan.ports.as_slice());
        let vlans = ports_by_vlan(plan.ports.as_slice());
        Ports {
            plan,
            places,
            vlans,
        }
    }

    /// The plan. O(1).
    pub fn plan(&self) -> &Plan
        ensures plan { result.now ≡ self.now }
        ensures valid { IsValidPlan self.now }
    {
        &self.plan
    }

    /// The place of a port among those of the plan, or their number where it is none of them. O(1).
    pub fn place_of(&self, port: Port) -> usize
        ensures place { result ≡ place_of self.now (number_of port) }
        ensures within { result ≤ length self.now.ports }
    {
        self.places[port.get() as usize] as usize
    }

    // The port of this number, where the plan has it.
    fn port_of(&self, port: Port) -> Option<&PortPlan>
        ensures valid { IsValidPlan self.now }
        ensures role { IfSome result (λ own. (has_port self.now (number_of port) ≡ true) × (own.now.role ≡ role_of self.now (number_of port))) }
        ensures vlan { IfSome result (λ own. vlan_among self.now.ports (number_of port) ≡ Some own.now.vlan) }
        ensures none { IfNone result ((has_port self.now (number_of port) ≡ false) × (vlan_among self.now.ports (number_of port) ≡ None)) }
    {
        self.plan.ports.as_slice().get(self.place_of(port))
    }

    /// The role of a port, or `None` where the plan doesn't have it. O(1).
    pub fn role_of(&self, port: Port) -> Option<Role>
        ensures { result ≡ (if has_port self.now (number_of port) then Some (role_of self.now (number_of port)) else None) }
    {
        let own = self.port_of(port)?;
        Some(own.role)
    }

    /// The number of a pass: the ingress of each port, control, the ticker, and the egress of each port. O(1).
    pub fn pass_of(&self, who: Who) -> u32
        ensures { result ≡ pass_of self.now who }
    {
        let ports = self.plan.ports.as_slice().len() as u32;
        match who {
            Who::Ingress(port) => self.place_of(port) as u32,
            Who::Control => ports,
            Who::Ticker => ports + 1,
            Who::Egress(port) => ports + 2 + self.place_of(port) as u32,
        }
    }

    /// How many VLANs the plan has: 1 to 8. O(1).
    pub fn vlan_count(&self) -> usize
        ensures count { result ≡ length (vlans_of self.now) }
        ensures few { IsWithin 1 8 result }
    {
        self.vlans.len()
    }

    /// The VLAN at a place among those of the plan, in rising order. O(1).
    pub fn vlan_at(&self, place: usize) -> u16
        requires { place < length (vlans_of self.now) }
        ensures vlan { result ≡ vlan_at_place self.now place }
        ensures number { IsVlan result }
    {
        self.ports_at(place).vlan
    }

    // The ports of the VLAN at a place.
    fn ports_at(&self, place: usize) -> VlanPorts
        requires { place < length (vlans_of self.now) }
        ensures ports { result ≡ ports_among self.now.ports (vlan_at_place self.now place) }
        ensures valid { IsValidPlan self.now }
    {
        let vlans = self.vlans.as_slice();
        vlans[place]
    }

    /// The place of a VLAN among those of the plan; `None` where no port has it. O(VLANs), at most 8.
    pub fn place_of_vlan(&self, vlan: u16) -> Option<usize>
        ensures within { IfSome result (λ place. place < length (vlans_of self.now)) }
        ensures found { IfSome result (λ place. vlan_at_place self.now place ≡ vlan) }
        ensures none { IfNone result (has_vlan self.now vlan ≡ false) }
        ensures some { IfSome result (λ place. has_vlan self.now vlan ≡ true) }
    {
        place_in(self.vlans.as_slice(), vlan)
    }

    /// The place of the VLAN of a port whose sources are validated; `None` at another one. O(VLANs), at most 8.
    pub fn place_of_access(&self, port: Port) -> Option<usize>
        ensures within { IfSome result (λ place. place < length (vlans_of self.now)) }
        ensures vlan { vlan_of_place self.now result ≡ access_vlan self.now (number_of port) }
    {
        let own = self.port_of(port)?;
        if is_trusted(own.role) {
            return None;
        }
        match own.vlan {
            Vlan::Access(vlan) => self.place_of_vlan(vlan),
            Vlan::Trunk(_) => None,
        }
    }

    // The VLAN of a frame with this tag at a port: at an access port that of the port where the frame has no tag, at a trunk
    // that of the tag where the trunk lists it (IEEE 802.1Q section 6.9); `None` otherwise.
    fn vlan_of(&self, port: Port, tag: Tag) -> Option<u16>
        ensures { result ≡ vlan_at_port (vlan_among self.now.ports (number_of port)) tag }
    {
        let own = self.port_of(port)?;
        taken_in(&own.vlan, tag)
    }

    /// Where a frame with this tag comes from that came in at a port. O(VLANs), at most 8.
    pub fn origin_of(&self, port: Port, tag: Tag) -> Origin
        ensures port { result.port ≡ port }
        ensures vlan { vlan_of_place self.now result.set ≡ vlan_at_port (vlan_among self.now.ports (number_of port)) tag }
        ensures origin { IsOrigin self.now result }
    {
        Origin {
            port,
            set: self.set_of(port, tag),
        }
    }

    // The place of the VLAN of a frame with this tag that came in at a port.
    fn set_of(&self, port: Port, tag: Tag) -> Option<usize>
        ensures within { IfSome result (λ place. place < length (vlans_of self.now)) }
        ensures vlan { vlan_of_place self.now result ≡ vlan_at_port (vlan_among self.now.ports (number_of port)) tag }
        ensures own { role_of self.now (number_of port) ≢ Trusted → IfSome result (λ place. access_vlan self.now (number_of port) ≡ Some (vlan_at_place self.now place)) }
    {
        let own = self.port_of(port)?;
        let vlan = taken_in(&own.vlan, tag)?;
        self.place_of_vlan(vlan)
    }

    /// The VLAN whose tag a frame of a VLAN has as it goes out at a port: at a trunk its own, at an access port none. O(1).
    pub fn tag_at(&self, port: Port, vlan: Option<u16>) -> Option<u16>
        ensures { result ≡ tag_at (vlan_among self.now.ports (number_of port)) vlan }
    {
        let own = self.port_of(port)?;
        match own.vlan {
            Vlan::Access(_) => None,
            Vlan::Trunk(_) => vlan,
        }
    }

    /// The VLAN whose tag a frame has as it goes out at a port, that came in at another one with this tag: at a trunk its
    /// own, at an access port none (IEEE 802.1Q section 8.1.7). O(1).
    pub fn tag_behind(&self, port: Port, from: Port, tag: Tag) -> Option<u16>
        ensures { result ≡ tag_at (vlan_among self.now.ports (number_of port)) (vlan_at_port (vlan_among self.now.ports (number_of from)) tag) }
    {
        let own = self.port_of(port)?;
        if !own.vlan.is_trunk() {
            return None;
        }
        self.vlan_of(from, tag)
    }

    /// The members of the VLAN at a place that are in a scope, without one port. O(1).
    pub fn others_in(&self, set: usize, scope: Scope, port: Port) -> PortSet
        requires { set < length (vlans_of self.now) }
        ensures set { result ≡ set_of (numbers_of (others_in (vlan_at_place self.now set) self.now scope (number_of port))) }
        ensures known { (n : ℕ) → 1 ≤ n → is_member result n ≡ true → has_port self.now n ≡ true }
    {
        without(in_scope(self.ports_at(set), scope), port)
    }
}

// The place of a VLAN among these.
fn place_in(vlans: &[VlanPorts], vlan: u16) -> Option<usize>
    ensures { result ≡ position (λ ports. ports.vlan == vlan) vlans.now }
{
    vlans.iter().position(|ports| ports.vlan == vlan)
}

// The VLAN of a frame with this tag at a port of these VLANs.
fn taken_in(own: &Vlan, tag: Tag) -> Option<u16>
    ensures { result ≡ vlan_at own.now tag }
{
    match (own, tag) {
        (Vlan::Access(vlan), Tag::None) => Some(*vlan),
        (Vlan::Trunk(vlans), Tag::Vid(vlan)) => vlans.as_slice().contains(&vlan).then_some(vlan),
        _ => None,
    }
}

// The members of a VLAN that are in a scope.
fn in_scope(ports: VlanPorts, scope: Scope) -> PortSet
    ensures { (all : List PortPlan) (vlan : ℕ) → ports ≡ ports_among all vlan → result ≡ members_among vlan all scope }
{
    match scope {
        Scope::All => ports.all,
        Scope::TrustedOnly => ports.trusted,
        Scope::TrustedAnd(port) => {
            if ports.all.contains(port) {
                ports.trusted.with(port)
            } else {
                ports.trusted
            }
        }
    }
}

// The place of each port, by its number; at the other numbers how many ports there are.
fn places_of(ports: &[PortPlan]) -> [u8; PORTS_MOST + 1]
    requires few { length ports.now ≤ 16 }
    requires rising { IsStrictlyIncreasing (numbers_of ports.now) }
    ensures { (number : ℕ) → number ≤ 16 → slice_index_or result number 0 ≡ place_among (numbers_of ports.now) number }
{
    let mut places = [ports.len() as u8; PORTS_MOST + 1];
    for (place, port) in ports.iter().enumerate() {
        places[port.number.get() as usize] = place as u8;
    }
    places
}

// The ports of each VLAN, in rising order of VLAN.
fn ports_by_vlan(ports: &[PortPlan]) -> ArrayVec<VlanPorts, VLANS_MOST>
    requires { length (vlans_among ports.now) ≤ 8 }
    ensures { result.items ≡ map (ports_among ports.now) (vlans_among ports.now) }
{
    let Some(vlans) = vlans_of_ports(ports) else {
        unreachable!()
    };
    let mut by_vlan = ArrayVec::new();
    for vlan in vlans.as_slice() {
        by_vlan.push(VlanPorts {
            vlan: *vlan,
            all: members(ports, *vlan, Scope::All),
            trusted: members(ports, *vlan, Scope::TrustedOnly),
        });
    }
    by_vlan
}

// The members of a VLAN that are in a scope.
fn members(ports: &[PortPlan], vlan: u16, scope: Scope) -> PortSet
    ensures { result ≡ members_among vlan ports.now scope }
{
    let mut set = PortSet::empty();
    for port in ports {
        if is_chosen(vlan, scope, port) {
            set = set.with(port.number);
        }
    }
    set
}

// Whether a port is a member of a VLAN and in a scope.
fn is_chosen(vlan: u16, scope: Scope, other: &PortPlan) -> bool
    ensures { result ≡ (is_member_of vlan other.now && is_in_scope scope other.now) }
{
    other.is_member_of(vlan) && is_in_scope(scope, other)
}

// Whether a port is in a scope.
fn is_in_scope(scope: Scope, other: &PortPlan) -> bool
    ensures { result ≡ is_in_scope scope other.now }
{
    match scope {
        Scope::All => true,
        Scope::TrustedOnly => is_trusted(other.role),
        Scope::TrustedAnd(port) => is_trusted(other.role) || other.number.get() == port.get(),
    }
}

/// Whether a port of this role is trusted. O(1).
pub fn is_trusted(role: Role) -> bool
    ensures { result ≡ is_trusted role }
{
    match role {
        Role::Host | Role::Server => false,
        Role::Trusted => true,
    }
}
