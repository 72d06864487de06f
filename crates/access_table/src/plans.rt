// What a plan says of ports and addresses.

ghost use Rattle.std.specs.Prelude.{◌≡◌, ◌≤◌};
ghost use Rattle.savi_kinds.specs.Ports.{number_of};
ghost use Rattle.savi_kinds.specs.ValidPlan.{IsValidPlan};
ghost use Rattle.nd_read.specs.InPrefix.{lies_in};
ghost use Rattle.ra_guard.specs.GuardOf.{is_validating};
ghost use Rattle.savi_access.specs.Plans.{role_of, method_in};

use savi_kinds::{Addr, Method, Plan, Port, Prefix, Role};

/// The role of a port of the plan. O(ports), at most 16.
pub fn role_of(plan: &Plan, port: Port) -> Role
    ensures { result ≡ role_of plan.now (number_of port) }
{
    for p in plan.ports.as_slice() {
        if p.number.get() == port.get() {
            return p.role;
        }
    }
    Role::Host
}

/// Whether the sources of a port of this role are validated.
pub fn is_validating(role: Role) -> bool
    ensures { result ≡ is_validating role }
{
    match role {
        Role::Host | Role::Server => true,
        Role::Trusted => false,
    }
}

/// How an address is assigned in a VLAN: by first come where it is link-local (RFC 4291 section 2.5.6), else by the method
/// of the prefix of the VLAN in which it lies. None where it isn't on-link there. O(prefixes), at most 32.
pub fn method_of(plan: &Plan, vlan: u16, a: Addr) -> Option<Method>
    requires { IsValidPlan plan.now }
    ensures { result ≡ method_in plan.now vlan a.0 }
{
    if lies_in(a, Prefix::LINK_LOCAL) {
        return Some(Method::Fcfs);
    }
    for p in plan.prefixes.as_slice() {
        if p.vlan == vlan && lies_in(a, p.prefix) {
            return Some(p.method);
        }
    }
    None
}

// Whether an address lies in a prefix.
fn lies_in(a: Addr, prefix: Prefix) -> bool
    requires short { 1 ≤ prefix.len }
    requires long { prefix.len ≤ 128 }
    ensures { result ≡ lies_in a.0 prefix }
{
    prefix.net.0 <= a.0 && a.0 - prefix.net.0 < 1 << (128 - prefix.len)
}
