//! Sets of ports, member by member.

ghost use Rattle.std.specs.Prelude.{◌≡◌, ◌≤◌, ◌<◌, ◌==◌, ◌&&◌, not, true, false, ℕ, MatchOption, IfSome};
ghost use Rattle.savi_kinds.specs.Ports.{number_of};
ghost use Rattle.savi_kinds.specs.PortSets.{is_member, no_ports};

use savi_kinds::{Port, PortSet};

/// The lowest port of a set, or `None` where the set has none. O(1).
pub fn first(set: PortSet) -> Option<Port>
    ensures member { MatchOption result (set ≡ no_ports) (λ port. is_member set (number_of port) ≡ true) }
    ensures lowest { IfSome result (λ port. (n : ℕ) → 1 ≤ n → n < number_of port → is_member set n ≡ false) }
{
    if set.0 == 0 {
        return None;
    }
    Port::new(set.0.trailing_zeros() as u8 + 1)
}

/// The set without this port. O(1).
pub fn without(set: PortSet, port: Port) -> PortSet
    ensures members { (n : ℕ) → 1 ≤ n → is_member result n ≡ (is_member set n && not (n == number_of port)) }
    ensures fewer { is_member set (number_of port) ≡ true → result.0 < set.0 }
{
    PortSet(set.0 & !(1 << (port.get() - 1)))
}

/// The set without the members of another one. O(1).
pub fn minus(set: PortSet, other: PortSet) -> PortSet
    ensures { (n : ℕ) → 1 ≤ n → is_member result n ≡ (is_member set n && not (is_member other n)) }
{
    PortSet(set.0 & !other.0)
}
