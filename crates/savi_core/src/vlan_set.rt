//! What is kept of each VLAN of a plan.

ghost use Rattle.std.specs.Prelude.{◌≡◌, ℕ, [], All, IfOk};
ghost use Rattle.savi_kinds.specs.Vlans.{vlans_of};
ghost use Rattle.savi_access.specs.Rules.{nothing_yet};
ghost use Rattle.savi_access.specs.Plans.{rules_of};
ghost use Rattle.savi_core.specs.VlanSets.{AllRepresent, AreAgedTo, vlans_of_sets};

use crate::ports::Ports;
use access_table::AccessTable;
use bridge_fdb::Fdb;
use std::alloc::{AllocError, Global};

/// What is kept of one VLAN: the states of its addresses with its open requests, and its stations.
#[derive(Drop)]
pub struct VlanSet {
    pub access: AccessTable,
    pub fdb: Fdb,
}

/// A set for each VLAN of a plan, in rising order, at most 8: nothing was told yet, and no station is known. They take all
/// their memory here, O(addresses per port) each.
pub(crate) fn make_sets(alloc: Global, ports: &Ports) -> Result<Vec<VlanSet>, AllocError>
    ensures vlans { IfOk result (λ sets. vlans_of_sets sets.items ≡ vlans_of ports.now) }
    ensures start { IfOk result (λ sets. AllRepresent (rules_of ports.now) nothing_yet [] 0 sets.items) }
    ensures ready { IfOk result (λ sets. (t : ℕ) → AreAgedTo (rules_of ports.now) t sets.items) }
    ensures unknown { IfOk result (λ sets. All (λ set. set.fdb ≡ []) sets.items) }
{
    let mut sets = Vec::with_capacity(alloc, ports.vlan_count())?;
    for place in 0..ports.vlan_count() {
        sets.push(VlanSet {
            access: AccessTable::make(alloc, ports.plan(), ports.vlan_at(place))?,
            fdb: Fdb::make(alloc)?,
        })?;
    }
    Ok(sets)
}
