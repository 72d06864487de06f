//! By what the VLANs are kept apart. Each function does nothing: its contract is the law.

ghost use Rattle.v4_snoop.specs.Laws.{HaveOwnIds, HaveOwnKeys};

/// Law: no two addresses in VLANs have one key, so that a lease is of one VLAN.
pub fn addresses_have_keys_of_their_own()
    ensures { HaveOwnKeys }
{}

/// Law: no two clients in VLANs have one id, so that a request is of one VLAN.
pub fn clients_have_ids_of_their_own()
    ensures { HaveOwnIds }
{}
