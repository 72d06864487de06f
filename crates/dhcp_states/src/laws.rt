//! The laws on requests and bindings. Each function does nothing: its contract is the law.

ghost use Rattle.dhcp_states.specs.Laws.{KeepsLimits, NamesAsker, OpenAgesOnce, BindingAgesOnce};

/// At most one open request has a given transaction id and DUID, over all ports, and no port has more than 16.
pub fn open_requests_stay_within_limits()
    ensures { KeepsLimits }
{}

/// A Reply is for the port that asked with its transaction id and DUID, and for no other.
pub fn replies_name_the_asker()
    ensures { NamesAsker }
{}

/// To go to a moment and from there to a later one leaves the same requests open as to go there at once.
pub fn open_requests_age_once()
    ensures { OpenAgesOnce }
{}

/// To age a binding to a moment and from there to a later one is to age it to the later one at once.
pub fn bindings_age_once()
    ensures { BindingAgesOnce }
{}
