//! The laws on stations. Each function does nothing: its contract is the law.

ghost use Rattle.bridge_fdb.specs.Laws.{KeepsLimits, StationsAgeOnce};

/// No port has more than 256 stations, and no two stations have one MAC address: so it stays when one is learned and when
/// time passes.
pub fn learning_stays_within_limits()
    ensures { KeepsLimits }
{}

/// To go to a moment and from there to a later one leaves the same stations live as to go there at once.
pub fn stations_age_once()
    ensures { StationsAgeOnce }
{}
