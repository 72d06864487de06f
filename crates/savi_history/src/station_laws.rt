//! The laws on stations. Each function does nothing: its contract is the law.

ghost use Rattle.std.specs.Prelude.{ℕ, List, All};
ghost use Rattle.savi_kinds.specs.declared.plan.Plan.{Plan};
ghost use Rattle.hist_store.specs.Rows.{Row};
ghost use Rattle.checkpoint.specs.Bases.{Base};
ghost use Rattle.savi_history.specs.Moments.{last_moment};
ghost use Rattle.savi_history.specs.Limits.{IsWithinLimits};
ghost use Rattle.savi_history.specs.Legal.{IsLegal};
ghost use Rattle.savi_history.specs.StationLimits.{AreStationsAt};
ghost use Rattle.savi_history.specs.StationLaws.{AreDirected, IsIndividual};
ghost use Rattle.savi_history.specs.Stations.{stations};

/// In a legal history a frame stays in its VLAN and doesn't go back to the port where it came in; where its destination is
/// known there, it goes to the port of that station alone, and it does go there where it may go everywhere (IEEE 802.1Q
/// section 8.6). Without a VLAN it goes nowhere. What is known is read before the frame itself teaches anything.
pub fn frames_go_to_known_stations()
    ensures { (plan : Plan) (base : Base) (past : List Row) → IsLegal plan base past → AreDirected plan base past }
{}

/// After a legal history a MAC address is known at one port at most and at most 256 are known at a port, in each VLAN, and
/// none whose last frame is 300 s old (IEEE 802.1Q sections 8.8 and 8.8.3): so a history may go on from what another left.
pub fn stations_stay_within_limits()
    ensures { (plan : Plan) (base : Base) (past : List Row) (vlan : ℕ) → IsWithinLimits plan base → IsLegal plan base past
        → AreStationsAt (last_moment base past) (stations vlan plan base past) }
{}

/// No legal history learns a group address (IEEE 802.1Q section 8.7).
pub fn groups_are_no_stations()
    ensures { (plan : Plan) (base : Base) (past : List Row) (vlan : ℕ) → IsLegal plan base past → All IsIndividual (base.stations vlan)
        → All IsIndividual (stations vlan plan base past) }
{}
