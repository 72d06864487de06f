//! What frames say of stations in their VLAN: where one goes whose destination is known, and what one teaches (IEEE 802.1Q
//! sections 8.6.3 and 8.7).

ghost use Rattle.std.specs.Prelude.{◌≡◌, ◌≤◌, ◌<◌, ◌^◌, ◌==◌, ◌&&◌, not, ℕ, List, All, map, length, true, IfSome, if◌then◌else◌};
ghost use Rattle.savi_kinds.specs.declared.verdict.Verdict.TheVariants.{Pass};
ghost use Rattle.savi_kinds.specs.Ports.{number_of};
ghost use Rattle.savi_kinds.specs.PortSets.{is_member, set_of};
ghost use Rattle.savi_kinds.specs.Vlans.{vlans_of};
ghost use Rattle.frame_class.specs.Classes.{eth_of};
ghost use Rattle.bridge_fdb.specs.Stations.{live_at};
ghost use Rattle.savi_history.specs.Stations.{port_among, taught};
ghost use Rattle.savi_history.specs.Outs.{directed, outs_by};
ghost use Rattle.savi_history.specs.Passes.{has_port};
ghost use Rattle.savi_core.specs.Origins.{IsOrigin, known_at, outs_from, teaches_at};
ghost use Rattle.savi_core.specs.Rings.{shut_in};
ghost use Rattle.savi_core.specs.VlanSets.{fdb_at, vlan_at_place, vlan_of_place, vlans_of_sets};

use crate::ports::{Origin, Ports};
use crate::queues::Queues;
use crate::vlan_set::VlanSet;
use bridge_fdb::Fdb;
use frame_class::Class;
use savi_kinds::{Moment, Port, PortSet, Scope, Verdict};

/// The port of the station that is live at moment `t` (ms) and that a frame of this class is for: `None` where there is
/// none, and for a group address. O(log n) in the stations that are kept.
fn known_port(fdb: &Fdb, class: &Class, t: Moment) -> Option<Port>
    ensures { result ≡ port_among (live_at t fdb.now) (eth_of class.now) }
{
    match class.eth() {
        Some(eth) => {
            if eth.dst.is_group() {
                None
            } else {
                fdb.place(eth.dst, t)
            }
        }
        None => None,
    }
}

/// A frame of this class with this verdict came in at moment `t` (ms, at most 2^62): where it passes, its source is learned
/// at its port in its VLAN. The cost is that of `Fdb::learn`.
pub(crate) fn teach(
    sets: &mut [VlanSet],
    origin: Origin,
    t: Moment,
    class: &Class,
    verdict: Verdict,
)
    requires moment { t ≤ 2 ^ 62 }
    requires within { IfSome origin.set (λ set. set < length sets.old) }
    ensures access { map (λ set. set.access) sets.new ≡ map (λ set. set.access) sets.old }
    ensures taught { (place : ℕ) → place < length sets.old → live_at t (fdb_at sets.new place)
        ≡ (if teaches_at origin.set verdict place then taught origin.port t (eth_of class.now) (live_at t (fdb_at sets.old place)) else live_at t (fdb_at sets.old place)) }
{
    match (origin.set, verdict) {
        (Some(set), Verdict::Pass(_)) => {
            let fdb = &mut sets[set].fdb;
            learn(fdb, origin.port, t, class);
        }
        _ => {}
    }
}

// The source of a frame of this class is learned at a port.
fn learn(fdb: &mut Fdb, port: Port, t: Moment, class: &Class)
    requires { t ≤ 2 ^ 62 }
    ensures { live_at t fdb.new ≡ taught port t (eth_of class.now) (live_at t fdb.old) }
{
    if let Some(eth) = class.eth() {
        fdb.learn(eth.src, port, t);
    }
}

/// The ports to which a frame of this class with this verdict goes, at moment `t` (ms): members of its VLAN, none of those
/// that are shut. O(log n) in the stations that are kept.
pub(crate) fn outs(
    ports: &Ports,
    sets: &[VlanSet],
    queues: &Queues,
    origin: Origin,
    t: Moment,
    class: &Class,
    verdict: Verdict,
) -> PortSet
    requires vlans { vlans_of_sets sets.now ≡ vlans_of ports.now }
    requires origin { IsOrigin ports.now origin }
    ensures known { (n : ℕ) → 1 ≤ n → is_member result n ≡ true → has_port ports.now n ≡ true }
    ensures outs { (n : ℕ) → 1 ≤ n → is_member result n ≡ (is_member (outs_from ports.now (vlan_of_place ports.now origin.set) (number_of origin.port) (known_at sets.now origin.set t (eth_of class.now)) verdict) n && not (shut_in queues.now.shut n)) }
{
    let (Some(set), Verdict::Pass(scope)) = (origin.set, verdict) else {
        return PortSet::empty();
    };
    let known = known_port(&sets[set].fdb, class, t);
    queues.not_shut(directed_outs(ports, set, scope, origin.port, known))
}

// The members of the VLAN at a place to which a frame of this scope goes from a port, by the port at which its destination
// is known; shut ports are among them.
fn directed_outs(
    ports: &Ports,
    set: usize,
    scope: Scope,
    port: Port,
    known: Option<Port>,
) -> PortSet
    requires { set < length (vlans_of ports.now) }
    ensures known { (n : ℕ) → 1 ≤ n → is_member result n ≡ true → has_port ports.now n ≡ true }
    ensures outs { result ≡ outs_by (vlan_at_place ports.now set) ports.now (number_of port) known (Pass scope) }
{
    directed(ports.others_in(set, scope, port), known)
}

/// Of a set of ports the one at which the destination of a frame is known, if it is a member; all of them where it isn't
/// known. O(1).
fn directed(set: PortSet, known: Option<Port>) -> PortSet
    ensures set { (numbers : List ℕ) → All (λ n. 1 ≤ n) numbers → set ≡ set_of numbers → result ≡ set_of (directed known numbers) }
    ensures fewer { (n : ℕ) → 1 ≤ n → is_member result n ≡ true → is_member set n ≡ true }
{
    match known {
        Some(port) => only(set, port),
        None => set,
    }
}

// Of a set of ports this one alone, if it is a member.
fn only(set: PortSet, port: Port) -> PortSet
    ensures { (n : ℕ) → 1 ≤ n → is_member result n ≡ (is_member set n && (n == number_of port)) }
{
    if set.contains(port) {
        PortSet::empty().with(port)
    } else {
        PortSet::empty()
    }
}
