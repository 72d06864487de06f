//! The opening of the ports of a plan.

ghost use Rattle.std.specs.Prelude.{◌≡◌, ◌≤◌, ◌<◌, ◌++◌, ◌∷◌, [], length, All, None, IfNone, IfSome, OnSome, vec_len, vec_capacity};
ghost use Rattle.std.specs.List.Sorted.{IsStrictlyIncreasing};
ghost use Rattle.savi_kinds.specs.Ports.{number_of};
ghost use Rattle.savi_kinds.specs.ValidPlan.{numbers_of};
ghost use Rattle.savi_ends.specs.Faults.{Rose};
ghost use Rattle.savi_ends.specs.Places.{BothFresh, IsReady, PortKey};
ghost use Rattle.port_worker.specs.Replays.{ports_held, IsUnread};
ghost use Rattle.switch_ports.specs.Named.{named_by};
ghost use Rattle.switch_ports.specs.Openings.{ports_of, IsOff, IsOpened, IsNextBehind, IsReadAnew};

use pcap_io::PcapReader;
use port_worker::PortEnds;
use savi_ends::World;
use savi_kinds::{Port, PortPlan};

/// Opens these ports in their order, each once, until all are open or an opening fails. The answer is the port that could
/// not be opened.
///
/// What is open is held, each port beside its ends, and nothing was read of it. O(ports).
pub fn open_all<W: World>(
    plans: &[PortPlan],
    held: &mut Vec<PortEnds<W::S, W::K, W::C>>,
    world: &mut W,
) -> Option<Port>
    requires rising { IsStrictlyIncreasing (numbers_of plans.now) }
    requires empty { held.old.items ≡ [] }
    requires room { length plans.now ≤ vec_capacity held.old }
    requires ready { (key : PortKey) → IsReady (BothFresh W.S.faults W.K.faults) ((W.book world.old).ports key) }
    ensures all { result ≡ None → ports_held held.new.items ≡ ports_of plans.now }
    ensures failed { IfSome result (λ port. IsNextBehind port (ports_held held.new.items) (ports_of plans.now)) }
    ensures opened { All (λ p. IsOpened (BothFresh W.S.faults W.K.faults) (named_by plans.now (W.book world.old).ports (number_of p.port)) (named_by plans.now (W.book world.new).ports (number_of p.port)) p.ends) held.new.items }
    ensures unread { All IsUnread held.new.items }
    ensures readers { All IsReadAnew held.new.items }
    ensures others { (key : PortKey) → IsOff held.new.items key.number → (W.book world.new).ports key ≡ (W.book world.old).ports key }
    ensures later { (W.book world.old).faults ≤ (W.book world.new).faults }
    ensures still { IfNone result ((W.book world.new).faults ≡ (W.book world.old).faults) }
    ensures once { OnSome result (Rose (W.book world.old).faults (W.book world.new).faults) }
    ensures rest { W.book world.new ≡ record (W.book world.old) { faults = (W.book world.new).faults; ports = (W.book world.new).ports } }
{
    for plan in plans {
        match world.port(plan.number, plan) {
            Ok(ends) => add(held, PortEnds::new(plan.number, ends, PcapReader::new())),
            Err(_) => return Some(plan.number),
        }
    }
    None
}

// Adds an element for which there is room.
pub(crate) fn add<T>(items: &mut Vec<T>, item: T)
    requires { vec_len items.old < vec_capacity items.old }
    ensures items { items.new.items ≡ items.old.items ++ item ∷ [] }
    ensures capacity { vec_capacity items.old ≤ vec_capacity items.new }
{
    match items.push(item) {
        Ok(()) => {}
        Err(_) => unreachable!(),
    }
}
