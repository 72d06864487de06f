//! The ports of a live session: their ends in the order of the plan, opened and kept.

ghost use Rattle.std.specs.Prelude.{◌≡◌, ◌≤◌, ◌<◌, ◌++◌, ◌∷◌, ℕ, [], length, map, slice_index, None, IfNone, IfSome, OnSome, vec_capacity};
ghost use Rattle.std.specs.List.Sorted.{IsStrictlyIncreasing};
ghost use Rattle.savi_kinds.specs.Ports.{number_of};
ghost use Rattle.savi_kinds.specs.ValidPlan.{numbers_of};
ghost use Rattle.savi_ends.specs.Faults.{Rose};
ghost use Rattle.savi_ends.specs.Places.{BothFresh, IsPortOut, IsReady, PortKey};
ghost use Rattle.switch_ports.specs.Named.{named_by};
ghost use Rattle.switch_ports.specs.Live.{AreKept, AreOpened, IsNextOf, OthersSame};

use crate::opening::add;
use savi_ends::{Ends, World};
use savi_kinds::{Port, PortPlan};

/// Opens these ports in their order, each once, until all are open or an opening fails. The answer is the port that could
/// not be opened. The ends that are open are held in the order of the ports. O(ports).
pub fn open_live<W: World>(
    plans: &[PortPlan],
    held: &mut Vec<Ends<W::S, W::K, W::C>>,
    world: &mut W,
) -> Option<Port>
    requires rising { IsStrictlyIncreasing (numbers_of plans.now) }
    requires empty { held.old.items ≡ [] }
    requires room { length plans.now ≤ vec_capacity held.old }
    requires ready { (key : PortKey) → IsReady (BothFresh W.S.faults W.K.faults) ((W.book world.old).ports key) }
    ensures all { result ≡ None → length held.new.items ≡ length plans.now }
    ensures failed { IfSome result (λ port. IsNextOf (numbers_of plans.now) (length held.new.items) (number_of port)) }
    ensures opened { AreOpened (BothFresh W.S.faults W.K.faults) (numbers_of plans.now) (named_by plans.now (W.book world.old).ports) (named_by plans.now (W.book world.new).ports) held.new.items }
    ensures others { OthersSame (numbers_of plans.now) (length held.new.items) (W.book world.old).ports (W.book world.new).ports }
    ensures later { (W.book world.old).faults ≤ (W.book world.new).faults }
    ensures still { IfNone result ((W.book world.new).faults ≡ (W.book world.old).faults) }
    ensures once { OnSome result (Rose (W.book world.old).faults (W.book world.new).faults) }
    ensures rest { W.book world.new ≡ record (W.book world.old) { faults = (W.book world.new).faults; ports = (W.book world.new).ports } }
{
    for plan in plans {
        match world.port(plan.number, plan) {
            Ok(ends) => add(held, ends),
            Err(_) => return Some(plan.number),
        }
    }
    None
}

/// Keeps these ends, each at its own place: they are those of the first of these ports, in their order. O(ports).
pub fn keep_live<W: World>(numbers: &[Port], mut held: Vec<Ends<W::S, W::K, W::C>>, world: &mut W)
    requires rising { IsStrictlyIncreasing (map number_of numbers.now) }
    requires few { length held.items ≤ length numbers.now }
    requires out { (place : ℕ) → place < length held.items → IsPortOut (W.book world.old).ports (slice_index (map number_of numbers.now) place) }
    ensures kept { AreKept (map number_of numbers.now) (W.book world.old).ports (W.book world.new).ports held.items }
    ensures others { OthersSame (map number_of numbers.now) (length held.items) (W.book world.old).ports (W.book world.new).ports }
    ensures rest { W.book world.new ≡ record (W.book world.old) { ports = (W.book world.new).ports } }
{
    while let Some(ends) = held.pop() {
        world.keep_port(numbers[held.len()], ends);
    }
    held.destroy_empty();
}
