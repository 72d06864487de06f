//! The keeping of the ports that are held.

ghost use Rattle.std.specs.Prelude.{◌≡◌, All};
ghost use Rattle.savi_kinds.specs.Ports.{number_of};
ghost use Rattle.savi_ends.specs.Places.{IsPortKept, IsPortOut, PortKey};
ghost use Rattle.switch_ports.specs.Openings.{HaveOwnNumbers, IsOff};

use port_worker::PortEnds;
use savi_ends::World;

/// Keeps the ends of each of these ports at its own place. O(ports).
pub fn keep_all<W: World>(mut held: Vec<PortEnds<W::S, W::K, W::C>>, world: &mut W)
    requires apart { HaveOwnNumbers held.items }
    requires out { All (λ p. IsPortOut (W.book world.old).ports (number_of p.port)) held.items }
    ensures kept { All (λ p. IsPortKept (W.book world.old).ports (W.book world.new).ports (number_of p.port) p.ends) held.items }
    ensures others { (key : PortKey) → IsOff held.items key.number → (W.book world.new).ports key ≡ (W.book world.old).ports key }
    ensures rest { W.book world.new ≡ record (W.book world.old) { ports = (W.book world.new).ports } }
{
    while let Some(one) = held.pop() {
        let (port, ends) = one.into_parts();
        world.keep_port(port, ends);
    }
    held.destroy_empty();
}
