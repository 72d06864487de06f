//! The places of sixteen ports.

ghost use Rattle.std.specs.Prelude.{◌≡◌, ℕ, true, Some, IfOk, option_map, vec_len};
ghost use Rattle.savi_ends.specs.Places.{Place, OthersStay};
ghost use Rattle.savi_kinds.specs.Ports.{number_of};

use crate::spot::Spot;
use savi_kinds::{PORTS_MOST, Port};
use std::alloc::{AllocError, Global};

/// A place for each port number.
#[derive(Drop)]
pub struct PortSpots<X> {
    spots: Vec<Spot<X>>,
    ghost sixteen: { vec_len spots ≡ 16 },
}

impl<X: Drop> PortSpots<X> {
    ghost use Rattle.end_places.specs.PortPlaces.{port_place};
    ghost use Rattle.end_places.specs.Spots.{unopened};

    /// Places whose ends weren't handed out yet. `Err` is want of memory.
    pub fn make(alloc: Global) -> Result<PortSpots<X>, AllocError>
        ensures { IfOk result (λ p. (n : ℕ) → port_place p n ≡ unopened) }
    {
        let mut spots = Vec::with_capacity(alloc, PORTS_MOST)?;
        for _ in 0..PORTS_MOST {
            spots.push(Spot::new())?;
        }
        Ok(PortSpots { spots })
    }

    /// Notes that the ends of a port were handed out.
    pub fn hand_out(&mut self, port: Port)
        ensures out { (port_place self.new (number_of port)).is_out ≡ true }
        ensures others { OthersStay (port_place self.old) (port_place self.new) (number_of port) }
    {
        self.spots[usize::from(port.get()) - 1].hand_out();
    }

    /// Keeps the ends of a port.
    pub fn keep(&mut self, port: Port, ends: X)
        requires { (port_place self.old (number_of port)).is_out ≡ true }
        ensures kept { (port_place self.new (number_of port)).stands ≡ Some ends }
        ensures others { OthersStay (port_place self.old) (port_place self.new) (number_of port) }
    {
        self.spots[usize::from(port.get()) - 1].keep(ends);
    }

    /// The ends of a port that were kept, if any were.
    pub fn kept(&self, port: Port) -> Option<&X>
        ensures { option_map (λ end. end.now) result ≡ (port_place self.now (number_of port)).stands }
    {
        self.spots[usize::from(port.get()) - 1].kept()
    }
}
