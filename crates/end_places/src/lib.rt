//! The places of a world that makes its ends as they are opened, and tells nothing of them before.
//!
//! Each place is handed out once, and keeps the end that comes back: `Spot` is the place of an end of its own, `NamedSpot`
//! of the one input or output that has a name, `NamedSpots` has those of several outputs, and `PortSpots` those of sixteen
//! ports. Contracts see them as places of `savi_ends` (`specs/Spots.antt`, `NamedSpots.antt`, `ManySpots.antt`,
//! `PortPlaces.antt`).
#![tactic(auto)]

mod named_spot;
mod named_spots;
mod port_spots;
mod spot;

pub use named_spot::NamedSpot;
pub use named_spots::NamedSpots;
pub use port_spots::PortSpots;
pub use spot::Spot;
