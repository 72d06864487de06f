//! A ring by which the arrivals of one input go from the thread that reads them to another, in boxes that come back.
//!
//! A `Parcel` has room for one arrival, a frame of up to 1,518 octets, or for how the input ended. `ParcelRing::make` makes
//! `depth + 2` of them and gives two ends: the `ParcelFiller` puts an arrival into an empty parcel and hands that over, and
//! the `ParcelTaker` takes parcels in the order in which they were put and gives each back. There are two rings
//! (`intake_ring`), one for either way. So the octets of a frame are written once, at their own length, and what moves
//! through a ring is a pointer: by value each arrival would move its 1.5 KB a dozen times.
//!
//! The promises are those of a ring, of what came (`specs/Handed.antt`) and not of the boxes: what was taken is a prefix of
//! what was put. That a parcel is empty again isn't promised; a taker that keeps one leaves the filler with one less, and
//! with none it waits for good.
#![tactic(auto)]

mod filler;
mod parcel;
mod ring;
mod taker;

pub use filler::ParcelFiller;
pub use parcel::{Arrival, Parcel};
pub use ring::ParcelRing;
pub use taker::ParcelTaker;
