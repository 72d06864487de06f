//! The end at which arrivals are put.
ghost use Rattle.std.specs.Prelude.{◌≡◌, ◌<◌, ◌≤◌, [], ◌∷◌, ◌++◌, length};
ghost use Rattle.savi_kinds.specs.Arrivals.{Frame, Long};
ghost use Rattle.intake_ring.specs.Sides.{taker_ring};
ghost use Rattle.parcel_ring.specs.Handed.{Arrived, Ended, IsReadEnd};
ghost use Rattle.parcel_ring.specs.Sides.{filler_rings, was_put};

use crate::parcel::Parcel;
use intake_ring::{Filler, Taker};
use savi_kinds::{FRAME_OCTETS_MOST, How};
use std::sync::Wait;

/// The end of the rings at which arrivals are put. Where no parcel is empty or the ring is full, it waits asleep for the
/// other end.
#[derive(Drop)]
pub struct ParcelFiller {
    pub(crate) full: Filler<Box<Parcel>>,
    pub(crate) spare: Taker<Box<Parcel>>,
}

impl ParcelFiller {
    /// Puts a frame behind what was put before; the stamp is in ms. O(n) in its octets.
    pub fn put_frame<R: Wait>(&mut self, rt: &R, stamp: u64, octets: &[u8])
        requires { length octets.now ≤ FRAME_OCTETS_MOST }
        ensures rings { filler_rings self.new ≡ filler_rings self.old }
        ensures put { was_put self.new ≡ was_put self.old ++ Arrived (Frame stamp octets.now) ∷ [] }
    {
        let mut parcel = self.next_spare(rt);
        parcel.set_frame(stamp, octets);
        self.full.put(rt, parcel);
    }

    /// Puts a longer frame, whose octets were passed over, behind what was put before; the stamp is in ms. O(1).
    pub fn put_long<R: Wait>(&mut self, rt: &R, stamp: u64, len: u32)
        requires { FRAME_OCTETS_MOST < len }
        ensures rings { filler_rings self.new ≡ filler_rings self.old }
        ensures put { was_put self.new ≡ was_put self.old ++ Arrived (Long stamp len) ∷ [] }
    {
        let mut parcel = self.next_spare(rt);
        parcel.set_long(stamp, len);
        self.full.put(rt, parcel);
    }

    /// Puts how the input ended behind what was put before: `End`, `Malformed` or `Failed`. O(1).
    pub fn put_end<R: Wait>(&mut self, rt: &R, how: How)
        requires { IsReadEnd how }
        ensures rings { filler_rings self.new ≡ filler_rings self.old }
        ensures put { was_put self.new ≡ was_put self.old ++ Ended how ∷ [] }
    {
        let mut parcel = self.next_spare(rt);
        parcel.set_end(how);
        self.full.put(rt, parcel);
    }

    // A parcel that came back.
    fn next_spare<R: Wait>(&mut self, rt: &R) -> Box<Parcel>
        ensures full { self.new.full ≡ self.old.full }
        ensures spare { taker_ring self.new.spare ≡ taker_ring self.old.spare }
    {
        for _ in rt.forever() {
            if let Some(parcel) = self.spare.take(rt) {
                return parcel;
            }
        }
        unreachable!()
    }
}
