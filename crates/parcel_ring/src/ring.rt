//! How both rings are made and closed.
ghost use Rattle.std.specs.Prelude.{◌≡◌, ◌<◌, [], IfOk};
ghost use mathlib.Core.List.{IsPrefix};
ghost use Rattle.parcel_ring.specs.Sides.{AreTwoEnds, was_put, was_taken};

use crate::filler::ParcelFiller;
use crate::parcel::Parcel;
use crate::taker::ParcelTaker;
use intake_ring::IntakeRing;
use std::alloc::{AllocError, Global};
use std::sync::Wait;

/// There are so many more parcels than the ring has room for: one that is filled while another is read.
const IN_HANDS: u32 = 2;

/// The making and the closing of rings of parcels.
pub struct ParcelRing;

impl ParcelRing {
    /// A ring with room for `depth` arrivals, at least 1, as its two ends, with `depth + 2` parcels. It takes all its memory
    /// here, 1.5 KB for each parcel, and is refused for want of memory alone. It doesn't wait.
    pub fn make<R: Wait>(
        rt: &R,
        alloc: Global,
        depth: u32,
    ) -> Result<(ParcelFiller, ParcelTaker), AllocError>
        requires { 0 < depth }
        ensures ends { IfOk result (λ r. AreTwoEnds r.0 r.1) }
        ensures new { IfOk result (λ r. (was_put r.0 ≡ []) × (was_taken r.1 ≡ [])) }
    {
        let parcels = depth.saturating_add(IN_HANDS);
        let (filler, taker) = IntakeRing::make(alloc, depth)?;
        let (mut giver, spare) = IntakeRing::make(alloc, parcels)?;
        for _ in 0..parcels {
            giver.put(rt, Box::new(alloc, Parcel::new())?);
        }
        let filler = ParcelFiller {
            full: filler,
            spare,
        };
        let taker = ParcelTaker {
            full: taker,
            spare: giver,
        };
        Ok((filler, taker))
    }

    /// Takes both ends back: what was taken is a prefix of what was put. What is still on the way is let go. O(depth).
    pub fn close<R: Wait>(rt: &R, filler: ParcelFiller, taker: ParcelTaker)
        requires { AreTwoEnds filler taker }
        ensures { IsPrefix (was_taken taker) (was_put filler) }
    {
        let ParcelFiller { full, spare } = filler;
        let ParcelTaker {
            full: taker,
            spare: giver,
        } = taker;
        IntakeRing::close(rt, full, taker);
        IntakeRing::close(rt, giver, spare);
    }
}
