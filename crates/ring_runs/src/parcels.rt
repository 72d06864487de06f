//! Frames, in parcels.
ghost use Rattle.std.specs.Prelude.{◌≡◌, ◌≤◌};
ghost use Rattle.parcel_ring.specs.Sides.{filler_rings, taker_rings};

use crate::numbers::FILLED_WITHIN_MS;
use parcel_ring::{Arrival, Parcel, ParcelFiller, ParcelRing, ParcelTaker};
use savi_kinds::{FRAME_OCTETS_MOST, How};
use std::alloc::{AllocError, Global};
use std::sync::Wait;
use std::thread::{Threads, join, sleep};
use std::time::{Clock, Duration};

/// Each octet of the frames.
const OCTET: u8 = 7;

/// What came where a frame with some number should come.
enum Came {
    InTurn,
    OutOfTurn,
    End,
}

// How many octets the frame with this number has: as many, up to 1,518.
fn frame_octets(number: u64) -> usize
    ensures { result ≤ FRAME_OCTETS_MOST }
{
    number.min(FRAME_OCTETS_MOST as u64) as usize
}

// Puts so many frames, each with its number as the stamp, and then the end.
fn put_frames<R: Wait>(rt: &R, filler: ParcelFiller, count: u32) -> ParcelFiller
    ensures { filler_rings result ≡ filler_rings filler }
{
    let octets = [OCTET; FRAME_OCTETS_MOST];
    let mut filler = filler;
    for number in 0..u64::from(count) {
        filler.put_frame(rt, number, &octets[..frame_octets(number)]);
    }
    filler.put_end(rt, How::End);
    filler
}

// Whether what is in a parcel is the frame with this number.
fn look_at(parcel: &Parcel, number: u64) -> Came {
    match parcel.arrival() {
        Arrival::Frame { stamp, octets } => {
            let is_whole = octets.len() == frame_octets(number);
            if stamp == number && is_whole && octets.iter().all(|octet| *octet == OCTET) {
                Came::InTurn
            } else {
                Came::OutOfTurn
            }
        }
        Arrival::Long { .. } => Came::OutOfTurn,
        Arrival::End(_) => Came::End,
    }
}

// Takes what comes until the end. The answer is also how many frames came in their turn.
fn take_frames<R: Wait>(rt: &R, taker: ParcelTaker) -> (ParcelTaker, u64)
    ensures { taker_rings result.0 ≡ taker_rings taker }
{
    let mut taker = taker;
    let mut in_order = 0u64;
    for _ in rt.forever() {
        let Some(parcel) = taker.take(rt) else {
            continue;
        };
        let came = look_at(&parcel, in_order);
        taker.give_back(rt, parcel);
        match came {
            Came::InTurn => in_order = in_order.saturating_add(1),
            Came::OutOfTurn => {}
            Came::End => return (taker, in_order),
        }
    }
    unreachable!()
}

/// Hands frames from one thread to another by a ring of this depth, which is filled first. The answer is how many came in
/// their turn, whole, before the end came.
pub fn hand_over_frames<R: Threads + Wait + Clock + Sync>(
    rt: &R,
    alloc: Global,
    depth: u32,
    count: u32,
) -> Result<u64, AllocError> {
    let (filler, taker) = ParcelRing::make(rt, alloc, depth.max(1))?;
    let (filler, (taker, in_order)) = join(
        rt,
        move || -> ParcelFiller
            ensures { filler_rings result ≡ filler_rings filler }
        { put_frames(rt, filler, count) },
        move || -> (ParcelTaker, u64)
            ensures { taker_rings result.0 ≡ taker_rings taker }
        {
            sleep(rt, Duration::from_millis(FILLED_WITHIN_MS));
            take_frames(rt, taker)
        },
    );
    ParcelRing::close(rt, filler, taker);
    Ok(in_order)
}
