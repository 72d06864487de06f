//! What the workers of a port and of control have beside its ends.

ghost use Rattle.std.specs.Prelude.{◌≡◌, IfOk, IfSome, is_some, length};
ghost use Rattle.live_switch.specs.Seated.{AreSeats, IsLineSeat};

use control_reader::LineArrival;
use intake_ring::{Filler, IntakeRing, Taker};
use live_output::OutputRoom;
use parcel_ring::{ParcelFiller, ParcelRing, ParcelTaker};
use savi_kinds::{Format, Plan, Port};
use std::alloc::{AllocError, Global};
use std::sync::Wait;

/// So many arrivals of a port may wait for their judge, and so many lines for who answers them.
const RING_DEPTH: u32 = 64;

/// A port of the plan, the form of what is read and written there, room for what is written at once, and the two ends of the
/// ring by which arrivals go from the port's reader to its judge.
#[derive(Drop)]
pub(crate) struct Seat {
    pub(crate) port: Port,
    pub(crate) format: Format,
    pub(crate) room: OutputRoom,
    pub(crate) filler: ParcelFiller,
    pub(crate) taker: ParcelTaker,
}

/// A seat for each port of a plan, in its order, some 100 KB for the ring of each. `Err` is want of memory.
pub(crate) fn seats_of<R: Wait>(rt: &R, alloc: Global, plan: &Plan) -> Result<Vec<Seat>, AllocError>
    ensures { IfOk result (λ seats. AreSeats plan.now.ports (length plan.now.ports) seats.items) }
{
    let ports = plan.ports.as_slice();
    let mut seats = Vec::with_capacity(alloc, ports.len())?;
    for port in ports {
        let room = OutputRoom::make(alloc)?;
        let (filler, taker) = ParcelRing::make(rt, alloc, RING_DEPTH)?;
        seats.push_reserved(Seat {
            port: port.number,
            format: port.format,
            room,
            filler,
            taker,
        });
    }
    Ok(seats)
}

/// The two ends of the ring by which lines go from control's reader to who answers them.
#[derive(Drop)]
pub(crate) struct LineSeat {
    pub(crate) filler: Filler<LineArrival>,
    pub(crate) taker: Taker<LineArrival>,
}

/// Control's ring, some 10 KB, where there is control. `Err` is want of memory.
pub(crate) fn line_seat_of(alloc: Global, has_control: bool) -> Result<Option<LineSeat>, AllocError>
    ensures there { IfOk result (λ seat. is_some seat ≡ has_control) }
    ensures seat { IfOk result (λ seat. IfSome seat IsLineSeat) }
{
    if !has_control {
        return Ok(None);
    }
    let (filler, taker) = IntakeRing::make(alloc, RING_DEPTH)?;
    Ok(Some(LineSeat { filler, taker }))
}
