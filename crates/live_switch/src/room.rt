//! All memory of a session.

ghost use Rattle.std.specs.Prelude.{◌≡◌, ◌≤◌, [], IfOk, IfSome, is_some, length, vec_capacity};
ghost use Rattle.savi_kinds.specs.ValidPlan.{IsValidPlan};
ghost use Rattle.live_switch.specs.Seated.{AreSeats, IsLineSeat};
ghost use Rattle.live_switch.specs.Beginnings.{IsLocked};

use crate::open::{OpenPasses, open_passes};
use crate::seats::{LineSeat, Seat, line_seat_of, seats_of};
use crate::services::PortService;
use crate::turns_told::TurnCounts;
use arrayvec::ArrayVec;
use core_keep::KeptCore;
use hist_store::{JournalLine, put_header};
use journal_write::{Buffer, JOURNAL_PIECE_OCTETS};
use live_turns::PauseSignal;
use port_reader::Reader;
use savi_core::Reply;
use savi_kinds::Plan;
use std::alloc::{AllocError, Global};
use std::sync::Wait;
use table_lock::{Pass, TableLock};

/// All that a session takes memory for: a seat for each port and for control, room for a reply and for what waits for the
/// journal, the signal of a pause, the counts of turns, room for the readers and for what serves the ports, and a new switch
/// under the lock of its first segment.
pub(crate) struct Room<S, K, C> {
    pub(crate) seats: Vec<Seat>,
    pub(crate) line_seat: Option<LineSeat>,
    pub(crate) reply: Reply,
    pub(crate) buffer: Buffer,
    pub(crate) signal: PauseSignal,
    pub(crate) counts: TurnCounts,
    pub(crate) readers: Vec<Reader<S, C>>,
    pub(crate) services: Vec<PortService<K>>,
    pub(crate) first: Locked,
}

/// A switch under its lock, the passes of its workers, which of them go on, and the header of its journal.
pub(crate) struct Locked {
    pub(crate) lock: TableLock<KeptCore>,
    pub(crate) passes: Vec<Pass>,
    pub(crate) going: OpenPasses,
    pub(crate) header: JournalLine,
}

/// All memory of a session of this plan, with control or without. `Err` is want of memory. Nothing is read or written.
pub(crate) fn room_for<R: Wait, S: Drop, K: Drop, C: Drop>(
    rt: &R,
    alloc: Global,
    plan: Plan,
    has_control: bool,
) -> Result<Room<S, K, C>, AllocError>
    requires valid { IsValidPlan plan }
    ensures seats { IfOk result (λ room. AreSeats plan.ports (length plan.ports) room.seats.items) }
    ensures there { IfOk result (λ room. is_some room.line_seat ≡ has_control) }
    ensures line_seat { IfOk result (λ room. IfSome room.line_seat IsLineSeat) }
    ensures buffer { IfOk result (λ room. room.buffer ≡ record { octets = []; room = 131072 }) }
    ensures readers { IfOk result (λ room. (room.readers.items ≡ []) × (length plan.ports ≤ vec_capacity room.readers)) }
    ensures services { IfOk result (λ room. (room.services.items ≡ []) × (length plan.ports ≤ vec_capacity room.services)) }
    ensures first { IfOk result (λ room. IsLocked plan room.first) }
{
    let count = plan.ports.as_slice().len();
    let rings = rings_for(rt, alloc, &plan, has_control)?;
    let written = room_to_write(alloc)?;
    let lists = lists_for(alloc, count)?;
    let counts = TurnCounts::make(alloc)?;
    let first = lock_new_switch(alloc, plan)?;
    let Rings {
        seats,
        line_seat,
        signal,
    } = rings;
    let (reply, buffer) = written;
    let (readers, services) = lists;
    Ok(Room {
        seats,
        line_seat,
        reply,
        buffer,
        signal,
        counts,
        readers,
        services,
        first,
    })
}

// The seats at the rings of a session, and the signal of a pause.
#[derive(Drop)]
struct Rings {
    seats: Vec<Seat>,
    line_seat: Option<LineSeat>,
    signal: PauseSignal,
}

// The rings of a session of this plan, with control or without. `Err` is want of memory.
fn rings_for<R: Wait>(
    rt: &R,
    alloc: Global,
    plan: &Plan,
    has_control: bool,
) -> Result<Rings, AllocError>
    requires valid { IsValidPlan plan.now }
    ensures seats { IfOk result (λ rings. AreSeats plan.now.ports (length plan.now.ports) rings.seats.items) }
    ensures there { IfOk result (λ rings. is_some rings.line_seat ≡ has_control) }
    ensures line_seat { IfOk result (λ rings. IfSome rings.line_seat IsLineSeat) }
{
    let seats = seats_of(rt, alloc, plan)?;
    let line_seat = line_seat_of(alloc, has_control)?;
    let signal = signal_of(seats.as_slice(), &line_seat)?;
    Ok(Rings {
        seats,
        line_seat,
        signal,
    })
}

// Room for a reply, and for what waits for the journal. `Err` is want of memory.
fn room_to_write(alloc: Global) -> Result<(Reply, Buffer), AllocError>
    ensures { IfOk result (λ room. room.1 ≡ record { octets = []; room = 131072 }) }
{
    let reply = Reply::make(alloc)?;
    let buffer = Buffer::make(alloc, JOURNAL_PIECE_OCTETS)?;
    Ok((reply, buffer))
}

// Room for the readers of so many ports, and for what serves them. `Err` is want of memory.
fn lists_for<S: Drop, K: Drop, C: Drop>(
    alloc: Global,
    count: usize,
) -> Result<(Vec<Reader<S, C>>, Vec<PortService<K>>), AllocError>
    ensures readers { IfOk result (λ lists. (lists.0.items ≡ []) × (count ≤ vec_capacity lists.0)) }
    ensures services { IfOk result (λ lists. (lists.1.items ≡ []) × (count ≤ vec_capacity lists.1)) }
{
    let readers = Vec::with_capacity(alloc, count)?;
    let services = Vec::with_capacity(alloc, count)?;
    Ok((readers, services))
}

// The signal that wakes who takes at each ring. `Err` is want of memory.
fn signal_of(seats: &[Seat], line_seat: &Option<LineSeat>) -> Result<PauseSignal, AllocError>
    requires { length seats.now ≤ 16 }
{
    let mut sleepers = ArrayVec::new();
    for seat in seats {
        sleepers.push(Some(seat.taker.sleeper()?));
    }
    if let Some(seat) = line_seat {
        sleepers.push(Some(seat.taker.sleeper()?));
    }
    Ok(PauseSignal::new(sleepers))
}

// A new switch of this plan under the lock of its first segment. `Err` is want of memory.
fn lock_new_switch(alloc: Global, plan: Plan) -> Result<Locked, AllocError>
    requires { IsValidPlan plan }
    ensures { IfOk result (λ first. IsLocked plan first) }
{
    let kept = KeptCore::make(alloc, plan)?;
    let going = open_passes(&kept.core);
    let mut header = JournalLine::new();
    put_header(kept.core.plan(), &mut header);
    match TableLock::make(alloc, kept, going.len() as u32) {
        Ok((lock, passes)) => Ok(Locked {
            lock,
            passes,
            going,
            header,
        }),
        Err(_) => Err(AllocError),
    }
}
