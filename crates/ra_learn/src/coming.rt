//! Learning from arrivals that are all there.

ghost use Rattle.std.specs.Prelude.{◌≡◌, ℕ, ◌≤◌, ◌∷◌, All, IfOk, OnErr, List, Option, length, map, reverse};
ghost use Rattle.savi_kinds.specs.declared.plan.Plan.{Plan};
ghost use Rattle.ra_learn.specs.Comings.{IsShort, arrival_of};
ghost use Rattle.ra_learn.specs.Printed.{PortArrival, advert_lines, printed, sightings_of};
ghost use Rattle.ra_learn.specs.Reports.{HasReported, Wrote};

use crate::report::Report;
use savi_ends::{Put, Sink};
use savi_kinds::{Plan, Port};
use std::alloc::{AllocError, Global};

/// What comes in at a port.
#[derive(Clone, Copy)]
pub enum Coming<'a> {
    /// A frame of at most 1,518 octets, with its stamp (ms).
    Frame {
        port: Port,
        stamp: u64,
        octets: &'a [u8],
    },
    /// A longer frame, whose octets aren't kept.
    Long {
        port: Port,
        stamp: u64,
        len: u64,
    },
}

/// Learns from arrivals in their order, and writes what is printed of them to a sink. `Done` is that no write failed. `Failed`
/// is the failure of one, and the sink then took a front of it. `Err` is want of memory, before anything was written.
pub fn learn<K: Sink>(
    alloc: Global,
    plan: &Plan,
    window: u64,
    arrivals: &[Coming],
    sink: &mut K,
) -> Result<Put, AllocError>
    requires window { window ≤ 3600000 }
    requires ports { length plan.now.ports ≤ 16 }
    requires short { All IsShort arrivals.now }
    ensures wrote { IfOk result (λ put. Wrote (printed plan.now window (reverse (map arrival_of arrivals.now))) put (K.written sink.old) (K.written sink.new) (K.faults sink.old) (K.faults sink.new)) }
    ensures memory { OnErr result (K.written sink.new ≡ K.written sink.old) }
{
    let mut report = Report::make(alloc, plan, window)?;
    for coming in arrivals {
        take(&mut report, coming, sink);
    }
    Ok(report.finish(plan, sink))
}

// Takes what comes next.
fn take<K: Sink>(report: &mut Report, coming: &Coming, sink: &mut K)
    requires { IsShort coming.now }
    ensures tells { (plan : Plan) (window : ℕ) (arrivals : List PortArrival) → HasReported plan window arrivals report.old → HasReported plan window (arrival_of coming.now ∷ arrivals) report.new }
    ensures wrote { (plan : Plan) (window : ℕ) (arrivals : List PortArrival) (before : Option (List ℕ)) (faults : ℕ) → HasReported plan window arrivals report.old
        → Wrote (advert_lines plan window (sightings_of plan arrivals)) report.old.put before (K.written sink.old) faults (K.faults sink.old)
        → Wrote (advert_lines plan window (sightings_of plan (arrival_of coming.now ∷ arrivals))) report.new.put before (K.written sink.new) faults (K.faults sink.new) }
{
    match *coming {
        Coming::Frame {
            port,
            stamp,
            octets,
        } => report.frame(port, stamp, octets, sink),
        Coming::Long { port, stamp, len } => report.long(port, stamp, len),
    }
}
