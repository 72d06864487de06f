//! The reader.

ghost use Rattle.std.specs.Prelude.{◌≡◌, []};
ghost use Rattle.savi_kinds.specs.declared.plan.Format.{Format};
ghost use Rattle.parcel_ring.specs.Sides.{filler_rings, was_put};
ghost use Rattle.port_reader.specs.Progress.{GoesOn, GoesOnOrEnds};

use input_read::PortInput;
use parcel_ring::ParcelFiller;
use savi_ends::{Clock, Source};
use savi_kinds::{Format, How, Next, Port};
use std::sync::Wait;

/// The reader of a port: the form of its input, its ends, and the end of the ring at which arrivals are put. It takes no
/// memory.
#[derive(Drop)]
pub struct Reader<S, C> {
    pub port: Port,
    pub format: Format,
    pub source: S,
    pub clock: C,
    pub filler: ParcelFiller,
}

impl<S: Source, C: Clock> Reader<S, C> {
    ghost use Rattle.port_reader.specs.Readers.{HasFilled};

    /// Reads the input up to its end, and puts each arrival, in their order; then it puts how the input ended: `End`,
    /// `Malformed`, or `Failed` where a read failed. Where the ring is full, it waits for the other end. O(n) in the octets
    /// of the input.
    pub fn run<R: Wait>(self, rt: &R) -> Reader<S, C>
        requires { was_put self.filler ≡ [] }
        ensures { HasFilled S.left S.faults C.readings self result }
    {
        let Reader {
            port,
            format,
            source,
            clock,
            mut filler,
        } = self;
        let mut input = PortInput::new(format, source, clock);
        for _ in rt.forever() {
            let goes_on = put_next(rt, &mut input, &mut filler);
            if !goes_on {
                let (source, clock) = input.into_ends();
                return Reader {
                    port,
                    format,
                    source,
                    clock,
                    filler,
                };
            }
        }
        unreachable!()
    }
}

// Reads what comes next and puts it. The answer is whether the input goes on.
fn put_next<R: Wait, S: Source, C: Clock>(
    rt: &R,
    input: &mut PortInput<S, C>,
    filler: &mut ParcelFiller,
) -> bool
    ensures rings { filler_rings filler.new ≡ filler_rings filler.old }
    ensures left { (format : Format) (source : S) (clock : C)
        → GoesOn S.left S.faults C.readings format source clock input.old (was_put filler.old)
        → GoesOnOrEnds S.left S.faults C.readings format source clock input.new (was_put filler.new) result }
{
    match input.read() {
        Next::Frame { stamp, len } => {
            filler.put_frame(rt, stamp, input.frame(len));
            true
        }
        Next::Long { stamp, len } => {
            filler.put_long(rt, stamp, len);
            true
        }
        Next::End => {
            filler.put_end(rt, How::End);
            false
        }
        Next::Malformed { at } => {
            filler.put_end(rt, How::Malformed(at));
            false
        }
        Next::Failed => {
            filler.put_end(rt, How::Failed);
            false
        }
    }
}
