//! How a ring is made and closed.
ghost use Rattle.std.specs.Prelude.{◌≡◌, ◌<◌, [], IfOk};
ghost use mathlib.Core.List.{IsPrefix};
ghost use Rattle.intake_ring.specs.Sides.{ArePaired, put_of, taken_of};

use crate::filler::Filler;
use crate::rule::{Ends, InOrder, Log, Whole};
use crate::taker::Taker;
use crossbeam_queue::{Pass, RuledArrayQueue};
use sleeper::Sleeper;
use std::alloc::{AllocError, Global};
use std::sync::{Arc, Wait};

/// The queue of a ring.
type Line<T> = RuledArrayQueue<T, Log<T>, InOrder>;

/// An end that can't go on sleeps for so long at most, in ms, whether or not it is woken.
pub(crate) const SLEEP_MOST_MS: u64 = 100;

/// What both ends share: the queue, and a place to sleep at for each. Who has a share of the taker's place may wake it too.
#[derive(Drop)]
pub(crate) struct Ring<T> {
    pub(crate) line: Line<T>,
    pub(crate) filler: Sleeper,
    pub(crate) taker: Arc<Sleeper, Global>,
}

/// The making and the closing of rings.
pub struct IntakeRing;

impl IntakeRing {
    /// An empty ring with room for `depth` items, at least 1, as its two ends. It takes all its memory here, and is refused
    /// for want of memory alone.
    pub fn make<T: Drop>(alloc: Global, depth: u32) -> Result<(Filler<T>, Taker<T>), AllocError>
        requires { 0 < depth }
        ensures paired { IfOk result (λ r. ArePaired r.0 r.1) }
        ensures new { IfOk result (λ r. (put_of r.0 ≡ []) × (taken_of r.1 ≡ [])) }
    {
        let place = Arc::new(alloc, Sleeper::new())?;
        let (line, mut pass): (Line<T>, Pass<T, Log<T>>) = RuledArrayQueue::ruled(
            alloc,
            depth as usize,
        )?;
        let other = line.another::<Ends>(&mut pass);
        let ring = Arc::new(
            alloc,
            Ring {
                line,
                filler: Sleeper::new(),
                taker: place,
            },
        )?;
        let theirs = Arc::try_clone(&ring)?;
        let filler = Filler { ring, pass };
        let taker = Taker {
            ring: theirs,
            pass: other,
            half: depth / 2,
            since: 0,
        };
        Ok((filler, taker))
    }

    /// Takes both ends of a ring back: what was taken is a prefix of what was put. What the ring still holds is let go.
    /// O(depth).
    pub fn close<T: Drop, R: Wait>(_rt: &R, filler: Filler<T>, taker: Taker<T>)
        requires { ArePaired filler taker }
        ensures { IsPrefix (taken_of taker) (put_of filler) }
    {
        let Filler { ring, mut pass } = filler;
        let Taker {
            ring: other,
            pass: theirs,
            half: _,
            since: _,
        } = taker;
        ring.line.absorb::<Ends>(&mut pass, theirs);
        ring.line.learn_as::<Whole>(&mut pass);
        drop(other);
    }
}
