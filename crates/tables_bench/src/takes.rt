//! Pairs that a timer wheel gives up in turn, beside those that were worked out by hand.

ghost use Rattle.std.specs.Prelude.{◌≡◌, ◌≤◌, IfOk, length};

use savi_kinds::{Addr, Moment};
use std::alloc::{AllocError, Global};
use timer_wheel::TimerWheel;

/// What is due up to a moment (ms) is taken: the moment of the pair that must come and its address, or None.
type Take = (Moment, Option<(Moment, u128)>);

/// Thirteen moments, one of them in place of another, of twelve addresses.
const ARMS: [(u128, Moment); 13] = [
    (3, 200),
    (12, 200),
    (1, 200),
    (9, 200),
    (11, 200),
    (10, 200),
    (2, 65_736),
    (4, 131_272),
    (5, 10),
    (6, 199),
    (7, 1_000_000),
    (8, 150),
    (7, 300),
];

/// What is taken of them, once address 8 was canceled.
const IN_ORDER: [Take; 16] = [
    // nothing yet
    (9, None),
    // at its moment
    (10, Some((10, 5))),
    // one that was canceled
    (198, None),
    // by moment
    (250, Some((199, 6))),
    // six at one moment by address
    (250, Some((200, 1))),
    (250, Some((200, 3))),
    (250, Some((200, 9))),
    (250, Some((200, 10))),
    (250, Some((200, 11))),
    (250, Some((200, 12))),
    // those of later turns aren't due
    (299, None),
    // at its new moment
    (300, Some((300, 7))),
    // one turn later, too early
    (65_735, None),
    // one turn later
    (65_736, Some((65_736, 2))),
    // long after two turns
    (10_000_000, Some((131_272, 4))),
    // nothing is left
    (u64::MAX, None),
];

/// A wheel at which nothing is due comes to this moment (ms) before two moments in its past are armed.
const NOW: Moment = 700_000;

/// What is taken of these.
const IN_THE_PAST: [Take; 3] = [(NOW, Some((64, 1))), (NOW, Some((699_999, 2))), (NOW, None)];

/// How many takes there are.
pub const TAKES: usize = IN_ORDER.len() + 1 + IN_THE_PAST.len();

/// How many of them give what they must, those behind a wrong one of the same wheel left out.
pub fn count_right(alloc: Global) -> Result<usize, AllocError> {
    let mut wheel = armed_wheel(alloc)?;
    wheel.cancel(Addr(8));
    let in_order = count_right_of(&mut wheel, &IN_ORDER);
    let mut late = TimerWheel::make(alloc, 2)?;
    let before = usize::from(late.next_due(NOW).is_none());
    late.arm(Addr(2), 699_999);
    late.arm(Addr(1), 64);
    Ok(in_order + before + count_right_of(&mut late, &IN_THE_PAST))
}

fn armed_wheel(alloc: Global) -> Result<TimerWheel, AllocError> {
    let mut wheel = TimerWheel::make(alloc, 13)?;
    for (a, due) in ARMS {
        wheel.arm(Addr(a), due);
    }
    Ok(wheel)
}

// How many of these takes in turn give what they must.
fn count_right_of(wheel: &mut TimerWheel, takes: &[Take]) -> usize
    ensures { result ≤ length takes.now }
{
    for (n, (t, wanted)) in takes.iter().enumerate() {
        if !is_right(wheel, *t, *wanted) {
            return n;
        }
    }
    takes.len()
}

// Whether it is told rightly whether something is due, and the right pair is taken.
fn is_right(wheel: &mut TimerWheel, t: Moment, wanted: Option<(Moment, u128)>) -> bool {
    let is_due = wheel.is_due(t);
    let taken = wheel.next_due(t).map(|(due, a)| (due, a.0));
    is_due == wanted.is_some() && taken == wanted
}
