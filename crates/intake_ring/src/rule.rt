//! The rule of the queue that a ring is, and what each kind of step tells. No value of these types is made.

use crossbeam_queue::protocol::{Join, Lesson, Outcome, Protocol, Split};
use std::collections::LinkedList;
use std::marker::PhantomData;

/// What an end knows: whether it may put and whether it may take, all that was put if it may put, and all that was taken if
/// it may take.
pub struct Log<T> {
    pub puts: bool,
    pub takes: bool,
    pub put: LinkedList<T>,
    pub taken: LinkedList<T>,
}

/// The rule: what was put is what was taken, and then what the ring holds.
pub struct InOrder;

impl<T> Protocol<T, Log<T>> for InOrder {
    ghost use Rattle.std.specs.Prelude.{true, []};
    ghost use Rattle.intake_ring.specs.Order.{log, Keeps};

    ghost holds = { Keeps };

    ghost first = { log true true [] [] };
}

/// A ring's two ends are made of one pass, and are joined again as the ring is closed.
pub struct Ends;

impl<T> Split<Log<T>> for Ends {
    ghost use Rattle.std.specs.Prelude.{true, false, []};
    ghost use Rattle.intake_ring.specs.Order.{log};

    ghost left = { λ v. log true false v.put [] };

    ghost right = { λ v. log false true [] v.taken };
}

impl<T> Join<Log<T>> for Ends {
    ghost use Rattle.std.specs.Prelude.{true, false, []};
    ghost use Rattle.intake_ring.specs.Order.{log};

    ghost both = { λ v w. log true true v.put w.taken };

    ghost spent = { log false false [] [] };
}

/// An item was put.
pub struct Puts;

impl<T> Outcome<T, Log<T>> for Puts {
    ghost use Rattle.std.specs.Prelude.{◌≡◌};
    ghost use Rattle.intake_ring.specs.Order.{with_put};

    ghost then = { λ v x w. w ≡ with_put v x };
}

impl<T> Lesson<T, Log<T>> for Puts {
    ghost use Rattle.std.specs.Prelude.{⊤};

    ghost fact = { λ v items. ⊤ };
}

/// An item was taken; where there was none, `M` says what is learned.
pub struct Takes<M> {
    lesson: PhantomData<M>,
}

impl<T, M> Outcome<T, Log<T>> for Takes<M> {
    ghost use Rattle.std.specs.Prelude.{◌≡◌};
    ghost use Rattle.intake_ring.specs.Order.{with_taken};

    ghost then = { λ v x w. w ≡ with_taken v x };
}

impl<T, M: Lesson<T, Log<T>>> Lesson<T, Log<T>> for Takes<M> {
    ghost fact = { M.fact };
}

/// What the end that takes learns of what the ring holds: behind what was taken, it was put.
pub struct Seen;

impl<T> Lesson<T, Log<T>> for Seen {
    ghost use Rattle.intake_ring.specs.Order.{WerePut};

    ghost fact = { λ v items. WerePut v.taken items };
}

/// What both ends together know of what the ring holds.
pub struct Whole;

impl<T> Lesson<T, Log<T>> for Whole {
    ghost use Rattle.std.specs.Prelude.{◌≡◌, ◌++◌};

    ghost fact = { λ v items. v.put ≡ v.taken ++ items };
}
