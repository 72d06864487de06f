//! What came of a turn.

/// What came of a turn of the ticker.
#[derive(Clone, Copy, PartialEq, Eq, Debug)]
pub enum TickTurn {
    /// A tick was entered.
    Made,
    /// Nothing was due, and an input may still come.
    Idle,
    /// There is no room for anything more, and an input may still come: it will be paused.
    Full,
    /// Nothing was due, or there was no room for a tick, and no input may come any more: the ticker has ended.
    Ended,
}

/// What came of a turn of an egress.
#[derive(Clone, Copy, PartialEq, Eq, Debug)]
pub enum DrainTurn {
    /// All that waited was taken.
    Took,
    /// Nothing waits, and something may still come.
    Idle,
    /// Nothing waits and nothing may come any more: the egress has ended.
    Ended,
}
