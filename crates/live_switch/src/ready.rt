//! The ends of a session.

use journal_write::EndsTold;
use savi_core::Core;
use savi_ends::Ends;

/// The ends of a session: those of the ports, in the order of the plan, those of control, where there are any, the clock of
/// the ticker, and the sink of the journal.
#[derive(Drop)]
pub struct Ready<S, K, C> {
    pub ports: Vec<Ends<S, K, C>>,
    pub control: Option<Ends<S, K, C>>,
    pub ticker: C,
    pub journal: K,
}

/// What a session leaves: the switch with the newest segment of its history, the ends, and what is told of all segments.
#[derive(Drop)]
pub struct Closed<S, K, C> {
    pub core: Core,
    pub ready: Ready<S, K, C>,
    /// How many entries all segments have. The number stays at 2^64 - 1.
    pub entries: u64,
    /// How passes ended for good, in order.
    pub ends: EndsTold,
    /// Whether a write of the journal failed: then its sink has a front of it.
    pub journal_failed: bool,
}
