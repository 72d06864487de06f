//! What is left of a session.

use journal_write::EndsTold;
use savi_core::Core;

/// What is left of a replay or of a live session, and what became of its journal.
#[derive(Drop)]
pub struct Outcome {
    /// The switch with the newest segment.
    pub core: Core,
    /// How many entries all segments have. The number stays at 2^64 - 1.
    pub entries: u64,
    /// How passes ended for good, in order.
    pub ends: EndsTold,
    /// Whether the journal was written.
    pub journal_written: bool,
}
