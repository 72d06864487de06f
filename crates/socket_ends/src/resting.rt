//! What becomes of what a peer doesn't take.

/// What becomes of a piece that a peer doesn't take while the outputs are awaited, once they were awaited for as long as they
/// may be.
#[derive(Clone, Copy)]
pub enum Resting {
    /// It goes nowhere, as on a wire without a link, and is done. Of a piece that the peer took a part of the rest is kept,
    /// and sent before anything else; until it is out, each piece goes nowhere.
    Drops,
    /// Its write fails, with a front of it written.
    Fails,
}
