//! What sums a history up.

/// How many entries a history has, of which kinds, and what was left out. Each number stays at 2^64 - 1.
#[derive(Clone, Copy, PartialEq, Eq, Debug)]
pub struct Summary {
    pub entries: u64,
    pub frames: u64,
    pub passed: u64,
    pub dropped: u64,
    pub probes: u64,
    pub lost: u64,
    pub cut: u64,
}
