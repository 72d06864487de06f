/// What was counted so far.
#[derive(Clone, Copy, PartialEq, Eq, Debug)]
pub struct Counts {
    /// All interfaces of the file.
    pub interfaces: u64,
    /// Frames of interfaces that have an output.
    pub frames: u64,
    /// Longer packets of those interfaces.
    pub long: u64,
    /// All packets of the other interfaces.
    pub skipped: u64,
}
