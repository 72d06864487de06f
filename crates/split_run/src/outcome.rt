use pcap_split::Counts;

/// What came of a capture that was to be split.
#[derive(Clone, Copy, PartialEq, Eq, Debug)]
pub enum Outcome {
    /// It was read to its end, behind a whole block, and this was counted.
    Split(Counts),
    /// The block that begins at this place (octets from the capture's start) is at fault, and this was counted before it.
    Malformed { at: u64, counts: Counts },
    /// A read of it failed.
    Unread,
    /// A write to the output of this interface failed.
    Unwritten { interface: u32 },
    /// The output of this interface could not be opened.
    NoOutput { interface: u32 },
    /// The capture could not be opened.
    NoInput,
}
