/// Where a splitter stopped.
#[derive(Clone, Copy, PartialEq, Eq, Debug)]
pub enum SplitGot {
    /// An Ethernet interface from 0 to 15 begins: its output is to be opened and begun before the splitter goes on.
    Opens { interface: u32 },
    /// A write to the output of this interface failed.
    Unwritten { interface: u32 },
    /// The file ended behind a whole block.
    End,
    /// The block that begins at this place is at fault.
    Malformed { at: u64 },
    /// A read failed.
    Failed,
}
