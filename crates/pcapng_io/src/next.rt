/// What a reader of a capture of several interfaces answers. Interfaces are counted through the file, from 0.
#[derive(Clone, Copy, PartialEq, Eq, Debug)]
pub enum NgNext {
    /// One more interface, of this link type.
    Interface {
        link: u16,
    },
    /// A packet of at most 1,518 captured octets, which are the first `len` of the buffer; the stamp is in ms.
    Frame {
        interface: u32,
        stamp: u64,
        len: u32,
    },
    /// A packet of more than 1,518 captured octets, which were passed over.
    Long {
        interface: u32,
    },
    /// The capture ended behind a whole block.
    End,
    /// The block that begins at this place (octets from the capture's start) is at fault.
    Malformed {
        at: u64,
    },
    /// A read failed.
    Failed,
}
