/// What a reader of an input answers: the next frame, or how the input ended.
#[derive(Clone, Copy, PartialEq, Eq, Debug)]
pub enum Next {
    /// A frame of at most 1,518 octets, which are the first `len` of the buffer; the stamp is in ms.
    Frame { stamp: u64, len: u32 },
    /// A frame of `len` octets, more than 1,518, which were passed over; the stamp is in ms.
    Long { stamp: u64, len: u32 },
    /// The input ended behind a whole record.
    End,
    /// The header or record that begins at this place (octets from the input's start) is at fault.
    Malformed { at: u64 },
    /// A read failed.
    Failed,
}
