//! What a frame's VLAN tag says.

/// The VLAN tag of a frame (IEEE 802.1Q section 9).
#[derive(Clone, Copy, PartialEq, Eq, Debug)]
pub enum Tag {
    /// None: the EtherType is that of what the frame carries.
    None,
    /// One customer tag, which names a VLAN by its number, from 1 to 4,094.
    Vid(u16),
    /// Any other: a service tag, a second tag behind the first, a priority tag, the reserved number, or a tag that is cut
    /// short.
    Bad,
}
