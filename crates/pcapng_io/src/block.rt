ghost use Rattle.std.specs.Prelude.{◌≡◌};
ghost use Rattle.pcapng_io.specs.Answers.{answer_to};

use crate::next::NgNext;
use pcap_io::ByteOrder;

// What was read of a block.
#[derive(Clone, Copy)]
pub(crate) enum BlockRead {
    Section {
        order: ByteOrder,
    },
    // The units of a second that its stamps count in.
    Interface {
        link: u16,
        units: u128,
    },
    // The captured octets are the first of the buffer.
    Frame {
        interface: u32,
        stamp: u64,
        len: u32,
    },
    Long {
        interface: u32,
    },
    Other,
}

// A whole block, of so many octets.
#[derive(Clone, Copy)]
pub(crate) struct Whole {
    pub block: BlockRead,
    pub size: u32,
}

impl BlockRead {
    // What a reader answers to this block, where it tells something.
    pub(crate) fn answer(self) -> Option<NgNext>
        ensures { result ≡ answer_to self }
    {
        match self {
            BlockRead::Interface { link, units: _ } => Some(NgNext::Interface { link }),
            BlockRead::Frame {
                interface,
                stamp,
                len,
            } => Some(NgNext::Frame {
                interface,
                stamp,
                len,
            }),
            BlockRead::Long { interface } => Some(NgNext::Long { interface }),
            BlockRead::Section { order: _ } | BlockRead::Other => None,
        }
    }
}
