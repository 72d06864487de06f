use crate::address::Moment;
use crate::port::{Port, PortSet};
use crate::verdict::Verdict;

/// A pass: one of the activities that make entries. Each ends once in a segment of the history.
///
/// The default stands in the unused places of a fixed array, and for nothing else.
#[derive(Clone, Copy, PartialEq, Eq, Debug, Default)]
pub enum Who {
    Ingress(Port),
    #[default]
    Control,
    Ticker,
    Egress(Port),
}

/// Why a pass ended, for good or in this segment of the history.
///
/// The default stands in the unused places of a fixed array, and for nothing else.
#[derive(Clone, Copy, PartialEq, Eq, Debug, Default)]
pub enum How {
    /// Its input was read to the end, or nothing was left to do.
    #[default]
    End,
    /// Control was told to quit.
    Quit,
    /// The input has no whole header, record or line at this place (octets from its start).
    Malformed(u64),
    /// The line at this place (octets from the input's start) is too long.
    Overlong(u64),
    /// A read or a write failed.
    Failed,
    /// A reply could not be written.
    Unwritten,
    /// The history had no room for another input: the pass goes on in the next segment.
    Paused,
}

/// What an entry of the history records.
#[derive(Clone, Copy, PartialEq, Eq, Debug)]
pub enum Act {
    /// A frame of `len` octets came in, which are kept at place `at` of the history's store.
    Frame {
        port: Port,
        stamp: u64,
        at: u64,
        len: u32,
    },
    /// A frame of `len` octets, more than a frame may have, came in; its octets aren't kept.
    Long {
        port: Port,
        stamp: u64,
        len: u32,
    },
    /// Time passed.
    Tick {
        stamp: u64,
    },
    /// A line of control of `len` octets, which are kept at place `at` of the history's store.
    Command {
        stamp: u64,
        at: u64,
        len: u32,
    },
    /// This many items were taken from the port's queue.
    Drain {
        port: Port,
        count: u32,
    },
    /// A pass ended.
    End {
        who: Who,
        how: How,
    },
}

/// One entry of the history.
#[derive(Clone, Copy, PartialEq, Eq, Debug)]
pub struct Entry {
    /// The number of the pass that made the entry.
    pub by: u32,
    /// The moment of the entry, in ms.
    pub moment: Moment,
    pub act: Act,
    /// The verdict on a frame.
    pub verdict: Option<Verdict>,
    /// The ports to which the frame was queued or would have been.
    pub outs: PortSet,
    /// Those of them whose queue was full.
    pub cuts: PortSet,
    /// How many probes were queued.
    pub probes: u32,
    /// How many probes were left out.
    pub lost: u32,
}
