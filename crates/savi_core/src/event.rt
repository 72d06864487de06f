//! What is put to the switch, and what it answers.

use frame_class::Seen;
use savi_kinds::{Entry, How, Port, Who};

/// What happens to the switch.
#[derive(Clone, Copy)]
pub enum Event<'a> {
    /// A frame of at most 1,518 octets came in, of which this is seen; the stamp is in ms.
    Frame {
        port: Port,
        stamp: u64,
        octets: &'a [u8],
        seen: &'a Seen,
    },
    /// A frame of more than 1,518 octets came in; the stamp is in ms.
    Long {
        port: Port,
        stamp: u64,
        len: u32,
    },
    /// A line of at most 120 octets came in on control; the stamp is in ms.
    Command {
        stamp: u64,
        line: &'a [u8],
    },
    /// Time passed, up to this stamp in ms.
    Tick {
        stamp: u64,
    },
    /// A pass ended.
    End {
        who: Who,
        how: How,
    },
}

/// What became of an event.
#[derive(Clone, Copy, PartialEq, Eq, Debug)]
pub enum Stepped {
    /// The history has this one entry more.
    Done(Entry),
    /// The history has `len` entries and no room for another input. Nothing has changed.
    Full { len: u64 },
    /// Nothing was to be done, and nothing has changed: no address has another state by the moment of a tick, or nothing
    /// waits where a port is drained.
    Nothing,
}
