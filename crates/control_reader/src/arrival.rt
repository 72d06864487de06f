//! What goes through the ring.

use arrayvec::ArrayVec;
use savi_kinds::{CONTROL_LINE_OCTETS, How};

/// What came at control's input. It takes no memory.
#[derive(Drop)]
pub enum LineArrival {
    /// A line of at most 120 octets, without its line feed; the stamp is in ms.
    Line {
        stamp: u64,
        octets: ArrayVec<u8, CONTROL_LINE_OCTETS>,
    },
    /// The input ended so. Nothing comes behind it.
    End(LinesEnd),
}

/// How an input of lines ends.
#[derive(Clone, Copy, PartialEq, Eq, Debug)]
pub enum LinesEnd {
    /// At its end.
    End,
    /// At a line that is malformed, which begins at this place.
    Malformed(u64),
    /// At a line of more than 120 octets, which begins at this place.
    Overlong(u64),
    /// By a read that failed.
    Failed,
}

impl LinesEnd {
    ghost use Rattle.std.specs.Prelude.{◌≡◌};
    ghost use Rattle.control_reader.specs.Heard.{reason_of};

    /// The reason for which control ends then.
    pub fn reason(self) -> How
        ensures { result ≡ reason_of self }
    {
        match self {
            LinesEnd::End => How::End,
            LinesEnd::Malformed(at) => How::Malformed(at),
            LinesEnd::Overlong(at) => How::Overlong(at),
            LinesEnd::Failed => How::Failed,
        }
    }
}
