//! How control stands.

ghost use Rattle.std.specs.Prelude.{◌≡◌};

use savi_kinds::How;

/// How control stands behind a turn.
#[derive(Clone, Copy)]
pub(crate) enum ControlState {
    /// More may come, and is entered.
    Open,
    /// There was no room for an input: control is paused. A line for which there was none is kept.
    Paused,
    /// Control has ended so for good.
    Ended(How),
}

impl ControlState {
    ghost use Rattle.live_control.specs.States.{has_stopped_answering, is_unwritten, state_behind_line};

    /// How control stands behind a turn that found room, or didn't.
    pub(crate) fn behind(has_room: bool) -> ControlState
        ensures { result ≡ state_behind_line has_room }
    {
        if has_room {
            ControlState::Open
        } else {
            ControlState::Paused
        }
    }

    /// Whether control's pass has ended in this segment.
    pub(crate) fn has_stopped(self) -> bool
        ensures { result ≡ has_stopped_answering self }
    {
        match self {
            ControlState::Open => false,
            ControlState::Paused | ControlState::Ended(_) => true,
        }
    }

    /// Whether control has ended by a reply that couldn't be written.
    pub(crate) fn is_unwritten(self) -> bool
        ensures { result ≡ is_unwritten self }
    {
        matches!(self, ControlState::Ended(How::Unwritten))
    }
}
