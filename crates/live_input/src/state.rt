//! How an input stands.

ghost use Rattle.std.specs.Prelude.{◌≡◌};

/// How the input of a port stands behind a turn.
#[derive(Clone, Copy)]
pub(crate) enum InputState {
    /// More may come, and is entered.
    Open,
    /// There was no room for an input: the pass is paused. An arrival for which there was none is kept.
    Paused,
    /// The input has ended, and the pass for good.
    Ended,
}

impl InputState {
    ghost use Rattle.live_input.specs.Judged.{has_stopped, state_behind};

    /// How the input stands behind a turn that found room, or didn't.
    pub(crate) fn behind(has_room: bool) -> InputState
        ensures { result ≡ state_behind has_room }
    {
        if has_room {
            InputState::Open
        } else {
            InputState::Paused
        }
    }

    /// Whether the pass of the input has ended in this segment.
    pub(crate) fn has_stopped(self) -> bool
        ensures { result ≡ has_stopped self }
    {
        match self {
            InputState::Open => false,
            InputState::Paused | InputState::Ended => true,
        }
    }
}
