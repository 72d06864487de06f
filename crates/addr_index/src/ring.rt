//! The ring of places: behind the last one comes the first.

ghost use Rattle.std.specs.Prelude.{◌≡◌, ◌≤◌, ◌<◌, ◌+◌, ◌^◌};
ghost use Rattle.std.specs.Bool.{MatchBool};
ghost use Rattle.addr_index.specs.Ways.{IsOnWay, IsOffWay, IsRound};

// The place that so many steps from the first one lead to, among so many places.
#[inline(always)]
pub(crate) fn round(steps: usize, places: usize) -> usize
    requires { steps < places + places }
    ensures { IsRound places steps result }
{
    if steps < places {
        steps
    } else {
        steps - places
    }
}

// Whether the way from one place up to another one comes by a third.
#[inline(always)]
pub(crate) fn is_on_way(from: usize, to: usize, place: usize) -> bool
    ensures { MatchBool result (IsOnWay from to place) (IsOffWay from to place) }
{
    if from <= to {
        from <= place && place < to
    } else {
        from <= place || place < to
    }
}
