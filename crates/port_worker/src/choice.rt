//! Which input comes next.

ghost use Rattle.std.specs.Prelude.{◌≡◌, ◌+◌, ◌<◌, ◌≤◌, ◌∷◌, ℕ, List, map, get_or, length, Option, None};
ghost use Rattle.savi_history.specs.Picks.{IsPick};
ghost use Rattle.port_worker.specs.Inputs.{turn_moment};
ghost use Rattle.port_worker.specs.LineInputs.{control_moment};
ghost use Rattle.port_worker.specs.Choices.{IsFirstOf};

use crate::control_ends::ControlEnds;
use crate::port_ends::PortEnds;

/// The place of the input whose turn comes first, of equals the first one, or None where no turn is known. Control has the
/// first place, with or without ends, and behind it the ports have theirs.
pub fn next_of<S, K, C>(
    control: &Option<ControlEnds<S, K, C>>,
    ports: &[PortEnds<S, K, C>],
) -> Option<usize>
    ensures { IsPick (control_moment control.now ∷ map turn_moment ports.now) result }
{
    let control_moment = match control {
        Some(control) => control.moment(),
        None => None,
    };
    let mut first = earlier(None, 0, control_moment);
    for place in 0..ports.len() {
        first = earlier(first, place + 1, ports[place].moment());
    }
    match first {
        Some((place, _)) => Some(place),
        None => None,
    }
}

// The first one of the places up to this one, by the first one before it.
fn earlier(
    first: Option<(usize, u128)>,
    place: usize,
    moment: Option<u128>,
) -> Option<(usize, u128)>
    ensures { (numbers : List (Option ℕ)) → IsFirstOf numbers place first → get_or numbers place None ≡ moment → IsFirstOf numbers (place + 1) result }
{
    match (first, moment) {
        (_, None) => first,
        (Some((_, least)), Some(moment)) if least <= moment => first,
        (_, Some(moment)) => Some((place, moment)),
    }
}
