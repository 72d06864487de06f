// The port of an event.

ghost use Rattle.std.specs.Prelude.{◌≡◌};
ghost use Rattle.savi_access.specs.Rooms.{port_of};

use fcfs_states::Ev;
use savi_kinds::Port;

/// The port at which the event takes place: none at a trusted port, and none where the operator clears.
pub fn event_port(ev: Ev) -> Option<Port>
    ensures { result ≡ port_of ev }
{
    match ev {
        Ev::Sent(port) | Ev::Dad(port) | Ev::Na(port) | Ev::Release(port) | Ev::Fix(port) => {
            Some(port)
        }
        Ev::Lease { p, .. } => Some(p),
        Ev::TpDad | Ev::TpNa | Ev::Clear => None,
    }
}
