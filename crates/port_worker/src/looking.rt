//! Reading ahead at each port.

ghost use Rattle.std.specs.Prelude.{All, Option};
ghost use Rattle.port_worker.specs.Pairs.{EachPair};
ghost use Rattle.port_worker.specs.Inputs.{IsSoundAhead, IsReadAhead, IsLooked};
ghost use Rattle.port_worker.specs.LineInputs.{IsControlSound, IsControlHeard, IsControlKnown};

use crate::control_ends::ControlEnds;
use crate::port_ends::PortEnds;
use savi_ends::{Clock, Source};

/// Reads the next input of each port where it isn't known, in order.
pub fn look_all<S: Source, K, C: Clock>(ports: &mut [PortEnds<S, K, C>])
    requires { All (λ p. IsSoundAhead p.reader p.ahead) ports.old }
    ensures looked { EachPair (IsLooked S.left S.faults) ports.old ports.new }
    ensures known { All (λ p. IsReadAhead p.ahead) ports.new }
{
    for place in 0..ports.len() {
        ports[place].look();
    }
}

/// Reads the next line of control, where there are ends of it and it isn't known.
pub(crate) fn look_control<S: Source, K, C: Clock>(control: &mut Option<ControlEnds<S, K, C>>)
    requires { IsControlSound control.old }
    ensures looked { IsControlHeard S.left S.faults control.old control.new }
    ensures known { IsControlKnown control.new }
{
    if let Some(control) = control {
        control.look();
    }
}
