//! The opening and the keeping of the ends of control.

ghost use Rattle.std.specs.Prelude.{◌≡◌, ◌≤◌, Some, IfNone, IfOk, IfSome, IsSome, OnErr, OnOk, OnSome};
ghost use Rattle.savi_ends.specs.Faults.{Rose};
ghost use Rattle.savi_ends.specs.Places.{BothFresh, ControlKey, IsControlKept, IsControlOut, IsReady};
ghost use Rattle.port_worker.specs.LineInputs.{IsControlUnheard};
ghost use Rattle.switch_ports.specs.Live.{IsLiveControlOpened};
ghost use Rattle.switch_ports.specs.Openings.{IsControlOpened};

use port_worker::ControlEnds;
use savi_ends::{Ends, OpenFailed, World};
use savi_kinds::Text;

/// Opens the ends of control by the names of its input and output, where there are names. Each line of the input has its own
/// stamp.
///
/// What is open is held, and nothing was read of it.
///
/// # Errors
///
/// `OpenFailed` where there are names and the world could not open the ends; the place of control is as it was.
pub fn open_control<W: World>(
    names: &Option<(Text, Text)>,
    world: &mut W,
) -> Result<Option<ControlEnds<W::S, W::K, W::C>>, OpenFailed>
    requires ready { (key : ControlKey) → IsReady (BothFresh W.S.faults W.K.faults) ((W.book world.old).control key) }
    ensures opened { IfOk result (IsControlOpened (BothFresh W.S.faults W.K.faults) names.now (W.book world.old).control (W.book world.new).control) }
    ensures unheard { IfOk result (λ control. IsControlUnheard control) }
    ensures named { OnErr result (IsSome names.now) }
    ensures as_it_was { OnErr result ((W.book world.new).control ≡ (W.book world.old).control) }
    ensures later { (W.book world.old).faults ≤ (W.book world.new).faults }
    ensures still { OnOk result ((W.book world.new).faults ≡ (W.book world.old).faults) }
    ensures once { OnErr result (Rose (W.book world.old).faults (W.book world.new).faults) }
    ensures rest { W.book world.new ≡ record (W.book world.old) { faults = (W.book world.new).faults; control = (W.book world.new).control } }
{
    match names {
        Some((source, sink)) => open_named(source.as_str(), sink.as_str(), world),
        None => Ok(None),
    }
}

// Opens the ends of control by these names.
fn open_named<W: World>(
    source: &str,
    sink: &str,
    world: &mut W,
) -> Result<Option<ControlEnds<W::S, W::K, W::C>>, OpenFailed>
    requires ready { (key : ControlKey) → IsReady (BothFresh W.S.faults W.K.faults) ((W.book world.old).control key) }
    ensures opened { IfOk result (IsControlOpened (BothFresh W.S.faults W.K.faults) (Some (source.now, sink.now)) (W.book world.old).control (W.book world.new).control) }
    ensures unheard { IfOk result (λ control. IsControlUnheard control) }
    ensures as_it_was { OnErr result ((W.book world.new).control ≡ (W.book world.old).control) }
    ensures later { (W.book world.old).faults ≤ (W.book world.new).faults }
    ensures still { OnOk result ((W.book world.new).faults ≡ (W.book world.old).faults) }
    ensures once { OnErr result (Rose (W.book world.old).faults (W.book world.new).faults) }
    ensures rest { W.book world.new ≡ record (W.book world.old) { faults = (W.book world.new).faults; control = (W.book world.new).control } }
{
    match world.control(source, sink, false) {
        Ok(ends) => Ok(Some(ControlEnds::new(ends))),
        Err(failed) => Err(failed),
    }
}

/// Keeps the ends of control, where there are any, at their place.
pub fn keep_control<W: World>(control: Option<ControlEnds<W::S, W::K, W::C>>, world: &mut W)
    requires out { OnSome control (IsControlOut (W.book world.old).control) }
    ensures kept { IfSome control (λ c. IsControlKept (W.book world.old).control (W.book world.new).control c.ends) }
    ensures none { IfNone control ((W.book world.new).control ≡ (W.book world.old).control) }
    ensures rest { W.book world.new ≡ record (W.book world.old) { control = (W.book world.new).control } }
{
    match control {
        Some(control) => world.keep_control(control.into_ends()),
        None => {}
    }
}

/// Opens live ends of control by the names of its input and output, where there are names: their clock gives the moment of a
/// line.
///
/// # Errors
///
/// `OpenFailed` where there are names and the world could not open the ends; the place of control is as it was.
pub fn open_live_control<W: World>(
    names: &Option<(Text, Text)>,
    world: &mut W,
) -> Result<Option<Ends<W::S, W::K, W::C>>, OpenFailed>
    requires ready { (key : ControlKey) → IsReady (BothFresh W.S.faults W.K.faults) ((W.book world.old).control key) }
    ensures opened { IfOk result (IsLiveControlOpened (BothFresh W.S.faults W.K.faults) names.now (W.book world.old).control (W.book world.new).control) }
    ensures named { OnErr result (IsSome names.now) }
    ensures as_it_was { OnErr result ((W.book world.new).control ≡ (W.book world.old).control) }
    ensures later { (W.book world.old).faults ≤ (W.book world.new).faults }
    ensures still { OnOk result ((W.book world.new).faults ≡ (W.book world.old).faults) }
    ensures once { OnErr result (Rose (W.book world.old).faults (W.book world.new).faults) }
    ensures rest { W.book world.new ≡ record (W.book world.old) { faults = (W.book world.new).faults; control = (W.book world.new).control } }
{
    match names {
        Some((source, sink)) => open_named_live(source.as_str(), sink.as_str(), world),
        None => Ok(None),
    }
}

// Opens live ends of control by these names.
fn open_named_live<W: World>(
    source: &str,
    sink: &str,
    world: &mut W,
) -> Result<Option<Ends<W::S, W::K, W::C>>, OpenFailed>
    requires ready { (key : ControlKey) → IsReady (BothFresh W.S.faults W.K.faults) ((W.book world.old).control key) }
    ensures opened { IfOk result (IsLiveControlOpened (BothFresh W.S.faults W.K.faults) (Some (source.now, sink.now)) (W.book world.old).control (W.book world.new).control) }
    ensures as_it_was { OnErr result ((W.book world.new).control ≡ (W.book world.old).control) }
    ensures later { (W.book world.old).faults ≤ (W.book world.new).faults }
    ensures still { OnOk result ((W.book world.new).faults ≡ (W.book world.old).faults) }
    ensures once { OnErr result (Rose (W.book world.old).faults (W.book world.new).faults) }
    ensures rest { W.book world.new ≡ record (W.book world.old) { faults = (W.book world.new).faults; control = (W.book world.new).control } }
{
    match world.control(source, sink, true) {
        Ok(ends) => Ok(Some(ends)),
        Err(failed) => Err(failed),
    }
}

/// Keeps live ends of control, where there are any, at their place.
pub fn keep_live_control<W: World>(control: Option<Ends<W::S, W::K, W::C>>, world: &mut W)
    requires out { OnSome control (IsControlOut (W.book world.old).control) }
    ensures kept { IfSome control (λ ends. IsControlKept (W.book world.old).control (W.book world.new).control ends) }
    ensures none { IfNone control ((W.book world.new).control ≡ (W.book world.old).control) }
    ensures rest { W.book world.new ≡ record (W.book world.old) { control = (W.book world.new).control } }
{
    match control {
        Some(ends) => world.keep_control(ends),
        None => {}
    }
}
