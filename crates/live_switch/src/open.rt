//! Which passes go on in a segment.

ghost use Rattle.std.specs.Prelude.{◌≡◌, ◌<◌, length, slice_index_or};
ghost use Rattle.savi_kinds.specs.ValidPlan.{IsValidPlan};
ghost use Rattle.savi_core.specs.Machines.{base_of};
ghost use Rattle.table_lock.specs.Passes.{pass_number};
ghost use Rattle.live_switch.specs.Open.{AreOpen};

use arrayvec::ArrayVec;
use journal_write::ENDS_MOST;
use savi_core::Core;
use savi_kinds::Who;
use table_lock::Pass;

/// Whether each pass of a switch may make entries, by its number. It takes no memory.
pub(crate) type OpenPasses = ArrayVec<bool, ENDS_MOST>;

/// Which passes have not ended in the history of a switch, nor in what it goes on from. O(passes), at most 34.
pub(crate) fn open_passes(core: &Core) -> OpenPasses
    ensures open { AreOpen core.now.plan (base_of core.now) core.now.past result.items }
    ensures valid { IsValidPlan core.now.plan }
{
    let _history = core.history();
    let mut going = ArrayVec::new();
    let ports = core.plan().ports.as_slice();
    for port in ports {
        going.push(!core.ended(Who::Ingress(port.number)));
    }
    going.push(!core.ended(Who::Control));
    going.push(!core.ended(Who::Ticker));
    for port in ports {
        going.push(!core.ended(Who::Egress(port.number)));
    }
    going
}

/// Whether a pass is one of those that go on. O(1).
pub(crate) fn is_open(going: &[bool], pass: &Pass) -> bool
    requires { pass_number pass.now < length going.now }
    ensures { (d : _) → result ≡ slice_index_or going.now (pass_number pass.now) d }
{
    going[pass.number() as usize]
}
