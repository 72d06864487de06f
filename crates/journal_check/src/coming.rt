//! Whether an event may come to a switch.

ghost use Rattle.std.specs.Prelude.{◌≡◌, ◌+◌, ◌↔◌, true, [], IsTrue};
ghost use Rattle.savi_kinds.specs.declared.entry.How.TheVariants.{End, Paused};
ghost use Rattle.savi_kinds.specs.Ports.{number_of};
ghost use Rattle.hist_store.specs.EndTexts.{IsReasonOf};
ghost use Rattle.hist_store.specs.EntryLines.{IsHowInRange};
ghost use Rattle.savi_history.specs.Passes.{AllEnded, has_pass, has_port, ticker_pass};
ghost use Rattle.savi_history.specs.Queues.{queue};
ghost use Rattle.savi_history.specs.Legal.{IsOpen, IsFinished, MayEnd};
ghost use Rattle.savi_core.specs.Machines.{base_of};
ghost use Rattle.journal_check.specs.EgressEnds.{HaveEgressEnded};

use savi_core::Core;
use savi_kinds::{How, Plan, Port, Who};

/// Whether a pass is one of the switch's and hasn't ended. O(ports).
pub fn is_open(core: &Core, who: Who) -> bool
    ensures { IsTrue result ↔ IsOpen core.now.plan (base_of core.now) core.now.past who }
{
    if has_pass(core.plan(), who) {
        !core.ended(who)
    } else {
        false
    }
}

/// Whether a pass that is open may end for this reason, which is one of its kind. O(1).
pub fn may_end(core: &Core, who: Who, how: How) -> bool
    requires open { IsOpen core.now.plan (base_of core.now) core.now.past who }
    requires reason { IsReasonOf who how }
    requires numbers { IsHowInRange how }
    ensures { IsTrue result ↔ MayEnd core.now.plan (base_of core.now) core.now.past who how }
{
    match how {
        How::End => is_through(core, who),
        How::Paused => may_pause(core, who),
        _ => true,
    }
}

// Whether nothing may come any more for which a pass that is open would wait, in this history and in a next one.
fn is_through(core: &Core, who: Who) -> bool
    requires open { IsOpen core.now.plan (base_of core.now) core.now.past who }
    ensures { IsTrue result ↔ MayEnd core.now.plan (base_of core.now) core.now.past who End }
{
    match who {
        Who::Ingress(_) => true,
        Who::Control => true,
        Who::Ticker => core.inputs_left() == 0 && !core.has_pause(),
        Who::Egress(port) => is_drained(core, port) && !core.has_pause(),
    }
}

// Whether a pass that is open may be paused: an input where there is no room for more, the ticker and an output where an
// input is paused and nothing may come any more in this history.
fn may_pause(core: &Core, who: Who) -> bool
    requires open { IsOpen core.now.plan (base_of core.now) core.now.past who }
    ensures { IsTrue result ↔ MayEnd core.now.plan (base_of core.now) core.now.past who Paused }
{
    match who {
        Who::Ingress(_) => core.full(),
        Who::Control => core.full(),
        Who::Ticker => core.inputs_left() == 0 && core.has_pause(),
        Who::Egress(port) => is_drained(core, port) && core.has_pause(),
    }
}

// Whether nothing waits at a port of the switch, and nothing may be queued there any more.
fn is_drained(core: &Core, port: Port) -> bool
    requires { has_port core.now.plan (number_of port) ≡ true }
    ensures { IsTrue result
        ↔ (AllEnded (base_of core.now) (ticker_pass core.now.plan + 1) core.now.past × (queue core.now.plan (base_of core.now) (number_of port) core.now.past ≡ [])) }
{
    if !is_ticker_through(core) {
        return false;
    }
    core.queued(port) == 0
}

// Whether each ingress pass, control and the ticker have ended.
fn is_ticker_through(core: &Core) -> bool
    ensures { IsTrue result ↔ AllEnded (base_of core.now) (ticker_pass core.now.plan + 1) core.now.past }
{
    let left = core.inputs_left();
    if left > 0 {
        return false;
    }
    core.ended(Who::Ticker)
}

/// Whether each pass has ended. O(ports squared).
pub fn is_finished(core: &Core) -> bool
    ensures { IsTrue result ↔ IsFinished core.now.plan (base_of core.now) core.now.past }
{
    if !is_ticker_through(core) {
        return false;
    }
    have_ended(core)
}

// Whether the egress of each port has ended.
fn have_ended(core: &Core) -> bool
    ensures { IsTrue result ↔ HaveEgressEnded core.now.plan (base_of core.now) core.now.past }
{
    let _history = core.history();
    for port in core.plan().ports.as_slice() {
        if !core.ended(Who::Egress(port.number)) {
            return false;
        }
    }
    true
}

// Whether a pass is one of the plan's.
fn has_pass(plan: &Plan, who: Who) -> bool
    ensures { result ≡ has_pass plan.now who }
{
    match who {
        Who::Control => true,
        Who::Ticker => true,
        Who::Ingress(port) => has_port(plan, port),
        Who::Egress(port) => has_port(plan, port),
    }
}

// Whether a port is one of the plan's.
fn has_port(plan: &Plan, port: Port) -> bool
    ensures { result ≡ has_port plan.now (number_of port) }
{
    for p in plan.ports.as_slice() {
        if p.number.get() == port.get() {
            return true;
        }
    }
    false
}
