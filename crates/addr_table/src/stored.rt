// A state in the rows and its moment in the wheel, changed together.

ghost use Rattle.std.specs.Prelude.{◌≡◌, ◌^◌, ◌≤◌, ◌<◌, ◌⊎◌, ◌↔◌, Some, [], IsSome, IsTrue, true, length};
ghost use Rattle.fcfs_states.specs.Premises.{AreTimes};
ghost use Rattle.fcfs_states.specs.Ageing.{probes_behind};
ghost use Rattle.mix_rules.specs.States.{has_state};
ghost use Rattle.mix_rules.specs.Ageing.{aged_state, due_next as due_of};
ghost use Rattle.mix_rules.specs.Premises.{AllMomentsFit};
ghost use Rattle.savi_access.specs.Rows.{state_in, with_state};
ghost use Rattle.timer_wheel.specs.Arms.{due_in, with_due};

use bind_table::BindTable;
use fcfs_states::{Probe, Times};
use mix_rules::AddrState;
use savi_kinds::{Addr, Moment};
use timer_wheel::TimerWheel;

/// Gives an address a state, or takes its row away where the state is none, and arms it for what is due first in the state.
pub fn set(table: &mut BindTable, wheel: &mut TimerWheel, k: &Times, a: Addr, state: AddrState)
    requires times { AreTimes k.now }
    requires fits { AllMomentsFit state }
    requires row { (has_state (state_in table.old.rows a.0) ≡ true) ⊎ (length table.old.rows < table.old.most) }
    requires pair { IsSome (due_in wheel.old.arms a.0) ⊎ (length wheel.old.arms < wheel.old.most) }
    ensures rows { table.new ≡ record table.old { rows = with_state a.0 state table.old.rows } }
    ensures arms { wheel.new ≡ record wheel.old { arms = with_due a.0 (due_of k.now state) wheel.old.arms } }
{
    put(table, a, state);
    arm(wheel, a, state.due(k));
}

// Gives an address a state, or takes its row away where the state is none.
fn put(table: &mut BindTable, a: Addr, state: AddrState)
    requires { (has_state (state_in table.old.rows a.0) ≡ true) ⊎ (length table.old.rows < table.old.most) }
    ensures { table.new ≡ record table.old { rows = with_state a.0 state table.old.rows } }
{
    if state.is_none() {
        table.remove(a);
    } else {
        table.put(a, state);
    }
}

// Arms an address for a moment (ms), or cancels it where there is none.
fn arm(wheel: &mut TimerWheel, a: Addr, due: Option<Moment>)
    requires { IsSome (due_in wheel.old.arms a.0) ⊎ (length wheel.old.arms < wheel.old.most) }
    ensures { wheel.new ≡ record wheel.old { arms = with_due a.0 due wheel.old.arms } }
{
    match due {
        Some(due) => wheel.arm(a, due),
        None => wheel.cancel(a),
    }
}

/// Ages a state to the moment (ms) at which something is due first in it: the probe that this sends, if it does.
pub fn pass(state: &mut AddrState, due: Moment, k: &Times) -> Option<Probe>
    requires times { AreTimes k.now }
    requires moment { due ≤ 2 ^ 62 }
    requires fits { AllMomentsFit state.old }
    requires first { due_of k.now state.old ≡ Some due }
    ensures state { state.new ≡ (aged_state k.now due state.old).state }
    ensures probe { (aged_state k.now due state.old).probes ≡ probes_behind due result [] }
    ensures fits { AllMomentsFit state.new }
{
    let aged = state.age(due, k);
    let (_, probe) = aged.probes.first().copied()?;
    Some(probe)
}

/// Whether two states are one. O(1).
pub fn is_same_state(a: &AddrState, b: &AddrState) -> bool
    ensures { IsTrue result ↔ (a.now ≡ b.now) }
{
    *a == *b
}
