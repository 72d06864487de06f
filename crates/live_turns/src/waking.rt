//! Where the workers of a session sleep at its lock, and who wakes them.
//!
//! The egress of a port sleeps at the place of the port's number while nothing waits there, and no other worker does. A turn
//! by which a queue grew wakes the egress of its port, behind the turn. That it was woken then is all that is told of it;
//! each sleep has an end.

ghost use Rattle.std.specs.Prelude.{◌≡◌, ◌≤◌, ◌<◌, ◌+◌, ℕ, true, None};
ghost use Rattle.savi_kinds.specs.Ports.{number_of};
ghost use Rattle.savi_kinds.specs.PortSets.{is_member};
ghost use Rattle.savi_kinds.specs.declared.port.Port.{Port};
ghost use Rattle.arrayvec.specs.ArrayVec.{array_vec_len};
ghost use Rattle.table_lock.specs.declared.lock.TableLock.{TableLock};
ghost use Rattle.table_lock.specs.Passes.{IsPassOf, pass_sleeps_at};
ghost use Rattle.core_keep.specs.declared.keep.KeptCore.{KeptCore};
ghost use Rattle.core_keep.specs.Seen.{past_seen};
ghost use Rattle.savi_kinds.specs.declared.entry.Who.TheVariants.{Egress};
ghost use Rattle.live_turns.specs.Seats.{IsNewPass, IsRunning, kept_fixed};
ghost use Rattle.live_turns.specs.Wakes.{AreBehind, HasAll, was_woken};
ghost use Rattle.live_turns.specs.declared.kinds.TickTurn.TheVariants.{Idle};

use crate::kinds::TickTurn;
use arrayvec::ArrayVec;
use core_keep::KeptCore;
use savi_kinds::{PORTS_MOST, Port, PortSet};
use std::sync::Wait;
use std::time::Duration;
use table_lock::{Pass, TableLock, Woken};

/// How long the egress of a port sleeps at most, in ms.
const SLEEP_MOST_MS: u64 = 100;

/// The new pass of the egress of a port, which sleeps at the place of the port from now on, and so may take turns. O(1).
pub fn place_at_port(pass: Pass, port: Port) -> Pass
    requires { pass_sleeps_at pass ≡ None }
    ensures running { (lock : TableLock KeptCore) → IsNewPass lock (Egress port) pass → IsRunning lock (Egress port) result }
    ensures seen { past_seen result ≡ past_seen pass }
{
    pass.sleeping_at(port.get() as u32)
}

/// Sleeps at the pass's place until something may wait at its port, for 100 ms at most.
pub fn sleep_until_woken<R: Wait>(rt: &R, lock: &TableLock<KeptCore>, pass: &Pass)
    requires { IsPassOf kept_fixed lock.now pass.now }
{
    lock.sleep(rt, pass, Duration::from_millis(SLEEP_MOST_MS));
}

/// The wakes behind a turn, one for each port at most, and none of them `None`.
pub type Wakes = ArrayVec<Option<Woken>, PORTS_MOST>;

// Wakes the egress of each of these ports, behind the turn of this pass. The answer is the wakes. O(16).
pub(crate) fn wake_outputs(lock: &TableLock<KeptCore>, pass: &Pass, ports: PortSet) -> Wakes
    requires { IsPassOf kept_fixed lock.now pass.now }
    ensures all { HasAll ports result.items }
    ensures behind { AreBehind (past_seen pass.now) result.items }
{
    let mut woken = ArrayVec::new();
    for number in 1..PORTS_MOST as u8 + 1 {
        wake_next(lock, pass, ports, number, &mut woken);
    }
    woken
}

// Wakes the egress of the port of this number, if it is one of these.
fn wake_next(lock: &TableLock<KeptCore>, pass: &Pass, ports: PortSet, number: u8, woken: &mut Wakes)
    requires of { IsPassOf kept_fixed lock.now pass.now }
    requires low { 1 ≤ number }
    requires high { number ≤ 16 }
    requires room { array_vec_len woken.old < number }
    ensures few { array_vec_len woken.new < number + 1 }
    ensures kept { (n : ℕ) → was_woken woken.old.items n ≡ true → was_woken woken.new.items n ≡ true }
    ensures here { is_member ports number ≡ true → was_woken woken.new.items number ≡ true }
    ensures behind { AreBehind (past_seen pass.now) woken.old.items → AreBehind (past_seen pass.now) woken.new.items }
{
    let Some(port) = Port::new(number) else {
        unreachable!()
    };
    if ports.contains(port) {
        woken.push(Some(lock.wake(pass, u32::from(number))));
    }
}

// Behind a turn of the ticker wakes the egress of every port, and none where nothing was due. The answer is the wakes.
pub(crate) fn wake_after(lock: &TableLock<KeptCore>, pass: &Pass, came: TickTurn) -> Wakes
    requires { IsPassOf kept_fixed lock.now pass.now }
    ensures behind { AreBehind (past_seen pass.now) result.items }
    ensures all { (came ≡ Idle → ⊥) → (port : Port) → was_woken result.items (number_of port) ≡ true }
{
    match came {
        TickTurn::Idle => ArrayVec::new(),
        TickTurn::Made | TickTurn::Full | TickTurn::Ended => wake_all(lock, pass),
    }
}

// Where that is due wakes the egress of every port, and else none. The answer is the wakes.
pub(crate) fn wake_all_if(lock: &TableLock<KeptCore>, pass: &Pass, is_due: bool) -> Wakes
    requires { IsPassOf kept_fixed lock.now pass.now }
    ensures { AreBehind (past_seen pass.now) result.items }
{
    if is_due {
        wake_all(lock, pass)
    } else {
        ArrayVec::new()
    }
}

// Wakes the egress of every port. The answer is the wakes.
pub(crate) fn wake_all(lock: &TableLock<KeptCore>, pass: &Pass) -> Wakes
    requires { IsPassOf kept_fixed lock.now pass.now }
    ensures behind { AreBehind (past_seen pass.now) result.items }
    ensures all { (port : Port) → was_woken result.items (number_of port) ≡ true }
{
    wake_outputs(lock, pass, PortSet(u16::MAX))
}
