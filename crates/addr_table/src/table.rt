//! The table of all addresses.

ghost use Rattle.std.specs.Prelude.{◌≡◌, ◌≢◌, ◌^◌, ◌*◌, ◌<◌, ◌≤◌, ◌↔◌, ℕ, [], Option, Some, IfSome, IfOk, IsTrue, false, length, slice_get};
ghost use Rattle.std.specs.Option.{option_map};
ghost use Rattle.savi_kinds.specs.Ports.{number_of};
ghost use Rattle.savi_kinds.specs.declared.plan.Method.{Method};
ghost use Rattle.fcfs_states.specs.Premises.{AreTimes};
ghost use Rattle.mix_rules.specs.States.{IsSoundFor};
ghost use Rattle.savi_access.specs.Rows.{state_in, with_state, count_at, pair_of};
ghost use Rattle.savi_access.specs.Ages.{aged_rows, AllStill};
ghost use Rattle.savi_access.specs.Sends.{sends};
ghost use Rattle.savi_access.specs.Rooms.{may_hold_more, room_for, IsFixable};
ghost use Rattle.addr_table.specs.Dues.{IsUndue, first_due, due_until};
ghost use Rattle.addr_table.specs.Outcomes.{outcome_in};
ghost use Rattle.addr_table.specs.Gives.{GivesProbe};
ghost use Rattle.savi_access.specs.Keeps.{IsWithinRules, AreSound, StaySound};
ghost use Rattle.addr_table.specs.OneTurn.{IsQuiet, Turns};

use crate::passed::Passed;
use crate::room::event_port;
use crate::stored::{is_same_state, pass, set};
use bind_table::BindTable;
use fcfs_states::{Answer, Ev, Times};
use mix_rules::AddrState;
use savi_access::SentProbe;
use savi_kinds::{Addr, Method, Moment, PORTS_MOST, Port};
use std::alloc::{AllocError, Global};
use std::marker::Model;
use timer_wheel::TimerWheel;

/// The states of all addresses, and for each address the moment at which something is due first in its state.
///
/// Each address that has a state is held at one port at least, of 16, and no port holds more addresses than it may; a new
/// state comes only where its port has room for one more. So there is always a place for it, and no call but `make` takes
/// memory or can refuse.
#[derive(Drop)]
pub struct AddrTable {
    table: BindTable,
    wheel: TimerWheel,
    times: Times,
    per_port: u32,
}

impl Model for AddrTable {
    ghost use Rattle.addr_table.specs.Addresses.{Addresses};
    ghost use Rattle.savi_access.specs.Keeps.{IsWithinRules};
    ghost use Rattle.addr_table.specs.Armed.{IsArmed};

    ghost Value = { Addresses };

    ghost view = { λ a. record { rows = a.table.rows; times = a.times; per_port = a.per_port } };

    ghost invariant = { λ a. IsWithinRules a.times a.per_port a.table.rows × IsArmed a.times a.per_port a.table a.wheel };
}

impl AddrTable {
    /// No address has a state. By these times states will age, and each port may hold so many addresses, at most 2^16. It
    /// takes all its memory here, O(per_port).
    pub fn make(alloc: Global, times: Times, per_port: u32) -> Result<AddrTable, AllocError>
        requires times { AreTimes times }
        requires per_port { per_port ≤ 2 ^ 16 }
        ensures { IfOk result (λ table. table ≡ record { rows = []; times = times; per_port = per_port }) }
    {
        let most = PORTS_MOST as u32 * per_port;
        Ok(AddrTable {
            table: BindTable::make(alloc, most)?,
            wheel: TimerWheel::make(alloc, most)?,
            times,
            per_port,
        })
    }

    /// The state of an address: `AddrState::none()` exactly where it has no row. O(1) on average.
    pub fn get(&self, a: Addr) -> AddrState
        ensures { result ≡ state_in self.now.rows a.0 }
    {
        self.table.get(a)
    }

    /// How many addresses the port holds, as `BindTable::count` counts them. O(1).
    pub fn count(&self, port: Port) -> u32
        ensures value { result ≡ count_at (number_of port) self.now.rows }
        ensures most { result ≤ self.now.per_port }
    {
        self.table.count(port)
    }

    /// Whether the port holds fewer addresses than it may. O(1).
    pub fn has_room(&self, port: Port) -> bool
        ensures { result ≡ may_hold_more self.now.per_port self.now.rows port }
    {
        self.table.count(port) < self.per_port
    }

    /// Whether the port of the event has room; not so where the event has none. O(1).
    pub fn room_for(&self, ev: Ev) -> bool
        ensures { result ≡ room_for self.now.per_port self.now.rows ev }
    {
        match event_port(ev) {
            Some(port) => self.has_room(port),
            None => false,
        }
    }

    /// How many addresses have a state: at most 16 times what a port may hold. O(1).
    pub fn size(&self) -> u32
        ensures size { result ≡ length self.now.rows }
        ensures most { result ≤ 16 * self.now.per_port }
    {
        self.table.size()
    }

    /// The `i`-th of the addresses that have a state, in rising order, from 0, with its state: None exactly past the last
    /// one. O(1).
    pub fn row(&self, i: u32) -> Option<(Addr, AddrState)>
        ensures row { result ≡ option_map pair_of (slice_get self.now.rows i) }
        ensures kept { IsWithinRules self.now.times self.now.per_port self.now.rows }
    {
        self.table.row(i)
    }

    /// Whether anything is due at or before `t` (ms): true exactly where ageing to `t` changes the state of an address, and
    /// where it changes none it sends no probe. Nothing has changed. It costs what `TimerWheel::is_due` does: where nothing
    /// is due O(1) beside the slices of 64 ms that have passed since the last call.
    pub fn is_due(&mut self, t: Moment) -> bool
        ensures changes { IsTrue result ↔ (aged_rows self.old.times t self.old.rows ≢ self.old.rows) }
        ensures unchanged { result ≡ false → aged_rows self.old.times t self.old.rows ≡ self.old.rows }
        ensures silent { result ≡ false → sends self.old.times t self.old.rows ≡ [] }
        ensures still { result ≡ false → AllStill self.old.times t self.old.rows }
        ensures same { self.new ≡ self.old }
    {
        self.wheel.is_due(t)
    }

    /// The moment (ms) at which something is due first in the state of any address, if that isn't after `t` (ms): exactly
    /// where it is `None` ageing to `t` changes nothing. Nothing has changed. It costs what `is_due` does.
    pub fn first_due(&mut self, t: Moment) -> Option<Moment>
        ensures due { result ≡ due_until t (first_due self.old.times self.old.rows) }
        ensures quiet { (u : ℕ) → IsUndue result t u → IsQuiet u self.old }
        ensures later { IfSome result (λ due. (u : ℕ) → AllStill self.old.times u self.old.rows → u < due) }
        ensures same { self.new ≡ self.old }
    {
        let first = self.wheel.first_due(t)?;
        Some(first.0)
    }

    // The first of the probes that fall due by `t` (ms), by moment and then by address; what is due before it has come to
    // pass. None once nothing is due by `t`: then all states are aged to `t`. Between two calls the rows are half aged, so
    // it serves `age_to` alone.
    pub(crate) fn next_probe(&mut self, t: Moment) -> Option<SentProbe>
        requires { t ≤ 2 ^ 62 }
        ensures given { GivesProbe t self.old self.new result }
        ensures sound { StaySound self.old.rows self.new.rows }
    {
        while let Some(passed) = self.pass_first(t) {
            if let Some(probe) = passed.probe {
                return Some(SentProbe {
                    due: passed.due,
                    address: passed.address,
                    probe,
                });
            }
        }
        None
    }

    /// An event at moment `t` (ms) on an address of a prefix of method `m`, where all states have been aged to `t`. The room
    /// of its port is what the port has before the event. An event that leaves the state as it was costs one look-up, O(1)
    /// on average; one that changes it also one change of a row and one arming: O(1) on average where the address has a
    /// state before and after, and O(n) of `BindTable::put` and `remove` where a row comes or goes.
    pub fn event(&mut self, a: Addr, m: Method, ev: Ev, t: Moment) -> Answer
        requires moment { t ≤ 2 ^ 62 }
        requires sound { IsSoundFor m (state_in self.old.rows a.0) }
        requires still { AllStill self.old.times t self.old.rows }
        requires fixable { IsFixable self.old.per_port self.old.rows a.0 ev }
        ensures answer { result ≡ (outcome_in m t self.old a.0 ev).0 }
        ensures rows { self.new ≡ record self.old { rows = with_state a.0 (outcome_in m t self.old a.0 ev).1 self.old.rows } }
        ensures still { AllStill self.old.times t self.new.rows }
        ensures sound { (method_of : ℕ → Option Method) → method_of a.0 ≡ Some m → AreSound method_of self.old.rows → AreSound method_of self.new.rows }
    {
        let room = self.room_for(ev);
        let before = self.table.get(a);
        let mut state = before;
        let answer = state.step(m, ev, t, room, &self.times);
        if !is_same_state(&state, &before) {
            set(&mut self.table, &mut self.wheel, &self.times, a, state);
        }
        answer
    }

    // Ages the state in which something is due first to the moment at which it is due, if that isn't after t.
    fn pass_first(&mut self, t: Moment) -> Option<Passed>
        requires { t ≤ 2 ^ 62 }
        ensures turn { Turns t self.old self.new result }
        ensures sound { StaySound self.old.rows self.new.rows }
    {
        let (due, address) = self.wheel.next_due(t)?;
        let mut state = self.table.get(address);
        let probe = pass(&mut state, due, &self.times);
        set(
            &mut self.table,
            &mut self.wheel,
            &self.times,
            address,
            state,
        );
        Some(Passed {
            due,
            address,
            probe,
        })
    }
}
