//! The machine.

ghost use Rattle.std.specs.Prelude.{◌≡◌, ◌≤◌, ◌<◌, ◌^◌, true, false, not, ◌&&◌, [], length, slice_get, reverse, IfOk, IsSomeAnd, Some, ◌+◌, Option};
ghost use Rattle.std.specs.Bool.{OnTrue};
ghost use Rattle.savi_kinds.specs.Ports.{number_of};
ghost use Rattle.savi_kinds.specs.ValidPlan.{IsValidPlan, IsWithin};
ghost use Rattle.savi_history.specs.Passes.{has_port, has_pass, pass_of, control_pass, has_ended};
ghost use Rattle.savi_history.specs.Limits.{has_room};
ghost use Rattle.savi_history.specs.Moments.{last_moment};
ghost use Rattle.control_replies.specs.Counting.{counter_at};
ghost use Rattle.checkpoint.specs.BaseLines.{base_texts};
ghost use Rattle.savi_history.specs.Shown.{counts_of, reply_to, shown};
ghost use Rattle.savi_history.specs.Events as events;
ghost use Rattle.savi_history.specs.Endings.{has_pause};
ghost use Rattle.savi_history.specs.Legal.{IsLegal, IsFinished};
ghost use Rattle.savi_core.specs.Machines.{HasShortQueues, base_of, started, row_at, queue_at, with_event};
ghost use Rattle.savi_core.specs.Counts.{open_below};
ghost use Rattle.savi_core.specs.Turns.{IsTurned};
ghost use Rattle.savi_core.specs.Refused.{EndsWithCommand};
ghost use Rattle.frame_class.specs.Seen.{IsSeen};
ghost use Rattle.savi_core.specs.Steps.{event_of, IsSeenRightly, MayStep, Did, Drained, entry_of};

use crate::batch::Batch;
use crate::commands::{fault_refusal, obey};
use crate::ends::Ends;
use crate::entries::{moment_at, plain_entry};
use crate::event::{Event, Stepped};
use crate::judging::{age, is_due, judge, judge_long};
use crate::passes::Passes;
use crate::ports::Ports;
use crate::queues::Queues;
use crate::shows::{show_bindings, show_ports, show_stations, times_of};
use crate::stations::{outs, teach};
use crate::turning::{keep_ends, keep_requests, keep_rows, keep_stations};
use crate::vlan_set::{VlanSet, make_sets};
use checkpoint::Checkpoint;
use cli_lang::{CmdFault, Command, command};
use control_replies::{Counts, Refusal, Reply};
use frame_class::Seen;
use hist_store::{Hist, JournalLine};
use savi_history::histories_tell_rightly;
use savi_kinds::{
    Act, ENTRIES_RESERVED, Entry, FRAME_OCTETS_MOST, How, Moment, PORTS_MOST, Plan, Port, Who,
};
use savi_segments::a_table_goes_on_from_its_states;
use std::alloc::{AllocError, Global};
use std::marker::Model;

/// A switch that guards messages, validates sources, learns stations, and sends what passes to the port of its destination
/// where that is known: each VLAN has addresses, requests and stations of its own (IEEE 802.1Q).
/// Contracts see its plan, what its history goes on from, and the history with the newest row first, which is always legal.
/// All memory is taken by `make`.
#[derive(Drop)]
pub struct Core {
    ports: Ports,
    checkpoint: Checkpoint,
    hist: Hist,
    moment: Moment,
    passes: Passes,
    // how passes have ended for good
    ends: Ends,
    queues: Queues,
    // for each VLAN of the plan, in rising order
    sets: Vec<VlanSet>,
    tally: Counts,
    // why the newest entry was refused, where it is a command's
    refused: Option<Refusal>,
}

impl Model for Core {
    ghost use Rattle.std.specs.Prelude.{◌≡◌, ◌+◌, ◌*◌, reverse};
    ghost use Rattle.savi_history.specs.Shown.{counts_of};
    ghost use Rattle.checkpoint.specs.Columns.{kept_base as base_kept};
    ghost use Rattle.savi_history.specs.Passes.{control_pass};
    ghost use Rattle.savi_core.specs.Machines.{Machine, station_room};
    ghost use Rattle.savi_core.specs.Ends.{AreEnds};
    ghost use Rattle.savi_core.specs.Remembers.{Remembers};
    ghost use Rattle.savi_core.specs.Tells.{TellOfAll};
    ghost use Rattle.savi_core.specs.Refused.{IsRefusal};

    ghost Value = { Machine };

    ghost view = { λ c. record { plan = c.ports; checkpoint = c.checkpoint; past = reverse c.hist.rows } };

    ghost invariant = { λ c. Remembers (record { plan = c.ports; base = base_kept c.checkpoint; rows = c.hist.rows; moment = c.moment; ended = c.passes.ended; shut = c.queues.shut; lanes = c.queues.lanes })
        × (c.hist.entry_room ≡ c.ports.entries)
        × (c.hist.byte_room ≡ c.ports.bytes)
        × (c.passes.inputs ≡ control_pass c.ports + 1)
        × TellOfAll c.ports (base_kept c.checkpoint) (reverse c.hist.rows) c.moment c.sets.items
        × IsRefusal c.ports (base_kept c.checkpoint) (reverse c.hist.rows) c.refused
        × (c.tally ≡ counts_of (base_kept c.checkpoint) (reverse c.hist.rows))
        × AreEnds c.ports (base_kept c.checkpoint) (reverse c.hist.rows) c.ends
        × (c.checkpoint.row_room ≡ 16 * c.ports.per_port)
        × (c.checkpoint.station_room ≡ station_room c.ports) };
}

impl Core {
    /// The switch of this plan at its start. It takes all its memory here.
    pub fn make(alloc: Global, plan: Plan) -> Result<Core, AllocError>
        requires { IsValidPlan plan }
        ensures { IfOk result (λ core. core ≡ started plan) }
    {
        let hist = Hist::make(alloc, plan.entries, plan.bytes)?;
        let queues = Queues::make(alloc, plan.ports.as_slice(), plan.depth)?;
        let inputs = plan.ports.as_slice().len() as u32 + 1;
        let per_port = plan.per_port;
        let ports = Ports::make(plan);
        let pairs = PORTS_MOST as u32 * ports.vlan_count() as u32;
        let checkpoint = Checkpoint::make(alloc, per_port, pairs)?;
        let sets = make_sets(alloc, &ports)?;
        Ok(Core {
            ports,
            checkpoint,
            hist,
            moment: 0,
            passes: Passes::make(inputs),
            ends: Ends::make(inputs),
            queues,
            sets,
            tally: Counts::none(),
            refused: None,
        })
    }

    /// Enters an event. The answer is `Full`, and nothing has changed, exactly where it is a frame, a line or a tick and
    /// the history has no room for another input. It is `Nothing`, and nothing has changed, exactly where it is a tick for
    /// which there is room and no address has another state by its moment; then no probe is due either. Else it is the one
    /// entry that was made. A frame is judged by what is seen of it, which the caller has read of its octets. It costs what
    /// `AccessTable::age_to` costs of what falls due by then, with O(ports) for each probe, and for a frame what
    /// `AccessTable::judge` costs, then O(n) in the ports to which it goes and O(log n) in the stations that are kept,
    /// beside the copy of the octets and what `Fdb::learn` takes for a station that is new at its port.
    pub fn step(&mut self, ev: Event<'_>) -> Stepped
        requires may { MayStep self.old (event_of ev) }
        requires seen { IsSeenRightly ev }
        ensures { Did self.old (event_of ev.entry) self.new result }
    {
        match ev {
            Event::Frame {
                port,
                stamp,
                octets,
                seen,
            } => self.frame(port, stamp, octets, seen),
            Event::Long { port, stamp, len } => self.long(port, stamp, len),
            Event::Command { stamp, line } => self.command(stamp, line),
            Event::Tick { stamp } => self.tick(stamp),
            Event::End { who, how } => self.end(who, how),
        }
    }

    /// Takes at most so many items, frames or probes, from the front of a port's queue into the batch, in place of what it
    /// held. The answer is `Nothing`, and the core has not changed, exactly where nothing waits; it is never `Full`.
    /// O(items) beside the copy of their octets.
    pub fn drain(&mut self, port: Port, most: u32, into: &mut Batch) -> Stepped
        requires most { IsWithin 1 256 most }
        requires port { has_port self.old.plan (number_of port) ≡ true }
        ensures { Drained self.old port most self.new into.new result }
    {
        into.clear();
        let place = self.ports.place_of(port);
        let count = most.min(self.queues.len(place));
        if count == 0 {
            return Stepped::Nothing;
        }
        let entry = self.drain_entry(port, count);
        self.queues
            .drain(place, &self.hist, &self.ports, count, into);
        self.moment = entry.moment;
        self.tally.add(&entry);
        self.hist.append(entry, &[]);
        Stepped::Done(entry)
    }

    /// The plan of the switch. O(1).
    pub fn plan(&self) -> &Plan
        ensures { result.now ≡ self.now.plan }
    {
        self.ports.plan()
    }

    /// The history, as it is stored: its rows are those of the switch, the oldest first, and it is legal by the plan, which
    /// is valid. What only reads the history takes it from here. O(1).
    pub fn history(&self) -> &Hist
        ensures rows { reverse result.now.rows ≡ self.now.past }
        ensures few { length result.now.rows ≤ self.now.plan.entries }
        ensures legal { IsLegal self.now.plan (base_of self.now) self.now.past }
        ensures valid { IsValidPlan self.now.plan }
    {
        &self.hist
    }

    /// How many entries the history has, which is legal; no queue is longer than the plan's depth. O(1).
    pub fn len(&self) -> u64
        ensures len { result ≡ length self.now.past }
        ensures legal { IsLegal self.now.plan (base_of self.now) self.now.past }
        ensures within { HasShortQueues self.now }
    {
        let _moment = self.moment;
        self.hist.len()
    }

    /// The entry with this number, counted from 0. O(1).
    pub fn entry(&self, n: u64) -> Entry
        requires { n < length self.now.past }
        ensures { IsSomeAnd (row_at self.now n) (λ row. row.entry ≡ result) }
    {
        self.hist.entry(n)
    }

    /// The octets of the entry with this number, counted from 0. O(1).
    pub fn octets(&self, n: u64) -> &[u8]
        requires { n < length self.now.past }
        ensures { IsSomeAnd (row_at self.now n) (λ row. row.octets ≡ result.now) }
    {
        self.hist.octets(n)
    }

    /// How many items wait at a port of the plan. O(1).
    pub fn queued(&self, port: Port) -> u32
        requires { has_port self.now.plan (number_of port) ≡ true }
        ensures { result ≡ length (queue_at self.now port) }
    {
        self.queues.len(self.ports.place_of(port))
    }

    /// Whether a pass of the plan has ended. O(1).
    pub fn ended(&self, who: Who) -> bool
        requires { has_pass self.now.plan who ≡ true }
        ensures { result ≡ has_ended (base_of self.now) (pass_of self.now.plan who) self.now.past }
    {
        self.passes.has_ended(self.ports.pass_of(who))
    }

    /// How many of the ingress passes and control haven't ended. O(1).
    pub fn inputs_left(&self) -> u32
        ensures { result ≡ open_below (base_of self.now) self.now.past (control_pass self.now.plan + 1) }
    {
        self.passes.inputs_left()
    }

    /// Whether an input is paused in this history: so many of them have ended, and not for good. Then the ticker and the
    /// outputs are paused too, and the history goes on in a next one. O(1).
    pub fn has_pause(&self) -> bool
        ensures { result ≡ has_pause self.now.past }
    {
        self.passes.inputs_left() < self.ends.inputs_left()
    }

    /// Puts into a reply, in place of what it held, what the newest entry is answered, which is a command's: why it is
    /// refused; else, for a `show`, what the switch knows with that entry and at its moment; else `ok`. O(rows shown), in
    /// one pass: for `show stations` beside those passed over that have ended, and for `show ports` O(16 times the number
    /// of ports) for each port.
    pub fn reply(&self, into: &mut Reply)
        requires command { EndsWithCommand self.now.past }
        ensures { into.new ≡ shown self.now.plan (base_of self.now) self.now.past }
    {
        into.clear();
        match self.refused {
            Some(refusal) => into.put_refusal(refusal),
            None => self.tell(command(self.hist.octets(self.hist.len() - 1)), into),
        }
    }

    // Appends to an empty reply what a line is answered that isn't refused.
    fn tell(&self, order: Result<Command, CmdFault>, into: &mut Reply)
        requires empty { into.old ≡ [] }
        ensures { into.new ≡ reply_to self.now.plan (base_of self.now) self.now.past (last_moment (base_of self.now) self.now.past) order }
    {
        let sets = self.sets.as_slice();
        match order {
            Ok(Command::ShowBindings) => show_bindings(sets, &times_of(self.ports.plan()), into),
            Ok(Command::ShowPorts) => {
                show_ports(sets, &self.queues, &self.ports, self.moment, into);
            }
            Ok(Command::ShowCounters) => into.put_counters(self.counts()),
            Ok(Command::ShowStations) => show_stations(sets, self.moment, into),
            Ok(
                Command::Clear(_, _)
                | Command::Static(_, _)
                | Command::Shut(_)
                | Command::Reopen(_)
                | Command::Quit,
            ) => into.put_ok(),
            Err(fault) => into.put_refusal(fault_refusal(fault)),
        }
    }

    /// The number at a place among those of `show counters`, from 0, as of the last entry. O(1).
    pub fn count(&self, i: u32) -> u64
        requires { i < 27 }
        ensures { result ≡ counter_at i (counts_of (base_of self.now) self.now.past) }
    {
        self.counts().at(i)
    }

    // What is counted of the history's entries.
    fn counts(&self) -> &Counts
        ensures { result.now ≡ counts_of (base_of self.now) self.now.past }
    {
        &self.tally
    }

    /// Whether there is room for another input: 4,130 entries are kept free for drains and ends, and room for the octets of
    /// the longest frame. O(1).
    pub fn has_room(&self) -> bool
        ensures { result ≡ has_room self.now.plan self.now.past }
    {
        let plan = self.ports.plan();
        self.hist.len() + ENTRIES_RESERVED < plan.entries
            && self.hist.held() + FRAME_OCTETS_MOST as u64 <= plan.bytes
    }

    /// Whether the history has no room for another input, so that it is to be closed, and the next one goes on. O(1).
    pub fn full(&self) -> bool
        ensures { result ≡ not (has_room self.now.plan self.now.past) }
    {
        !self.has_room()
    }

    /// Goes on in a new segment, from what this one leaves, which is finished and in which an input is paused. Tables and
    /// stations stay where they are. It takes no memory, and costs O(n) in the addresses and the stations that are kept and
    /// in the entries that were made, and O(n^2) in the requests, at most 256.
    pub fn turn(&mut self)
        requires finished { IsFinished self.old.plan (base_of self.old) self.old.past }
        requires paused { has_pause self.old.past ≡ true }
        ensures { IsTurned self.old self.new }
    {
        histories_tell_rightly();
        a_table_goes_on_from_its_states();
        // each row that is kept has octets, none above 255, as the law on what is told asks
        let _entries = self.hist.len();
        let ports = self.ports.plan().ports.as_slice().len() as u32;
        self.checkpoint
            .begin(self.moment, self.queues.shut_ports(), &self.tally);
        keep_ends(&mut self.checkpoint, &self.ends, 2 * ports + 2);
        let sets = self.sets.as_slice();
        keep_rows(&mut self.checkpoint, sets);
        keep_requests(&mut self.checkpoint, sets, self.moment);
        keep_stations(&mut self.checkpoint, sets, self.moment);
        self.hist.clear();
        self.passes = self.ends.passes();
        self.queues.reopen(ports + 2, &self.ends);
        self.refused = None;
    }

    /// Writes the i-th line of what the history goes on from, counting from 0, in place of what the buffer held, and answers
    /// true; or answers false where there are no more lines. The line is without its line feed. O(1).
    pub fn put_base(&self, i: u32, into: &mut JournalLine) -> bool
        ensures line { OnTrue result (Some into.new.items ≡ slice_get (base_texts self.now.plan (base_of self.now)) i) }
        ensures past { result ≡ false → length (base_texts self.now.plan (base_of self.now)) ≤ i }
        ensures few { result ≡ true → i < 2 ^ 16 }
    {
        self.checkpoint.put_line(self.ports.plan(), i, into)
    }

    // Enters a frame.
    fn frame(&mut self, port: Port, stamp: u64, octets: &[u8], seen: &Seen) -> Stepped
        requires may { MayStep self.old (events.Frame port stamp octets.now) }
        requires seen { IsSeen octets.now seen.now }
        ensures { Did self.old (events.Frame port stamp octets.now) self.new result }
    {
        if self.has_room() {
            Stepped::Done(self.enter_frame(port, stamp, octets, seen))
        } else {
            Stepped::Full {
                len: self.hist.len(),
            }
        }
    }

    // Enters a frame for which there is room. The answer is its entry.
    fn enter_frame(&mut self, port: Port, stamp: u64, octets: &[u8], seen: &Seen) -> Entry
        requires may { MayStep self.old (events.Frame port stamp octets.now) }
        requires room { has_room self.old.plan self.old.past ≡ true }
        requires seen { IsSeen octets.now seen.now }
        ensures entered { self.new ≡ with_event self.old (events.Frame port stamp octets.now) }
        ensures entry { result ≡ entry_of self.old (events.Frame port stamp octets.now) }
    {
        let by = self.ports.pass_of(Who::Ingress(port));
        let moment = moment_at(self.moment, stamp);
        let act = self.frame_act(port, stamp, octets);
        let class = &seen.class;
        let origin = self.ports.origin_of(port, seen.tag);
        let sets = self.sets.as_mut_slice();
        let verdict = judge(
            sets,
            &mut self.queues,
            &self.ports,
            origin,
            class,
            self.moment,
            moment,
        );
        let outs = outs(
            &self.ports,
            sets,
            &self.queues,
            origin,
            moment,
            class,
            verdict,
        );
        let cuts = self.queues.offer_frame(&self.ports, outs, self.hist.len());
        let entry = Entry {
            by,
            moment,
            act,
            verdict: Some(verdict),
            outs,
            cuts,
            probes: self.queues.queued(),
            lost: self.queues.lost(),
        };
        teach(sets, origin, moment, class, verdict);
        self.moment = moment;
        self.tally.add(&entry);
        self.hist.append(entry, octets);
        entry
    }

    // The act of a frame, whose octets come next in the store.
    fn frame_act(&self, port: Port, stamp: u64, octets: &[u8]) -> Act
        requires { length octets.now ≤ 1518 }
        ensures { result ≡ events.frame_act self.now.past port stamp octets.now }
    {
        Act::Frame {
            port,
            stamp,
            at: self.hist.held(),
            len: octets.len() as u32,
        }
    }

    // The entry of a drain.
    fn drain_entry(&self, port: Port, count: u32) -> Entry
        ensures { result ≡ entry_of self.now (events.Drain port count) }
    {
        let by = self.ports.pass_of(Who::Egress(port));
        plain_entry(by, self.moment, Act::Drain { port, count })
    }

    // Enters a frame that is too long.
    fn long(&mut self, port: Port, stamp: u64, len: u32) -> Stepped
        requires { MayStep self.old (events.Long port stamp len) }
        ensures { Did self.old (events.Long port stamp len) self.new result }
    {
        if !self.has_room() {
            return Stepped::Full {
                len: self.hist.len(),
            };
        }
        let by = self.ports.pass_of(Who::Ingress(port));
        let moment = moment_at(self.moment, stamp);
        let sets = self.sets.as_mut_slice();
        age(
            sets,
            &mut self.queues,
            self.ports.plan(),
            self.moment,
            moment,
        );
        let entry = Entry {
            verdict: Some(judge_long(&self.queues, port)),
            probes: self.queues.queued(),
            lost: self.queues.lost(),
            ..plain_entry(by, moment, Act::Long { port, stamp, len })
        };
        self.moment = entry.moment;
        self.tally.add(&entry);
        self.hist.append(entry, &[]);
        Stepped::Done(entry)
    }

    // Enters a line from control, and does what it says.
    fn command(&mut self, stamp: u64, line: &[u8]) -> Stepped
        requires { MayStep self.old (events.Command stamp line.now) }
        ensures { Did self.old (events.Command stamp line.now) self.new result }
    {
        if !self.has_room() {
            return Stepped::Full {
                len: self.hist.len(),
            };
        }
        let by = self.ports.pass_of(Who::Control);
        let moment = moment_at(self.moment, stamp);
        let sets = self.sets.as_mut_slice();
        age(
            sets,
            &mut self.queues,
            self.ports.plan(),
            self.moment,
            moment,
        );
        let act = Act::Command {
            stamp,
            at: self.hist.held(),
            len: line.len() as u32,
        };
        let entry = Entry {
            probes: self.queues.queued(),
            lost: self.queues.lost(),
            ..plain_entry(by, moment, act)
        };
        self.refused = obey(sets, &mut self.queues, &self.ports, line, moment);
        self.moment = entry.moment;
        self.tally.add(&entry);
        self.hist.append(entry, line);
        Stepped::Done(entry)
    }

    // Enters a tick, where something is due by its moment.
    fn tick(&mut self, stamp: u64) -> Stepped
        requires { MayStep self.old (events.Tick stamp) }
        ensures { Did self.old (events.Tick stamp) self.new result }
    {
        if !self.has_room() {
            return Stepped::Full {
                len: self.hist.len(),
            };
        }
        let moment = moment_at(self.moment, stamp);
        let sets = self.sets.as_mut_slice();
        if !is_due(sets, moment) {
            return Stepped::Nothing;
        }
        let by = self.ports.pass_of(Who::Ticker);
        age(
            sets,
            &mut self.queues,
            self.ports.plan(),
            self.moment,
            moment,
        );
        let entry = Entry {
            probes: self.queues.queued(),
            lost: self.queues.lost(),
            ..plain_entry(by, moment, Act::Tick { stamp })
        };
        self.moment = entry.moment;
        self.tally.add(&entry);
        self.hist.append(entry, &[]);
        Stepped::Done(entry)
    }

    // Enters the end of a pass.
    fn end(&mut self, who: Who, how: How) -> Stepped
        requires { MayStep self.old (events.End who how) }
        ensures { Did self.old (events.End who how) self.new result }
    {
        let entry = self.end_entry(who, how);
        self.passes.end(entry.by);
        self.ends.put(entry.by, how);
        self.queues.end(&self.ports, who, how);
        self.moment = entry.moment;
        self.tally.add(&entry);
        self.hist.append(entry, &[]);
        Stepped::Done(entry)
    }

    // The entry of the end of a pass.
    fn end_entry(&self, who: Who, how: How) -> Entry
        ensures { result ≡ entry_of self.now (events.End who how) }
    {
        let by = self.ports.pass_of(who);
        plain_entry(by, self.moment, Act::End { who, how })
    }
}
