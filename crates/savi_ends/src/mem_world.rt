ghost use Rattle.std.specs.Prelude.{◌≡◌, ◌≤◌, ◌↔◌, ℕ, true, false, IsTrue, IsSomeAnd, OnErr, All, Some, is_ok, is_some};
ghost use Rattle.savi_kinds.specs.Ports.{number_of};
ghost use Rattle.savi_ends.specs.MemPlaces.{NamesDiffer};
ghost use Rattle.savi_ends.specs.Counts.{next_count, is_listed};
ghost use Rattle.savi_ends.specs.Faults.{Rose};
ghost use Rattle.savi_ends.specs.Places.{BothFresh};

use crate::mem_clock::MemClock;
use crate::mem_places::{put_named, put_numbered, put_only, take_named, take_numbered};
use crate::mem_sink::MemSink;
use crate::mem_source::MemSource;
use crate::sink::Sink;
use crate::source::Source;
use crate::world::{Ends, OpenFailed, Std, World};
use savi_kinds::{Port, PortPlan, Text};

/// The ends of a port or of control in memory.
pub type MemEnds = Ends<MemSource, MemSink, MemClock>;

/// A world in memory, whose openings fail where they are told to.
///
/// A place that holds `None` counts as handed out, and a `keep` call puts the end back. A name or port
/// without a place is an opening that fails. Where two places have one name or port, each call means
/// the first; no two inputs may have one name, since `keep_input` has no name to go by. `control`
/// serves any two names. Each call is O(n) in the places of its list and the openings that are to fail.
#[derive(Drop)]
pub struct MemWorld {
    pub inputs: Vec<(Text, Option<MemSource>)>,
    pub outputs: Vec<(Text, Option<MemSink>)>,
    pub ports: Vec<(Port, Option<MemEnds>)>,
    pub control: Option<MemEnds>,
    pub ticker: Option<MemClock>,
    pub out: Option<MemSink>,
    pub err: Option<MemSink>,
    /// The numbers, counted from 1, of the openings that are to fail.
    pub fails: Vec<u64>,
    /// How many openings were tried.
    pub opened: u64,
    /// How many of them failed.
    pub faulty: u64,
    pub ghost inputs_differ: { NamesDiffer inputs.items },
}

impl MemWorld {
    ghost use Rattle.savi_ends.specs.Places.{HandedNothing};
    ghost use Rattle.savi_ends.specs.MemWorlds.{book_of};
    ghost use Rattle.savi_ends.specs.FreshWorlds.{IsFreshWorld};

    /// Whether each place holds an end, no end has a fault, and nothing was opened: the world of a
    /// program that begins.
    pub fn is_fresh(&self) -> bool
        ensures fresh { IsTrue result ↔ IsFreshWorld self.now }
        ensures nothing { IsTrue result → HandedNothing ⟦<MemSource as Source>⟧.faults ⟦<MemSink as Sink>⟧.faults (book_of self.now) }
    {
        if self.opened != 0 || self.faulty != 0 || self.ticker.is_none() {
            return false;
        }
        if !are_fresh_sources(&self.inputs)
            || !are_fresh_sinks(&self.outputs)
            || !are_fresh_ports(&self.ports)
        {
            return false;
        }
        is_fresh_ends(&self.control) && is_fresh_sink(&self.out) && is_fresh_sink(&self.err)
    }
}

impl World for MemWorld {
    ghost use Rattle.savi_ends.specs.Places.{Book, ControlKey, HandsOut, IsReady, Opens, OthersStay, OtherPortsStay, IsOnlyOut, IsPortOut, IsPortKept, IsControlOut, IsControlKept, port_key};
    ghost use Rattle.savi_ends.specs.MemPlaces.{keys_of};
    ghost use Rattle.savi_ends.specs.MemWorlds.{book_of, openings_of, next_works, after_opening};

    type S = MemSource;

    type K = MemSink;

    type C = MemClock;

    ghost book = { book_of };

    fn faults(&self) -> u64 {
        self.faulty
    }

    fn input(&mut self, name: &str) -> Result<MemSource, OpenFailed>
        requires { IsReady (λ s. ⟦<MemSource as Source>⟧.faults s ≡ 0) ((book_of self.old).inputs name.now) }
        ensures opens { Opens (λ s. ⟦<MemSource as Source>⟧.faults s ≡ 0) (book_of self.old).faults (book_of self.new).faults ((book_of self.old).inputs name.now) ((book_of self.new).inputs name.now) result }
        ensures others { OthersStay (book_of self.old).inputs (book_of self.new).inputs name.now }
        ensures rest { book_of self.new ≡ record (book_of self.old) { faults = (book_of self.new).faults; inputs = (book_of self.new).inputs } }

        // Whether the opening works, and what it counts.
        ensures works { is_ok result ≡ next_works (openings_of self.old) (is_some ((book_of self.old).inputs name.now).stands) }
        ensures counts { openings_of self.new ≡ after_opening (openings_of self.old) (is_ok result) }
        ensures keys { keys_of self.new.inputs.items ≡ keys_of self.old.inputs.items }
    {
        if is_next_to_fail(&mut self.opened, &self.fails) {
            return Err(fault(&mut self.faulty));
        }
        match take_named(&mut self.inputs, name) {
            Some(end) => Ok(end),
            None => Err(fault(&mut self.faulty)),
        }
    }

    fn output(&mut self, name: &str) -> Result<MemSink, OpenFailed>
        requires { IsReady (λ k. ⟦<MemSink as Sink>⟧.faults k ≡ 0) ((book_of self.old).outputs name.now) }
        ensures opens { Opens (λ k. ⟦<MemSink as Sink>⟧.faults k ≡ 0) (book_of self.old).faults (book_of self.new).faults ((book_of self.old).outputs name.now) ((book_of self.new).outputs name.now) result }
        ensures others { OthersStay (book_of self.old).outputs (book_of self.new).outputs name.now }
        ensures rest { book_of self.new ≡ record (book_of self.old) { faults = (book_of self.new).faults; outputs = (book_of self.new).outputs } }

        // Whether the opening works, and what it counts.
        ensures works { is_ok result ≡ next_works (openings_of self.old) (is_some ((book_of self.old).outputs name.now).stands) }
        ensures counts { openings_of self.new ≡ after_opening (openings_of self.old) (is_ok result) }
        ensures keys { keys_of self.new.outputs.items ≡ keys_of self.old.outputs.items }
    {
        if is_next_to_fail(&mut self.opened, &self.fails) {
            return Err(fault(&mut self.faulty));
        }
        match take_named(&mut self.outputs, name) {
            Some(end) => Ok(end),
            None => Err(fault(&mut self.faulty)),
        }
    }

    fn port(&mut self, n: Port, plan: &PortPlan) -> Result<MemEnds, OpenFailed>
        requires planned { number_of plan.now.number ≡ number_of n }
        requires ready { IsReady (BothFresh ⟦<MemSource as Source>⟧.faults ⟦<MemSink as Sink>⟧.faults) ((book_of self.old).ports (port_key plan.now)) }
        ensures opens { Opens (BothFresh ⟦<MemSource as Source>⟧.faults ⟦<MemSink as Sink>⟧.faults) (book_of self.old).faults (book_of self.new).faults ((book_of self.old).ports (port_key plan.now)) ((book_of self.new).ports (port_key plan.now)) result }
        ensures others { OtherPortsStay (book_of self.old).ports (book_of self.new).ports (number_of n) }
        ensures unopened { OnErr result ((book_of self.new).ports ≡ (book_of self.old).ports) }
        ensures rest { book_of self.new ≡ record (book_of self.old) { faults = (book_of self.new).faults; ports = (book_of self.new).ports } }

        // Whether the opening works, and what it counts.
        ensures works { is_ok result ≡ next_works (openings_of self.old) (is_some ((book_of self.old).ports (port_key plan.now)).stands) }
        ensures counts { openings_of self.new ≡ after_opening (openings_of self.old) (is_ok result) }
        ensures keys { keys_of self.new.ports.items ≡ keys_of self.old.ports.items }
    {
        let _ = plan;
        if is_next_to_fail(&mut self.opened, &self.fails) {
            return Err(fault(&mut self.faulty));
        }
        match take_numbered(&mut self.ports, n) {
            Some(end) => Ok(end),
            None => Err(fault(&mut self.faulty)),
        }
    }

    fn control(&mut self, source: &str, sink: &str, live: bool) -> Result<MemEnds, OpenFailed>
        requires { IsReady (BothFresh ⟦<MemSource as Source>⟧.faults ⟦<MemSink as Sink>⟧.faults) ((book_of self.old).control (record { source = source.now; sink = sink.now; live = live })) }
        ensures opens { Opens (BothFresh ⟦<MemSource as Source>⟧.faults ⟦<MemSink as Sink>⟧.faults) (book_of self.old).faults (book_of self.new).faults ((book_of self.old).control (record { source = source.now; sink = sink.now; live = live })) ((book_of self.new).control (record { source = source.now; sink = sink.now; live = live })) result }
        ensures unopened { OnErr result ((book_of self.new).control ≡ (book_of self.old).control) }
        ensures rest { book_of self.new ≡ record (book_of self.old) { faults = (book_of self.new).faults; control = (book_of self.new).control } }

        // Whether the opening works, and what it counts.
        ensures works { is_ok result ≡ next_works (openings_of self.old) (is_some ((book_of self.old).control (record { source = source.now; sink = sink.now; live = live })).stands) }
        ensures counts { openings_of self.new ≡ after_opening (openings_of self.old) (is_ok result) }
    {
        let _ = source;
        let _ = sink;
        let _ = live;
        if is_next_to_fail(&mut self.opened, &self.fails) {
            return Err(fault(&mut self.faulty));
        }
        match self.control.take() {
            Some(end) => Ok(end),
            None => Err(fault(&mut self.faulty)),
        }
    }

    fn ticker(&mut self) -> MemClock
        requires { (book_of self.old).ticker.is_out ≡ false }
        ensures hands { HandsOut (book_of self.old).ticker (book_of self.new).ticker result }
        ensures rest { book_of self.new ≡ record (book_of self.old) { ticker = (book_of self.new).ticker } }
        ensures counts { openings_of self.new ≡ openings_of self.old }
    {
        match self.ticker.take() {
            Some(clock) => clock,
            None => unreachable!(),
        }
    }

    fn std(&mut self, which: Std) -> MemSink
        requires { IsReady (λ k. ⟦<MemSink as Sink>⟧.faults k ≡ 0) ((book_of self.old).std which) }
        ensures hands { HandsOut ((book_of self.old).std which) ((book_of self.new).std which) result }
        ensures fresh { ⟦<MemSink as Sink>⟧.faults result ≡ 0 }
        ensures others { OthersStay (book_of self.old).std (book_of self.new).std which }
        ensures rest { book_of self.new ≡ record (book_of self.old) { std = (book_of self.new).std } }
        ensures counts { openings_of self.new ≡ openings_of self.old }
    {
        let taken = match which {
            Std::Out => self.out.take(),
            Std::Err => self.err.take(),
        };
        match taken {
            Some(sink) => sink,
            None => unreachable!(),
        }
    }

    fn keep_port(&mut self, n: Port, ends: MemEnds)
        requires { IsPortOut (book_of self.old).ports (number_of n) }
        ensures kept { IsPortKept (book_of self.old).ports (book_of self.new).ports (number_of n) ends }
        ensures others { OtherPortsStay (book_of self.old).ports (book_of self.new).ports (number_of n) }
        ensures rest { book_of self.new ≡ record (book_of self.old) { ports = (book_of self.new).ports } }
        ensures counts { openings_of self.new ≡ openings_of self.old }
        ensures keys { keys_of self.new.ports.items ≡ keys_of self.old.ports.items }
    {
        put_numbered(&mut self.ports, n, ends);
    }

    fn keep_control(&mut self, ends: MemEnds)
        requires { IsControlOut (book_of self.old).control }
        ensures kept { IsControlKept (book_of self.old).control (book_of self.new).control ends }
        ensures rest { book_of self.new ≡ record (book_of self.old) { control = (book_of self.new).control } }
        ensures counts { openings_of self.new ≡ openings_of self.old }
    {
        self.control = Some(ends);
    }

    fn keep_input(&mut self, source: MemSource)
        requires { (name : _) × IsOnlyOut (book_of self.old).inputs name }
        ensures kept { (name : _) → IsOnlyOut (book_of self.old).inputs name → ((book_of self.new).inputs name).stands ≡ Some source }
        ensures others { (name : _) → IsOnlyOut (book_of self.old).inputs name → OthersStay (book_of self.old).inputs (book_of self.new).inputs name }
        ensures rest { book_of self.new ≡ record (book_of self.old) { inputs = (book_of self.new).inputs } }
        ensures counts { openings_of self.new ≡ openings_of self.old }
        ensures keys { keys_of self.new.inputs.items ≡ keys_of self.old.inputs.items }
    {
        put_only(&mut self.inputs, source);
    }

    fn keep_output(&mut self, name: &str, sink: MemSink)
        requires { ((book_of self.old).outputs name.now).is_out ≡ true }
        ensures kept { ((book_of self.new).outputs name.now).stands ≡ Some sink }
        ensures others { OthersStay (book_of self.old).outputs (book_of self.new).outputs name.now }
        ensures rest { book_of self.new ≡ record (book_of self.old) { outputs = (book_of self.new).outputs } }
        ensures counts { openings_of self.new ≡ openings_of self.old }
        ensures keys { keys_of self.new.outputs.items ≡ keys_of self.old.outputs.items }
    {
        put_named(&mut self.outputs, name, sink);
    }

    fn keep_ticker(&mut self, clock: MemClock)
        requires { (book_of self.old).ticker.is_out ≡ true }
        ensures kept { (book_of self.new).ticker.stands ≡ Some clock }
        ensures rest { book_of self.new ≡ record (book_of self.old) { ticker = (book_of self.new).ticker } }
        ensures counts { openings_of self.new ≡ openings_of self.old }
    {
        self.ticker = Some(clock);
    }

    fn keep_std(&mut self, which: Std, sink: MemSink)
        requires { ((book_of self.old).std which).is_out ≡ true }
        ensures kept { ((book_of self.new).std which).stands ≡ Some sink }
        ensures others { OthersStay (book_of self.old).std (book_of self.new).std which }
        ensures rest { book_of self.new ≡ record (book_of self.old) { std = (book_of self.new).std } }
        ensures counts { openings_of self.new ≡ openings_of self.old }
    {
        match which {
            Std::Out => self.out = Some(sink),
            Std::Err => self.err = Some(sink),
        }
    }
}

// Whether each place holds a source without a fault.
fn are_fresh_sources(places: &[(Text, Option<MemSource>)]) -> bool
    ensures { IsTrue result ↔ All (λ p. IsSomeAnd p.1 (λ s. ⟦<MemSource as Source>⟧.faults s ≡ 0)) places.now }
{
    places.iter().all(|place| is_fresh_source(&place.1))
}

// Whether each place holds a sink without a fault.
fn are_fresh_sinks(places: &[(Text, Option<MemSink>)]) -> bool
    ensures { IsTrue result ↔ All (λ p. IsSomeAnd p.1 (λ k. ⟦<MemSink as Sink>⟧.faults k ≡ 0)) places.now }
{
    places.iter().all(|place| is_fresh_sink(&place.1))
}

// Whether each place holds ends without a fault.
fn are_fresh_ports(places: &[(Port, Option<MemEnds>)]) -> bool
    ensures { IsTrue result ↔ All (λ p. IsSomeAnd p.1 (BothFresh ⟦<MemSource as Source>⟧.faults ⟦<MemSink as Sink>⟧.faults)) places.now }
{
    places.iter().all(|place| is_fresh_ends(&place.1))
}

// Whether a source is there and has no fault.
fn is_fresh_source(source: &Option<MemSource>) -> bool
    ensures { IsTrue result ↔ IsSomeAnd source.now (λ s. ⟦<MemSource as Source>⟧.faults s ≡ 0) }
{
    match source {
        Some(source) => source.faults() == 0,
        None => false,
    }
}

// Whether a sink is there and has no fault.
fn is_fresh_sink(sink: &Option<MemSink>) -> bool
    ensures { IsTrue result ↔ IsSomeAnd sink.now (λ k. ⟦<MemSink as Sink>⟧.faults k ≡ 0) }
{
    match sink {
        Some(sink) => sink.faults() == 0,
        None => false,
    }
}

// Whether the ends are there, and neither the source nor the sink has a fault.
fn is_fresh_ends(ends: &Option<MemEnds>) -> bool
    ensures { IsTrue result ↔ IsSomeAnd ends.now (BothFresh ⟦<MemSource as Source>⟧.faults ⟦<MemSink as Sink>⟧.faults) }
{
    match ends {
        Some(ends) => ends.source.faults() == 0 && ends.sink.faults() == 0,
        None => false,
    }
}

// Counts an opening, and says whether its number is one of those that are to fail.
fn is_next_to_fail(opened: &mut u64, fails: &[u64]) -> bool
    ensures count { opened.new ≡ next_count opened.old }
    ensures fails { result ≡ is_listed (next_count opened.old) fails.now }
{
    *opened = opened.saturating_add(1);
    fails.contains(opened)
}

// Counts a fault.
fn fault(faulty: &mut u64) -> OpenFailed
    ensures count { faulty.new ≡ next_count faulty.old }
    ensures later { faulty.old ≤ faulty.new }
    ensures once { Rose faulty.old faulty.new }
{
    *faulty = faulty.saturating_add(1);
    OpenFailed
}
