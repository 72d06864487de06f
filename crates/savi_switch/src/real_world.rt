//! The real world: files, Unix stream sockets, the standard outputs and the machine's clock.

ghost use Rattle.std.specs.Prelude.{◌≡◌, ◌≤◌, ℕ, List, true, false, Some, IfOk, IfErr, IfSome, OnErr};
ghost use Rattle.savi_kinds.specs.Ports.{number_of};
ghost use Rattle.savi_ends.specs.Faults.{Rose};

use crate::awaiting::Awaiting;
use crate::opener::{Opener, RealClock, RealEnds, RealSink, RealSource};
use end_places::{NamedSpot, NamedSpots, PortSpots, Spot};
use file_ends::{FileId, FileSink};
use port_ends::PortSink;
use savi_ends::{OpenFailed, Sink, Source, Std, World};
use savi_kinds::{Format, Port, PortPlan, Text};
use socket_ends::Resting;
use std::alloc::{AllocError, Global};
use std::fs::Files;
use std::net::Net;
use std::sync::Wait;

/// Files and sockets by name, the standard outputs, and the machine's clock. It tells nothing of what they hold, and keeps
/// each end in a fixed place: one input and sixteen outputs by name, and the ends of sixteen ports.
///
/// A port whose format is pcap is over files, and one whose format is stream over Unix sockets; so is control where it is
/// live, and else it is over files. A file that is written holds what it did before until the first octet is written; that of
/// replies, where a session wrote outputs and no reply, until it is kept.
#[derive(Drop)]
pub struct RealWorld<R: Files + Net + Wait + Copy + Drop> {
    host: HostRuntime,
    alloc: Global,
    faults: u64,
    opener: Opener<R>,
    // whether the output of a port was a file that was written
    has_written: bool,
    input: NamedSpot<RealSource<R>>,
    outputs: NamedSpots<RealSink<R>>,
    ports: PortSpots<RealEnds<R>>,
    control: Spot<RealEnds<R>>,
    ticker: Spot<RealClock<R>>,
    out: Spot<RealSink<R>>,
    err: Spot<RealSink<R>>,
}

impl<R: Files + Net + Wait + Copy + Drop> RealWorld<R> {
    ghost use Rattle.savi_ends.specs.Places.{HandedNothing};
    ghost use Rattle.file_ends.specs.Opened.{nothing_open, with_written};
    ghost use Rattle.savi_switch.specs.RealWorlds.{book_of};

    /// A world that has handed out nothing, where standard output and standard error are sent to these files, as far as they
    /// are regular ones. Its sockets and clocks look at what is awaited. `Err` is want of memory.
    pub fn make(
        host: HostRuntime,
        rt: R,
        alloc: Global,
        awaiting: &Awaiting,
        out: Option<FileId>,
        err: Option<FileId>,
    ) -> Result<RealWorld<R>, AllocError>
        ensures fresh { IfOk result (λ w. HandedNothing ⟦<RealSource<R> as Source>⟧.faults ⟦<RealSink<R> as Sink>⟧.faults (book_of w)) }
        ensures noted { IfOk result (λ w. w.opener.files ≡ with_written (with_written nothing_open out) err) }
    {
        Ok(RealWorld {
            host,
            alloc,
            faults: 0,
            opener: Opener::new(host, rt, alloc, awaiting.shared()?, out, err),
            has_written: false,
            input: NamedSpot::new(),
            outputs: NamedSpots::make(alloc)?,
            ports: PortSpots::make(alloc)?,
            control: Spot::new(),
            ticker: Spot::new(),
            out: Spot::new(),
            err: Spot::new(),
        })
    }

    // Whether the output of a port is a file that was written.
    fn is_written(ends: &RealEnds<R>) -> bool {
        match &ends.sink {
            PortSink::File(sink) => !sink.is_as_it_was(),
            PortSink::Socket(_) => false,
        }
    }

    // Empties the file of replies where a session has written none.
    fn empty_replies(&self, ends: &RealEnds<R>) {
        if let PortSink::File(sink) = &ends.sink {
            if self.has_written {
                let _emptied = sink.empty();
            }
        }
    }
}

// Counts an opening that failed.
fn fault(faults: &mut u64) -> OpenFailed
    ensures later { faults.old ≤ faults.new }
    ensures once { Rose faults.old faults.new }
{
    *faults = faults.saturating_add(1);
    OpenFailed
}

impl<R: Files + Net + Wait + Copy + Send + Sync + Drop> World for RealWorld<R> {
    ghost use Rattle.savi_ends.specs.Places.{Book, ControlKey, HandsOut, IsReady, Opens, OthersStay, OtherPortsStay, IsOnlyOut, IsPortOut, IsPortKept, IsControlOut, IsControlKept, BothFresh, port_key};
    ghost use Rattle.savi_switch.specs.RealWorlds.{book_of};
    ghost use Rattle.savi_switch.specs.Openings.{IsSourceNoted, IsSinkNoted, AreEndsNoted, IsSourceAlone};

    type S = RealSource<R>;

    type K = RealSink<R>;

    type C = RealClock<R>;

    ghost book = { book_of };

    fn faults(&self) -> u64 {
        self.faults
    }

    fn input(&mut self, name: &str) -> Result<RealSource<R>, OpenFailed>
        requires { IsReady (λ s. ⟦<RealSource<R> as Source>⟧.faults s ≡ 0) ((book_of self.old).inputs name.now) }
        ensures opens { Opens (λ s. ⟦<RealSource<R> as Source>⟧.faults s ≡ 0) (book_of self.old).faults (book_of self.new).faults ((book_of self.old).inputs name.now) ((book_of self.new).inputs name.now) result }
        ensures others { OthersStay (book_of self.old).inputs (book_of self.new).inputs name.now }
        ensures rest { book_of self.new ≡ record (book_of self.old) { faults = (book_of self.new).faults; inputs = (book_of self.new).inputs } }
        ensures noted { IfOk result (λ source. IsSourceNoted self.old.opener.files self.new.opener.files source) }
        ensures unnoted { OnErr result (self.new.opener.files ≡ self.old.opener.files) }
    {
        if !self.input.is_free() {
            return Err(fault(&mut self.faults));
        }
        let Ok(copy) = String::from_str(self.alloc, name) else {
            return Err(fault(&mut self.faults));
        };
        match self.opener.source(name) {
            Ok(source) => {
                self.input.hand_out(Text::new(copy));
                Ok(source)
            }
            Err(_) => Err(fault(&mut self.faults)),
        }
    }

    fn output(&mut self, name: &str) -> Result<RealSink<R>, OpenFailed>
        requires { IsReady (λ k. ⟦<RealSink<R> as Sink>⟧.faults k ≡ 0) ((book_of self.old).outputs name.now) }
        ensures opens { Opens (λ k. ⟦<RealSink<R> as Sink>⟧.faults k ≡ 0) (book_of self.old).faults (book_of self.new).faults ((book_of self.old).outputs name.now) ((book_of self.new).outputs name.now) result }
        ensures others { OthersStay (book_of self.old).outputs (book_of self.new).outputs name.now }
        ensures rest { book_of self.new ≡ record (book_of self.old) { faults = (book_of self.new).faults; outputs = (book_of self.new).outputs } }
        ensures noted { IfOk result (λ sink. IsSinkNoted self.old.opener.files self.new.opener.files sink) }
        ensures unnoted { OnErr result (self.new.opener.files ≡ self.old.opener.files) }
    {
        if self.outputs.is_full() {
            return Err(fault(&mut self.faults));
        }
        let Ok(copy) = String::from_str(self.alloc, name) else {
            return Err(fault(&mut self.faults));
        };
        match self.opener.sink(name) {
            Ok(sink) => {
                self.outputs.hand_out(Text::new(copy));
                Ok(sink)
            }
            Err(_) => Err(fault(&mut self.faults)),
        }
    }

    fn port(&mut self, n: Port, plan: &PortPlan) -> Result<RealEnds<R>, OpenFailed>
        requires planned { number_of plan.now.number ≡ number_of n }
        requires ready { IsReady (BothFresh ⟦<RealSource<R> as Source>⟧.faults ⟦<RealSink<R> as Sink>⟧.faults) ((book_of self.old).ports (port_key plan.now)) }
        ensures opens { Opens (BothFresh ⟦<RealSource<R> as Source>⟧.faults ⟦<RealSink<R> as Sink>⟧.faults) (book_of self.old).faults (book_of self.new).faults ((book_of self.old).ports (port_key plan.now)) ((book_of self.new).ports (port_key plan.now)) result }
        ensures others { OtherPortsStay (book_of self.old).ports (book_of self.new).ports (number_of n) }
        ensures unopened { OnErr result ((book_of self.new).ports ≡ (book_of self.old).ports) }
        ensures rest { book_of self.new ≡ record (book_of self.old) { faults = (book_of self.new).faults; ports = (book_of self.new).ports } }
        ensures noted { IfOk result (λ ends. AreEndsNoted self.old.opener.files self.new.opener.files ends.source ends.sink) }
        ensures unnoted { IfErr result (λ e. IsSourceAlone self.old.opener.files self.new.opener.files) }
    {
        let live = match plan.format {
            Format::Pcap => None,
            Format::Stream => Some(Resting::Drops),
        };
        match self
            .opener
            .ends(plan.input.as_str(), plan.output.as_str(), live)
        {
            Some(ends) => {
                self.ports.hand_out(n);
                Ok(ends)
            }
            None => Err(fault(&mut self.faults)),
        }
    }

    fn control(&mut self, source: &str, sink: &str, live: bool) -> Result<RealEnds<R>, OpenFailed>
        requires { IsReady (BothFresh ⟦<RealSource<R> as Source>⟧.faults ⟦<RealSink<R> as Sink>⟧.faults) ((book_of self.old).control (record { source = source.now; sink = sink.now; live = live })) }
        ensures opens { Opens (BothFresh ⟦<RealSource<R> as Source>⟧.faults ⟦<RealSink<R> as Sink>⟧.faults) (book_of self.old).faults (book_of self.new).faults ((book_of self.old).control (record { source = source.now; sink = sink.now; live = live })) ((book_of self.new).control (record { source = source.now; sink = sink.now; live = live })) result }
        ensures unopened { OnErr result ((book_of self.new).control ≡ (book_of self.old).control) }
        ensures rest { book_of self.new ≡ record (book_of self.old) { faults = (book_of self.new).faults; control = (book_of self.new).control } }
        ensures noted { IfOk result (λ ends. AreEndsNoted self.old.opener.files self.new.opener.files ends.source ends.sink) }
        ensures unnoted { IfErr result (λ e. IsSourceAlone self.old.opener.files self.new.opener.files) }
    {
        let live = if live { Some(Resting::Fails) } else { None };
        match self.opener.ends(source, sink, live) {
            Some(ends) => {
                self.control.hand_out();
                Ok(ends)
            }
            None => Err(fault(&mut self.faults)),
        }
    }

    fn ticker(&mut self) -> RealClock<R>
        requires { (book_of self.old).ticker.is_out ≡ false }
        ensures hands { HandsOut (book_of self.old).ticker (book_of self.new).ticker result }
        ensures rest { book_of self.new ≡ record (book_of self.old) { ticker = (book_of self.new).ticker } }
        ensures files { self.new.opener.files ≡ self.old.opener.files }
    {
        self.ticker.hand_out();
        self.opener.clock()
    }

    fn std(&mut self, which: Std) -> RealSink<R>
        requires { IsReady (λ k. ⟦<RealSink<R> as Sink>⟧.faults k ≡ 0) ((book_of self.old).std which) }
        ensures hands { HandsOut ((book_of self.old).std which) ((book_of self.new).std which) result }
        ensures fresh { ⟦<RealSink<R> as Sink>⟧.faults result ≡ 0 }
        ensures others { OthersStay (book_of self.old).std (book_of self.new).std which }
        ensures rest { book_of self.new ≡ record (book_of self.old) { std = (book_of self.new).std } }
        ensures files { self.new.opener.files ≡ self.old.opener.files }
    {
        match which {
            Std::Out => {
                self.out.hand_out();
                PortSink::File(FileSink::out(self.host.stdout()))
            }
            Std::Err => {
                self.err.hand_out();
                PortSink::File(FileSink::err(self.host.stderr()))
            }
        }
    }

    fn keep_port(&mut self, n: Port, ends: RealEnds<R>)
        requires { IsPortOut (book_of self.old).ports (number_of n) }
        ensures kept { IsPortKept (book_of self.old).ports (book_of self.new).ports (number_of n) ends }
        ensures others { OtherPortsStay (book_of self.old).ports (book_of self.new).ports (number_of n) }
        ensures rest { book_of self.new ≡ record (book_of self.old) { ports = (book_of self.new).ports } }
        ensures files { self.new.opener.files ≡ self.old.opener.files }
    {
        self.has_written = self.has_written || Self::is_written(&ends);
        self.ports.keep(n, ends);
    }

    fn keep_control(&mut self, ends: RealEnds<R>)
        requires { IsControlOut (book_of self.old).control }
        ensures kept { IsControlKept (book_of self.old).control (book_of self.new).control ends }
        ensures rest { book_of self.new ≡ record (book_of self.old) { control = (book_of self.new).control } }
        ensures files { self.new.opener.files ≡ self.old.opener.files }
    {
        self.empty_replies(&ends);
        self.control.keep(ends);
    }

    fn keep_input(&mut self, source: RealSource<R>)
        requires { (name : _) × IsOnlyOut (book_of self.old).inputs name }
        ensures kept { (name : _) → IsOnlyOut (book_of self.old).inputs name → ((book_of self.new).inputs name).stands ≡ Some source }
        ensures others { (name : _) → IsOnlyOut (book_of self.old).inputs name → OthersStay (book_of self.old).inputs (book_of self.new).inputs name }
        ensures rest { book_of self.new ≡ record (book_of self.old) { inputs = (book_of self.new).inputs } }
        ensures files { self.new.opener.files ≡ self.old.opener.files }
    {
        self.input.keep(source);
    }

    fn keep_output(&mut self, name: &str, sink: RealSink<R>)
        requires { ((book_of self.old).outputs name.now).is_out ≡ true }
        ensures kept { ((book_of self.new).outputs name.now).stands ≡ Some sink }
        ensures others { OthersStay (book_of self.old).outputs (book_of self.new).outputs name.now }
        ensures rest { book_of self.new ≡ record (book_of self.old) { outputs = (book_of self.new).outputs } }
        ensures files { self.new.opener.files ≡ self.old.opener.files }
    {
        self.outputs.keep(name, sink);
    }

    fn keep_ticker(&mut self, clock: RealClock<R>)
        requires { (book_of self.old).ticker.is_out ≡ true }
        ensures kept { (book_of self.new).ticker.stands ≡ Some clock }
        ensures rest { book_of self.new ≡ record (book_of self.old) { ticker = (book_of self.new).ticker } }
        ensures files { self.new.opener.files ≡ self.old.opener.files }
    {
        self.ticker.keep(clock);
    }

    fn keep_std(&mut self, which: Std, sink: RealSink<R>)
        requires { ((book_of self.old).std which).is_out ≡ true }
        ensures kept { ((book_of self.new).std which).stands ≡ Some sink }
        ensures others { OthersStay (book_of self.old).std (book_of self.new).std which }
        ensures rest { book_of self.new ≡ record (book_of self.old) { std = (book_of self.new).std } }
        ensures files { self.new.opener.files ≡ self.old.opener.files }
    {
        match which {
            Std::Out => self.out.keep(sink),
            Std::Err => self.err.keep(sink),
        }
    }
}
