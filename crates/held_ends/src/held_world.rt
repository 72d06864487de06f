//! The world of three ports.

ghost use Rattle.std.specs.Prelude.{◌≡◌, ◌≤◌, ℕ, List, true, false, Some, IfOk, IfSome};
ghost use Rattle.savi_kinds.specs.Ports.{number_of};
ghost use Rattle.savi_ends.specs.Faults.{Rose};

use crate::frames::{FIRST_OF_1, FIRST_OF_2, FIRST_OF_3, SECOND_OF_1, SECOND_OF_2, SECOND_OF_3};
use crate::held_clock::HeldClock;
use crate::held_sink::{HeldSink, Hold};
use crate::held_source::{HeldSource, Note};
use crate::marks::Marks;
use end_places::{NamedSpot, PortSpots, Spot};
use savi_ends::{Ends, MemClock, MemSink, OpenFailed, Sink, Source, Std, World};
use savi_kinds::{Port, PortPlan, Text};
use std::alloc::{AllocError, Global};

/// The names of the configuration, of the journal, of the input of control and of its output.
pub const PLAN: &str = "plan";

pub const JOURNAL: &str = "journal.txt";

pub const COMMANDS: &str = "commands";

pub const REPLIES: &str = "replies";

/// Room for what is written at a port or by control, and of the journal.
const FILE_ROOM: usize = 8_192;

const JOURNAL_ROOM: usize = 65_536;

/// Room for what standard output and standard error are told.
const TEXT_ROOM: usize = 256;

/// What the ends of a world wait for.
#[derive(Clone, Copy)]
pub enum Waits {
    /// They wait for one another, and port 3 brings nothing.
    ForOneAnother,
    /// They wait for nothing, and each port brings two frames.
    ForNothing,
    /// They wait for nothing, ports 1 and 2 bring five frames each, and the journal's sink notes that a segment has ended.
    ForASegment,
    /// They wait for nothing, port 1 brings 70 frames, of which its source notes each read, and the others bring none.
    ForAFullRing,
}

/// How many frames a port brings where a segment ends behind them, and where its ring is filled.
const SEGMENT_FRAMES: u32 = 5;

const RING_FRAMES: u32 = 70;

/// The ends of a port, or of control.
pub type HeldEnds<'a> = Ends<HeldSource<'a>, HeldSink<'a>, HeldClock<'a>>;

/// A world of a configuration, three ports, control and a journal, whose ends it makes as they are opened.
#[derive(Drop)]
pub struct HeldWorld<'a> {
    alloc: Global,
    rt: HostRuntime,
    marks: &'a Marks,
    waits: Waits,
    plan: String,
    faults: u64,
    input: NamedSpot<HeldSource<'a>>,
    output: NamedSpot<HeldSink<'a>>,
    ports: PortSpots<HeldEnds<'a>>,
    control: Spot<HeldEnds<'a>>,
    ticker: Option<HeldClock<'a>>,
    out: Option<HeldSink<'a>>,
    err: Option<HeldSink<'a>>,
}

impl<'a> HeldWorld<'a> {
    ghost use Rattle.savi_ends.specs.Places.{HandedNothing};
    ghost use Rattle.held_ends.specs.HeldWorlds.{book_of};

    /// A world with this configuration that has handed out nothing. `Err` is want of memory.
    pub fn make(
        alloc: Global,
        rt: HostRuntime,
        plan: String,
        marks: &'a Marks,
        waits: Waits,
    ) -> Result<HeldWorld<'a>, AllocError>
        ensures { IfOk result (λ w. HandedNothing ⟦<HeldSource<'a> as Source>⟧.faults ⟦<HeldSink<'a> as Sink>⟧.faults (book_of w)) }
    {
        let out = MemSink::make(alloc, TEXT_ROOM, Vec::new(alloc))?;
        let err = MemSink::make(alloc, TEXT_ROOM, Vec::new(alloc))?;
        let waited = match waits {
            Waits::ForOneAnother => Some(marks),
            Waits::ForNothing | Waits::ForASegment | Waits::ForAFullRing => None,
        };
        Ok(HeldWorld {
            alloc,
            rt,
            marks,
            waits,
            plan,
            faults: 0,
            input: NamedSpot::new(),
            output: NamedSpot::new(),
            ports: PortSpots::make(alloc)?,
            control: Spot::new(),
            ticker: Some(HeldClock::new(rt, MemClock::new(Vec::new(alloc)), waited)),
            out: Some(HeldSink::new(rt, out, Hold::Nothing)),
            err: Some(HeldSink::new(rt, err, Hold::Nothing)),
        })
    }

    // The source of the configuration.
    fn plan_source(&self) -> Result<HeldSource<'a>, AllocError>
        ensures { IfOk result (λ s. ⟦<HeldSource<'a> as Source>⟧.faults s ≡ 0) }
    {
        let octets = self.plan.as_bytes().to_vec(self.alloc)?;
        Ok(HeldSource::new(self.alloc, self.rt, octets, Note::Nothing))
    }

    // A sink in which nothing is written yet.
    fn file_sink(&self, hold: Hold<'a>) -> Result<HeldSink<'a>, AllocError>
        ensures { IfOk result (λ k. ⟦<HeldSink<'a> as Sink>⟧.faults k ≡ 0) }
    {
        let sink = MemSink::make(self.alloc, FILE_ROOM, Vec::new(self.alloc))?;
        Ok(HeldSink::new(self.rt, sink, hold))
    }

    // The sink of the journal.
    fn journal_sink(&self) -> Result<HeldSink<'a>, AllocError>
        ensures { IfOk result (λ k. ⟦<HeldSink<'a> as Sink>⟧.faults k ≡ 0) }
    {
        let hold = match self.waits {
            Waits::ForASegment => Hold::Closed(self.marks),
            Waits::ForOneAnother | Waits::ForNothing | Waits::ForAFullRing => Hold::Nothing,
        };
        let sink = MemSink::make(self.alloc, JOURNAL_ROOM, Vec::new(self.alloc))?;
        Ok(HeldSink::new(self.rt, sink, hold))
    }

    // The ends of a port.
    fn ends_of(&self, number: u8) -> Result<HeldEnds<'a>, AllocError>
        ensures source { IfOk result (λ ends. ⟦<HeldSource<'a> as Source>⟧.faults ends.source ≡ 0) }
        ensures sink { IfOk result (λ ends. ⟦<HeldSink<'a> as Sink>⟧.faults ends.sink ≡ 0) }
    {
        let note = match (self.waits, number) {
            (Waits::ForOneAnother, 1) => Note::Reads(self.marks),
            (Waits::ForAFullRing, 1) => Note::Counts(self.marks),
            _ => Note::Nothing,
        };
        let hold = match (self.waits, number) {
            (Waits::ForOneAnother, 3) => Hold::Firsts(self.marks),
            _ => Hold::Nothing,
        };
        Ok(Ends {
            source: HeldSource::new(self.alloc, self.rt, self.records_of(number)?, note),
            sink: self.file_sink(hold)?,
            clock: self.clock(),
        })
    }

    // Adds two frames of a port by turns, so many in all.
    fn add_by_turns(
        &self,
        octets: &mut Vec<u8>,
        first: &[u8],
        second: &[u8],
        count: u32,
    ) -> Result<(), AllocError> {
        for number in 0..count {
            let frame = if number % 2 == 0 { first } else { second };
            octets.extend_from_slice(frame)?;
        }
        Ok(())
    }

    // What a port brings.
    fn records_of(&self, number: u8) -> Result<Vec<u8>, AllocError> {
        let mut octets = Vec::new(self.alloc);
        match (self.waits, number) {
            (Waits::ForASegment, 1) => {
                self.add_by_turns(&mut octets, &FIRST_OF_1, &SECOND_OF_1, SEGMENT_FRAMES)?
            }
            (Waits::ForASegment, 2) => {
                self.add_by_turns(&mut octets, &FIRST_OF_2, &SECOND_OF_2, SEGMENT_FRAMES)?
            }
            (Waits::ForAFullRing, 1) => {
                self.add_by_turns(&mut octets, &FIRST_OF_1, &SECOND_OF_1, RING_FRAMES)?
            }
            (Waits::ForAFullRing, _) => {}
            (_, 1) => {
                octets.extend_from_slice(&FIRST_OF_1)?;
                octets.extend_from_slice(&SECOND_OF_1)?;
            }
            (_, 2) => {
                octets.extend_from_slice(&FIRST_OF_2)?;
                octets.extend_from_slice(&SECOND_OF_2)?;
            }
            (Waits::ForNothing, _) => {
                octets.extend_from_slice(&FIRST_OF_3)?;
                octets.extend_from_slice(&SECOND_OF_3)?;
            }
            (Waits::ForOneAnother | Waits::ForASegment, _) => {}
        }
        Ok(octets)
    }

    // The ends of control, which brings one line.
    fn control_ends(&self) -> Result<HeldEnds<'a>, AllocError>
        ensures source { IfOk result (λ ends. ⟦<HeldSource<'a> as Source>⟧.faults ends.source ≡ 0) }
        ensures sink { IfOk result (λ ends. ⟦<HeldSink<'a> as Sink>⟧.faults ends.sink ≡ 0) }
    {
        let line = b"quit\n".to_vec(self.alloc)?;
        let hold = match self.waits {
            Waits::ForOneAnother => Hold::Reply(self.marks),
            Waits::ForNothing | Waits::ForASegment | Waits::ForAFullRing => Hold::Nothing,
        };
        Ok(Ends {
            source: HeldSource::new(self.alloc, self.rt, line, Note::Nothing),
            sink: self.file_sink(hold)?,
            clock: self.clock(),
        })
    }

    // A clock that reads 0 and doesn't wait.
    fn clock(&self) -> HeldClock<'a> {
        HeldClock::new(self.rt, MemClock::new(Vec::new(self.alloc)), None)
    }

    /// What was written at a port, where its ends came back.
    pub fn sent(&self, port: Port) -> Option<&[u8]> {
        match self.ports.kept(port) {
            Some(ends) => Some(ends.sink.written()),
            None => None,
        }
    }

    /// The replies, where the ends of control came back.
    pub fn replies(&self) -> Option<&[u8]> {
        match self.control.kept() {
            Some(ends) => Some(ends.sink.written()),
            None => None,
        }
    }

    /// The journal, where it came back.
    pub fn journal(&self) -> Option<&[u8]> {
        match self.output.kept() {
            Some(sink) => Some(sink.written()),
            None => None,
        }
    }

    /// What standard output and standard error were told, where they came back.
    pub fn told(&self, which: Std) -> Option<&[u8]> {
        let kept = match which {
            Std::Out => &self.out,
            Std::Err => &self.err,
        };
        match kept {
            Some(sink) => Some(sink.written()),
            None => None,
        }
    }
}

// Counts an opening that failed.
fn fault(faults: &mut u64) -> OpenFailed
    ensures later { faults.old ≤ faults.new }
    ensures once { Rose faults.old faults.new }
{
    *faults = faults.saturating_add(1);
    OpenFailed
}

impl<'a> World for HeldWorld<'a> {
    ghost use Rattle.savi_ends.specs.Places.{Book, ControlKey, HandsOut, IsReady, Opens, OthersStay, OtherPortsStay, IsOnlyOut, IsPortOut, IsPortKept, IsControlOut, IsControlKept, BothFresh, port_key};
    ghost use Rattle.held_ends.specs.HeldWorlds.{book_of};

    type S = HeldSource<'a>;

    type K = HeldSink<'a>;

    type C = HeldClock<'a>;

    ghost book = { book_of };

    fn faults(&self) -> u64 {
        self.faults
    }

    fn input(&mut self, name: &str) -> Result<HeldSource<'a>, OpenFailed> {
        if !self.input.is_free() || name != PLAN {
            return Err(fault(&mut self.faults));
        }
        let Ok(copy) = String::from_str(self.alloc, name) else {
            return Err(fault(&mut self.faults));
        };
        match self.plan_source() {
            Ok(source) => {
                self.input.hand_out(Text::new(copy));
                Ok(source)
            }
            Err(_) => Err(fault(&mut self.faults)),
        }
    }

    fn output(&mut self, name: &str) -> Result<HeldSink<'a>, OpenFailed> {
        if !self.output.is_free() || name != JOURNAL {
            return Err(fault(&mut self.faults));
        }
        let Ok(copy) = String::from_str(self.alloc, name) else {
            return Err(fault(&mut self.faults));
        };
        match self.journal_sink() {
            Ok(sink) => {
                self.output.hand_out(Text::new(copy));
                Ok(sink)
            }
            Err(_) => Err(fault(&mut self.faults)),
        }
    }

    fn port(&mut self, n: Port, plan: &PortPlan) -> Result<HeldEnds<'a>, OpenFailed> {
        let _ = plan;
        match self.ends_of(n.get()) {
            Ok(ends) => {
                self.ports.hand_out(n);
                Ok(ends)
            }
            Err(_) => Err(fault(&mut self.faults)),
        }
    }

    fn control(
        &mut self,
        source: &str,
        sink: &str,
        live: bool,
    ) -> Result<HeldEnds<'a>, OpenFailed> {
        if source != COMMANDS || sink != REPLIES || !live {
            return Err(fault(&mut self.faults));
        }
        match self.control_ends() {
            Ok(ends) => {
                self.control.hand_out();
                Ok(ends)
            }
            Err(_) => Err(fault(&mut self.faults)),
        }
    }

    fn ticker(&mut self) -> HeldClock<'a> {
        match self.ticker.take() {
            Some(clock) => clock,
            None => unreachable!(),
        }
    }

    fn std(&mut self, which: Std) -> HeldSink<'a> {
        let taken = match which {
            Std::Out => self.out.take(),
            Std::Err => self.err.take(),
        };
        match taken {
            Some(sink) => sink,
            None => unreachable!(),
        }
    }

    fn keep_port(&mut self, n: Port, ends: HeldEnds<'a>)
        requires { IsPortOut (book_of self.old).ports (number_of n) }
        ensures kept { IsPortKept (book_of self.old).ports (book_of self.new).ports (number_of n) ends.entry }
        ensures others { OtherPortsStay (book_of self.old).ports (book_of self.new).ports (number_of n) }
        ensures rest { book_of self.new ≡ record (book_of self.old) { ports = (book_of self.new).ports } }
    {
        self.ports.keep(n, ends);
    }

    fn keep_control(&mut self, ends: HeldEnds<'a>)
        requires { IsControlOut (book_of self.old).control }
        ensures kept { IsControlKept (book_of self.old).control (book_of self.new).control ends.entry }
        ensures rest { book_of self.new ≡ record (book_of self.old) { control = (book_of self.new).control } }
    {
        self.control.keep(ends);
    }

    fn keep_input(&mut self, source: HeldSource<'a>) {
        self.input.keep(source);
    }

    fn keep_output(&mut self, name: &str, sink: HeldSink<'a>) {
        let _ = name;
        self.output.keep(sink);
    }

    fn keep_ticker(&mut self, clock: HeldClock<'a>) {
        self.ticker = Some(clock);
    }

    fn keep_std(&mut self, which: Std, sink: HeldSink<'a>) {
        match which {
            Std::Out => self.out = Some(sink),
            Std::Err => self.err = Some(sink),
        }
    }
}
