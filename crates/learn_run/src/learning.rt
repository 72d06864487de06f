//! Learning from the inputs of ports.

ghost use Rattle.std.specs.Prelude.{◌≡◌, ◌≤◌, ◌<◌, ℕ, All, IfOk, IfSome, IsSome, length, slice_index_or, slice_set, vec_capacity};
ghost use Rattle.savi_kinds.specs.ValidPlan.{IsValidPlan};
ghost use Rattle.port_worker.specs.Inputs.{IsSoundAhead, turn_of};
ghost use Rattle.port_worker.specs.Pairs.{EachPair};
ghost use Rattle.port_worker.specs.declared.port_ends.PortEnds.{PortEnds};
ghost use Rattle.port_worker.specs.Replays.{IsUnread, ports_held, ports_planned};
ghost use Rattle.port_worker.specs.Served.{IsSamePort};

use port_worker::{PortEnds, PortTurn, look_all, next_of};
use ra_learn::Report;
use savi_ends::{Clock, Put, Sink, Source};
use savi_kinds::{How, Plan, Port};
use std::alloc::{AllocError, Global};

/// How the input of a port ended.
#[derive(Clone, Copy, PartialEq, Eq, Debug)]
pub struct Ending {
    pub port: Port,
    pub how: How,
}

/// Learning from the inputs of the ports of a plan: its report, and how the inputs ended so far, in the order in which they
/// did.
#[derive(Drop)]
pub struct Learning {
    report: Report,
    endings: Vec<Ending>,
}

impl Learning {
    ghost use Rattle.learn_run.specs.Begun.{IsBegun};
    ghost use Rattle.learn_run.specs.TakenTurns.{IsTurnTaken, passed};
    ghost use Rattle.learn_run.specs.Learning.{LearnsEnds};

    /// Nothing has come yet, and the window has so many ms, at most 3,600,000. It takes all its memory here. `Err` is want
    /// of memory.
    pub fn make(alloc: Global, plan: &Plan, window: u64) -> Result<Learning, AllocError>
        requires { window ≤ 3600000 }
        ensures { IfOk result (IsBegun plan.now window) }
    {
        Ok(Learning {
            report: Report::make(alloc, plan, window)?,
            endings: Vec::with_capacity(alloc, plan.ports.as_slice().len())?,
        })
    }

    /// Reads the inputs of these ports, those of the plan in its order, and writes what is learned from them.
    ///
    /// Of the inputs the turn with the least stamp is taken, of equals that of the lower port, and an input ends at once. A
    /// read that fails ends its input, and the other inputs go on. Where a write fails nothing more is written, and the
    /// inputs are read on. The sinks of the ports and their clocks aren't touched. It returns for every input.
    /// O(ports), at most 16, for each arrival beside what `Report::frame` costs; it takes no memory.
    pub fn learn<S: Source, K, C: Clock, O: Sink>(
        &mut self,
        plan: &Plan,
        ports: &mut [PortEnds<S, K, C>],
        out: &mut O,
    ) -> Put
        requires valid { IsValidPlan plan.now }
        requires planned { ports_held ports.old ≡ ports_planned plan.now }
        requires unread { All IsUnread ports.old }
        requires begun { (window : ℕ) × IsBegun plan.now window self.old }
        ensures ports { EachPair IsSamePort ports.old ports.new }
        ensures learns { (window : ℕ) → IsBegun plan.now window self.old → LearnsEnds S.left S.faults O.written O.faults plan.now window self.new.endings.items result ports.old ports.new out.old out.new }
    {
        'turns: loop {
            look_all(ports);
            let Some(place) = next_of(&None, ports) else {
                return self.report.finish(plan, out);
            };
            self.advance(ports, place - 1, out);
        }
    }

    /// How the inputs ended, in the order in which they did.
    pub fn endings(&self) -> &[Ending]
        ensures { result.now ≡ self.now.endings.items }
    {
        self.endings.as_slice()
    }

    // Takes the turn of the port at this place.
    fn advance<S, K, C, O: Sink>(
        &mut self,
        ports: &mut [PortEnds<S, K, C>],
        place: usize,
        out: &mut O,
    )
        requires inside { place < length ports.old }
        requires known { (d : PortEnds S K C) → IsSome (turn_of (slice_index_or ports.old place d)) }
        requires sound { (d : PortEnds S K C) → IsSoundAhead (slice_index_or ports.old place d).reader (slice_index_or ports.old place d).ahead }
        requires room { length self.old.endings.items < vec_capacity self.old.endings }
        ensures taken { (d : PortEnds S K C) → IfSome (turn_of (slice_index_or ports.old place d)) (λ turn. IsTurnTaken O.written O.faults turn self.old self.new out.old out.new) }
        ensures passed { (d : PortEnds S K C) → ports.new ≡ slice_set ports.old place (passed (slice_index_or ports.old place d)) }
    {
        self.take_turn(&mut ports[place], out);
    }

    // Takes the turn of a port that was read.
    fn take_turn<S, K, C, O: Sink>(&mut self, one: &mut PortEnds<S, K, C>, out: &mut O)
        requires known { IsSome (turn_of one.old) }
        requires sound { IsSoundAhead one.old.reader one.old.ahead }
        requires room { length self.old.endings.items < vec_capacity self.old.endings }
        ensures taken { IfSome (turn_of one.old) (λ turn. IsTurnTaken O.written O.faults turn self.old self.new out.old out.new) }
        ensures passed { one.new ≡ passed one.old }
    {
        match one.turn() {
            PortTurn::Frame { stamp, octets } => self.report.frame(one.port, stamp, octets, out),
            PortTurn::Long { stamp, len } => self.report.long(one.port, stamp, u64::from(len)),
            PortTurn::Ends(how) => self.endings.push_reserved(Ending {
                port: one.port,
                how,
            }),
        }
        one.pass();
    }
}
