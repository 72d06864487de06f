//! What goes out at each port.

ghost use Rattle.std.specs.Prelude.{◌≡◌, ◌≤◌, ◌∷◌, ℕ, [], true, All};
ghost use Rattle.std.specs.List.Sorted.{IsStrictlyIncreasing};
ghost use Rattle.savi_kinds.specs.Ports.{number_of};
ghost use Rattle.savi_kinds.specs.ValidPlan.{numbers_of};
ghost use Rattle.savi_kinds.specs.declared.entry.Who.TheVariants.{Egress};
ghost use Rattle.savi_kinds.specs.declared.entry.How.TheVariants as hows;
ghost use Rattle.savi_ends.specs.Faults.{Rose};
ghost use Rattle.pcap_io.specs.Captures.{header_text};
ghost use Rattle.checkpoint.specs.Bases.{empty};
ghost use Rattle.savi_history.specs.Passes.{has_ended, egress_pass, ticker_pass};
ghost use Rattle.savi_history.specs.Legal.{IsOpen};
ghost use Rattle.savi_history.specs.Events.{End};
ghost use Rattle.savi_history.specs.Replay.{Stops, drained};
ghost use Rattle.savi_segments.specs.Replay.{Run, run_begun, stops_left, run_with};
ghost use Rattle.savi_core.specs.Machines.{base_of, with_event};
ghost use Rattle.port_worker.specs.Pairs.{EachPair};
ghost use Rattle.port_worker.specs.SentFrames.{records, TookAs, OnlySink};
ghost use Rattle.port_worker.specs.Drains.{IsBegun, IsDrained, IsDrainable};
ghost use Rattle.port_worker.specs.Outputs.{AreOutputs, ArePortsAllowed, OutputsGoOn};
ghost use Rattle.port_worker.specs.Turnings.{StandsAt};
ghost use Rattle.port_worker.specs.Replays.{ports_held, ports_planned};

use crate::port_ends::PortEnds;
use pcap_io::{begin, put};
use savi_core::{Batch, Core, Event};
use savi_ends::{Put, Sink};
use savi_kinds::{DEPTH_MOST, How, Port, Who};

/// Begins the capture of each port, in order. Where a write fails the egress of that port ends for it, and the others go
/// on.
pub(crate) fn begin_all<S, K: Sink, C>(core: &mut Core, ports: &mut [PortEnds<S, K, C>])
    requires base { base_of core.old ≡ empty }
    requires start { core.old.past ≡ [] }
    requires ports { ports_held ports.old ≡ ports_planned core.old.plan }
    requires rising { IsStrictlyIncreasing (numbers_of core.old.plan.ports) }
    ensures plan { core.new.plan ≡ core.old.plan }
    ensures base { base_of core.new ≡ empty }
    ensures sinks { EachPair (OnlySink K.written K.faults) ports.old ports.new }
    ensures begun { let run : Run = record { closed = []; past = core.new.past } in
        (known : Stops) × AreOutputs K.written K.faults core.old.plan known run ports.old ports.new
        × ((stops : Stops) → ArePortsAllowed core.old.plan known stops run → run ≡ run_begun core.old.plan stops) }
{
    for place in 0..ports.len() {
        begin_port(core, &mut ports[place]);
    }
}

/// Drains the queue of each port whole, in order, and writes what was taken. Where a write fails the egress of that port
/// ends for it, and the others go on.
pub(crate) fn drain_all<S, K: Sink, C>(
    core: &mut Core,
    ports: &mut [PortEnds<S, K, C>],
    batch: &mut Batch,
)
    requires ports { ports_held ports.old ≡ ports_planned core.old.plan }
    requires rising { IsStrictlyIncreasing (numbers_of core.old.plan.ports) }
    requires drainable { All (λ p. IsDrainable core.old.plan (base_of core.old) core.old.past p.port) ports.old }
    ensures plan { core.new.plan ≡ core.old.plan }
    ensures base { base_of core.new ≡ base_of core.old }
    ensures sinks { EachPair (OnlySink K.written K.faults) ports.old ports.new }
    ensures outputs { (run : Run) → StandsAt core.old run → OutputsGoOn K.written K.faults core.old.plan run (run_with run core.new.past) ports.old ports.new
        (λ stops. run_with run (drained core.old.plan (base_of core.old) (stops_left core.old.plan stops run).ports core.old.plan.ports core.old.past)) }
    // No input is ended, nor is the ticker.
    ensures low { (pass : ℕ) → pass ≤ ticker_pass core.old.plan → has_ended (base_of core.old) pass core.new.past ≡ has_ended (base_of core.old) pass core.old.past }
    // A sink at which a write failed is left alone from then on.
    ensures failed { EachPair (λ o n. has_ended (base_of core.old) (egress_pass core.old.plan (number_of o.port)) core.old.past ≡ true → n ≡ o) ports.old ports.new }
{
    for place in 0..ports.len() {
        drain_port(core, &mut ports[place], batch);
    }
}

// Begins the capture of a port, or ends its egress where the write fails.
fn begin_port<S, K: Sink, C>(core: &mut Core, port: &mut PortEnds<S, K, C>)
    requires open { IsOpen core.old.plan (base_of core.old) core.old.past (Egress port.old.port) }
    ensures plan { core.new.plan ≡ core.old.plan }
    ensures base { base_of core.new ≡ base_of core.old }
    ensures sink { OnlySink K.written K.faults port.old port.new }
    ensures begun { IsBegun K.written K.faults core.old.plan (base_of core.old) core.old.past core.new.past port.old port.new }
{
    match port.begin() {
        Put::Done => {}
        Put::Failed => end_failed(core, port.port),
    }
}

// Drains the queue of a port whole and writes what was taken, or ends its egress where a write fails.
fn drain_port<S, K: Sink, C>(core: &mut Core, port: &mut PortEnds<S, K, C>, batch: &mut Batch)
    requires drainable { IsDrainable core.old.plan (base_of core.old) core.old.past port.old.port }
    ensures plan { core.new.plan ≡ core.old.plan }
    ensures base { base_of core.new ≡ base_of core.old }
    ensures sink { OnlySink K.written K.faults port.old port.new }
    ensures drained { IsDrained K.written K.faults core.old.plan (base_of core.old) core.old.past core.new.past port.old port.new }
{
    let _stepped = core.drain(port.port, DEPTH_MOST, batch);
    match port.write(batch) {
        Put::Done => {}
        Put::Failed => end_failed(core, port.port),
    }
}

// Ends the egress of a port at which a write failed.
fn end_failed(core: &mut Core, port: Port)
    requires open { IsOpen core.old.plan (base_of core.old) core.old.past (Egress port) }
    ensures { core.new ≡ with_event core.old (End (Egress port) hows.Failed) }
{
    let _entry = core.step(Event::End {
        who: Who::Egress(port),
        how: How::Failed,
    });
}

impl<S, K: Sink, C> PortEnds<S, K, C> {
    // Begins the capture that is written.
    fn begin(&mut self) -> Put
        ensures only { OnlySink K.written K.faults self.old self.new }
        ensures took { TookAs result (K.written self.old.ends.sink) (K.written self.new.ends.sink) (header_text ∷ []) }
        ensures cause { result ≡ Put.Failed → Rose (K.faults self.old.ends.sink) (K.faults self.new.ends.sink) }
        ensures still { result ≡ Put.Done → K.faults self.new.ends.sink ≡ K.faults self.old.ends.sink }
    {
        begin(&mut self.ends.sink)
    }

    // Writes the frames of a batch, one after the other, each in one write of the sink.
    fn write(&mut self, batch: &Batch) -> Put
        ensures only { OnlySink K.written K.faults self.old self.new }
        ensures took { TookAs result (K.written self.old.ends.sink) (K.written self.new.ends.sink) (records batch.now) }
        ensures none { batch.now ≡ [] → self.new ≡ self.old }
        ensures cause { result ≡ Put.Failed → Rose (K.faults self.old.ends.sink) (K.faults self.new.ends.sink) }
        ensures still { result ≡ Put.Done → K.faults self.new.ends.sink ≡ K.faults self.old.ends.sink }
    {
        write_batch(&mut self.ends.sink, batch)
    }
}

// Writes the frames of a batch, one after the other, each in one write of the sink.
fn write_batch<K: Sink>(sink: &mut K, batch: &Batch) -> Put
    ensures took { TookAs result (K.written sink.old) (K.written sink.new) (records batch.now) }
    ensures none { batch.now ≡ [] → sink.new ≡ sink.old }
    ensures later { K.faults sink.old ≤ K.faults sink.new }
    ensures cause { result ≡ Put.Failed → Rose (K.faults sink.old) (K.faults sink.new) }
    ensures still { result ≡ Put.Done → K.faults sink.new ≡ K.faults sink.old }
{
    for i in 0..batch.len() {
        let (moment, frame) = batch.item(i);
        match put(sink, moment, frame) {
            Put::Done => {}
            Put::Failed => return Put::Failed,
        }
    }
    Put::Done
}
