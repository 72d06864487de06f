//! How the ends of a session are dealt to who serves them, and come back.

ghost use Rattle.std.specs.Prelude.{◌≡◌, ◌+◌, ◌≤◌, [], is_some, vec_capacity, vec_len};
ghost use Rattle.live_switch.specs.Sharing.{AreGathered, AreMatched, ArePorts, reader_of, service_of};
ghost use Rattle.live_switch.specs.Sharing.{IsControlDealt, IsControlGathered, IsControlMatched};

use crate::seats::{LineSeat, Seat};
use crate::services::PortService;
use control_reader::LineReader;
use intake_ring::IntakeRing;
use live_control::{ControlSide, ControlWorker};
use live_input::Ingress;
use live_output::Output;
use parcel_ring::ParcelRing;
use port_reader::Reader;
use savi_core::Reply;
use savi_ends::Ends;
use std::sync::Wait;

/// Deals the ends of ports, each with its seat: the source and the clock to a reader, the sink to who serves the port, in
/// their order. O(ports), at most 16.
pub(crate) fn deal_ports<S: Drop, K: Drop, C: Drop>(
    ports: &mut Vec<Ends<S, K, C>>,
    seats: &mut Vec<Seat>,
    readers: &mut Vec<Reader<S, C>>,
    services: &mut Vec<PortService<K>>,
)
    requires seats { vec_len seats.old ≡ vec_len ports.old }
    requires readers { vec_len readers.old + vec_len ports.old ≤ vec_capacity readers.old }
    requires services { vec_len services.old + vec_len ports.old ≤ vec_capacity services.old }
    ensures room { vec_capacity ports.new ≡ vec_capacity ports.old }
    ensures emptied { ports.new.items ≡ [] }
    ensures readers_room { vec_capacity readers.new ≡ vec_capacity readers.old }
    ensures services_room { vec_capacity services.new ≡ vec_capacity services.old }
    ensures dealt { ArePorts ports.old.items seats.old.items readers.old.items readers.new.items services.old.items services.new.items }
{
    let Some(ends) = ports.pop() else {
        return;
    };
    let seat = seats.pop().unwrap();
    deal_ports(ports, seats, readers, services);
    let (reader, service) = deal_port(ends, seat);
    readers.push_reserved(reader);
    services.push_reserved(service);
}

// The reader of a port, and what serves it behind that. O(1).
fn deal_port<S, K, C>(ends: Ends<S, K, C>, seat: Seat) -> (Reader<S, C>, PortService<K>)
    ensures reader { result.0 ≡ reader_of ends seat }
    ensures service { result.1 ≡ service_of ends seat }
{
    let Ends {
        source,
        sink,
        clock,
    } = ends;
    let reader = Reader {
        port: seat.port,
        format: seat.format,
        source,
        clock,
        filler: seat.filler,
    };
    let judge = Ingress {
        port: seat.port,
        taker: seat.taker,
        kept: None,
    };
    let writer = Output {
        port: seat.port,
        format: seat.format,
        sink,
        room: seat.room,
        begun: false,
    };
    (reader, PortService { judge, writer })
}

/// Deals the ends of control, where there are any: the source and the clock to a reader, the sink to who answers. O(1).
pub(crate) fn deal_control<S, K, C>(
    control: Option<Ends<S, K, C>>,
    seat: Option<LineSeat>,
    reply: Reply,
) -> (Option<LineReader<S, C>>, ControlWorker<K>)
    requires { is_some seat ≡ is_some control }
    ensures { IsControlDealt control seat result.0 result.1 }
{
    let Some(
        Ends {
            source,
            sink,
            clock,
        },
    ) = control
    else {
        return (None, ControlWorker { ends: None, reply });
    };
    let LineSeat { filler, taker } = seat.unwrap();
    let reader = LineReader {
        source,
        clock,
        filler,
    };
    let side = ControlSide {
        taker,
        kept: None,
        sink,
        passes_over: false,
    };
    let worker = ControlWorker {
        ends: Some(side),
        reply,
    };
    (Some(reader), worker)
}

/// Puts the ends of ports together again, in their order, and closes the ring between the reader and the judge of each.
/// O(ports), at most 16.
pub(crate) fn gather_ports<R: Wait, S: Drop, K: Drop, C: Drop>(
    rt: &R,
    ports: &mut Vec<Ends<S, K, C>>,
    readers: &mut Vec<Reader<S, C>>,
    services: &mut Vec<PortService<K>>,
)
    requires services { vec_len services.old ≡ vec_len readers.old }
    requires room { vec_len ports.old + vec_len readers.old ≤ vec_capacity ports.old }
    requires matched { AreMatched readers.old.items services.old.items }
    ensures room { vec_capacity ports.new ≡ vec_capacity ports.old }
    ensures gathered { AreGathered readers.old.items services.old.items ports.old.items ports.new.items }
{
    let Some(reader) = readers.pop() else {
        return;
    };
    let PortService { judge, writer } = services.pop().unwrap();
    gather_ports(rt, ports, readers, services);
    ParcelRing::close(rt, reader.filler, judge.taker);
    ports.push_reserved(Ends {
        source: reader.source,
        sink: writer.sink,
        clock: reader.clock,
    });
}

/// Puts the ends of control together again, where there are any, and closes the ring between its reader and who answers.
/// O(1).
pub(crate) fn gather_control<R: Wait, S: Drop, K: Drop, C: Drop>(
    rt: &R,
    reader: Option<LineReader<S, C>>,
    worker: ControlWorker<K>,
) -> Option<Ends<S, K, C>>
    requires { IsControlMatched reader worker }
    ensures { IsControlGathered reader worker result }
{
    let Some(reader) = reader else {
        return None;
    };
    let side = worker.ends.unwrap();
    IntakeRing::close(rt, reader.filler, side.taker);
    Some(Ends {
        source: reader.source,
        sink: side.sink,
        clock: reader.clock,
    })
}
