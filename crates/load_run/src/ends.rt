//! The ends of the ports of a load, in memory.

ghost use Rattle.std.specs.Prelude.{◌≡◌, IfOk, All, length, map};
ghost use Rattle.port_worker.specs.Replays.{ports_held};
ghost use Rattle.load_run.specs.LoadEnds.{IsFresh, octets_left};

use pcap_io::PcapReader;
use port_worker::PortEnds;
use savi_ends::{CountSink, Ends, MemClock, SureSource};
use savi_kinds::{Port, PortPlan};
use std::alloc::{AllocError, Global};

/// The ends of one port: a capture in memory that is read without faults, a sink that counts, and a clock of no readings.
pub(crate) type LoadEnds = PortEnds<SureSource, CountSink, MemClock>;

/// The ends of these ports, each with its capture, in their order. Nothing was read of them.
///
/// `Err` is want of memory. O(ports).
pub(crate) fn ends_of(
    alloc: Global,
    ports: &[PortPlan],
    captures: Vec<Vec<u8>>,
) -> Result<Vec<LoadEnds>, AllocError>
    requires { length captures.items ≡ length ports.now }
    ensures ports { IfOk result (λ held. ports_held held.items ≡ map (λ p. p.number) ports.now) }
    ensures octets { IfOk result (λ held. map octets_left held.items ≡ map (λ c. c.items) captures.items) }
    ensures fresh { IfOk result (λ held. All IsFresh held.items) }
{
    let mut held = Vec::with_capacity(alloc, ports.len())?;
    for octets in captures {
        let port = ports[held.len()].number;
        held.push(end_of(alloc, port, octets))?;
    }
    Ok(held)
}

// The ends of a port with this capture.
fn end_of(alloc: Global, port: Port, octets: Vec<u8>) -> LoadEnds
    ensures port { result.port ≡ port }
    ensures octets { octets_left result ≡ octets.items }
    ensures fresh { IsFresh result }
{
    let ends = Ends {
        source: SureSource::new(octets),
        sink: CountSink::new(),
        clock: MemClock::new(Vec::new(alloc)),
    };
    PortEnds::new(port, ends, PcapReader::new())
}
