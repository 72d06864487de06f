//! The load of a seed.

ghost use Rattle.std.specs.Prelude.{◌≡◌, ◌+◌, ◌*◌, ◌/◌, ◌%◌, ◌≤◌, ◌<◌, ◌++◌, ℕ, List, [], ◌∷◌, length, map, All, IfOk, OnOk};
ghost use Rattle.savi_kinds.specs.ValidPlan.{IsValidPlan};
ghost use Rattle.load_gen.specs.Draws.{next_draw};
ghost use Rattle.load_gen.specs.LoadPlan.{IsLoadPlan};
ghost use Rattle.load_gen.specs.Sendings.{Sending, claim, sendings};
ghost use Rattle.load_gen.specs.Captures.{captures_of};
ghost use Rattle.load_gen.specs.Writing.{octets_of};
ghost use Rattle.load_gen.specs.Inputs.{IsWhole};

use crate::capture::{Capture, HEADER_OCTETS, RECORD_HEADER_OCTETS};
use crate::draws::Generator;
use crate::frames::{DATA_LEN, HOSTS, address_of, data, mac_of};
use crate::made::Load;
use crate::plan::load_plan;
use probe_write::{PROBE_LEN, probe};
use std::alloc::{AllocError, Global};

/// How many ports the plan has. The hosts are at the first of them.
const PORTS: u8 = 5;
/// The moment (ms) of the first packet.
const FIRST_MOMENT: u64 = 1_000;
/// From one packet to the next, in ms.
const STEP_MS: u64 = 10;

/// The load of a seed, with `frames` packets behind the claims of the hosts.
///
/// The packets come in 10 ms apart, from 1,000 ms on. `Err` is want of memory. O(n) in the packets; the captures
/// take 210 octets of memory for each packet, at once, since each host may be drawn each time.
pub fn load(alloc: Global, seed: u32, frames: u32) -> Result<Load, AllocError>
    ensures plan { IfOk result (λ l. IsLoadPlan l.plan) }
    ensures valid { IfOk result (λ l. IsValidPlan l.plan) }
    ensures captures { IfOk result (λ l. map (λ c. c.items) l.captures.items ≡ captures_of (sendings seed frames)) }
    ensures whole { IfOk result (λ l. All (λ c. IsWhole c.items) l.captures.items) }
{
    let plan = load_plan(alloc)?;
    let captures = texts(alloc, written(alloc, seed, frames)?)?;
    Ok(Load { plan, captures })
}

// The octets of the captures.
fn texts(alloc: Global, captures: Vec<Capture>) -> Result<Vec<Vec<u8>>, AllocError>
    ensures { IfOk result (λ texts. texts.items ≡ map (λ c. c.octets) captures.items) }
{
    captures.into_iter().map(|c| c.octets).collect(alloc)
}

// The captures of a load, written.
fn written(alloc: Global, seed: u32, frames: u32) -> Result<Vec<Capture>, AllocError>
    ensures { IfOk result (λ captures. map octets_of captures.items ≡ captures_of (sendings seed frames)) }
{
    let mut captures = claimed(alloc, frames)?;
    let mut generator = Generator { state: seed };
    for k in 0..frames {
        let host = drawn_host(&mut generator);
        let source = drawn_host(&mut generator);
        let frame = data(mac_of(host), address_of(source));
        let moment = FIRST_MOMENT + STEP_MS * u64::from(k);
        send(captures.as_mut_slice(), host, moment, &frame)?;
    }
    Ok(captures)
}

// A host, by the next draw.
fn drawn_host(generator: &mut Generator) -> u8
    ensures state { generator.new.state ≡ next_draw generator.old.state }
    ensures value { result ≡ 1 + generator.new.state / 65536 % 3 }
{
    1 + (generator.draw() % u32::from(HOSTS)) as u8
}

// The captures with the claims of the hosts, and with room for so many packets at each host's port.
fn claimed(alloc: Global, frames: u32) -> Result<Vec<Capture>, AllocError>
    ensures { IfOk result (λ captures. map octets_of captures.items ≡ captures_of (map claim (1 ∷ 2 ∷ 3 ∷ []))) }
{
    let mut captures = empty(alloc, frames)?;
    for place in 0..HOSTS {
        let host = place + 1;
        let frame = probe(mac_of(host), address_of(host));
        send(captures.as_mut_slice(), host, 0, &frame)?;
    }
    Ok(captures)
}

// The captures without a record.
fn empty(alloc: Global, frames: u32) -> Result<Vec<Capture>, AllocError>
    ensures { IfOk result (λ captures. map octets_of captures.items ≡ captures_of []) }
{
    let mut captures = Vec::with_capacity(alloc, usize::from(PORTS))?;
    for place in 0..PORTS {
        let room = room_at(place + 1, frames);
        captures.push(Capture::make(alloc, room)?)?;
    }
    Ok(captures)
}

// The octets of a capture with the claim of a host and all packets, or of one without a record.
fn room_at(port: u8, frames: u32) -> usize
    ensures { result ≤ 118 + 70 * frames }
{
    if port > HOSTS {
        return HEADER_OCTETS;
    }
    let claim = RECORD_HEADER_OCTETS + PROBE_LEN;
    let packet = RECORD_HEADER_OCTETS + DATA_LEN;
    HEADER_OCTETS + claim + packet * frames as usize
}

// Adds a frame to the capture of the port at which it comes in.
fn send(captures: &mut [Capture], port: u8, moment: u64, frame: &[u8]) -> Result<(), AllocError>
    requires ports { length captures.old ≡ 5 }
    requires first { 1 ≤ port }
    requires last { port ≤ 5 }
    requires short { length frame.now ≤ 1518 }
    ensures { OnOk result ((all : List Sending) → map octets_of captures.old ≡ captures_of all
        → map octets_of captures.new ≡ captures_of (all ++ record { port = port; sent = record { moment = moment; frame = frame.now } } ∷ [])) }
{
    captures[usize::from(port) - 1].add(moment, frame)
}
