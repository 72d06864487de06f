//! The world in memory of a scene.

ghost use Rattle.std.specs.Prelude.{◌≡◌, ◌≤◌, IfOk, length};

use crate::recording_world::RecordingWorld;
use crate::scene::{READ_MOST, Scene};
use anyhow::bail;
use arrayvec::ArrayVec;
use savi_ends::{Ends, MemClock, MemEnds, MemSink, MemSource, MemWorld};
use savi_kinds::{Port, Text};
use std::alloc::{AllocError, Global};

/// Room for what is written at a port or by control, for a journal, and for either where the inputs are those of a load.
const FILE_ROOM: usize = 8_192;

const JOURNAL_ROOM: usize = 65_536;

const LOAD_ROOM: usize = 2_097_152;

/// Room for what standard output and standard error are told.
const TEXT_ROOM: usize = 256;

/// The name of the journal.
pub const JOURNAL: &str = "journal.txt";

/// The world of a scene: the configuration under the name `plan`, a port for each capture, control, and room for a journal and
/// for the outputs that it names.
pub fn stage(alloc: Global, scene: &Scene) -> anyhow::Result<RecordingWorld> {
    let world = MemWorld {
        inputs: plan_of(alloc, scene)?,
        outputs: outputs_of(alloc, scene)?,
        ports: ports_of(alloc, scene)?,
        control: Some(control_of(alloc, scene)?),
        ticker: Some(MemClock::new(scene.readings(alloc, "ticker")?)),
        out: Some(MemSink::make(alloc, TEXT_ROOM, fault_of(alloc, scene, "summary")?)?),
        err: Some(MemSink::make(alloc, TEXT_ROOM, fault_of(alloc, scene, "error")?)?),
        fails: fault_of(alloc, scene, "opening")?,
        opened: 0,
        faulty: 0,
    };
    Ok(RecordingWorld {
        world,
        openings: ArrayVec::new(),
    })
}

// The room for what is written at a port or by control.
fn room_of(scene: &Scene) -> usize {
    if scene.is_load { LOAD_ROOM } else { FILE_ROOM }
}

// The room for a journal.
fn journal_room_of(scene: &Scene) -> usize {
    if scene.is_load {
        LOAD_ROOM
    } else {
        JOURNAL_ROOM
    }
}

// The number of the call of this kind that fails, as a list.
fn fault_of(alloc: Global, scene: &Scene, which: &str) -> Result<Vec<u64>, AllocError> {
    [scene.fault(which)].to_vec(alloc)
}

// The configuration.
fn plan_of(alloc: Global, scene: &Scene) -> Result<Vec<(Text, Option<MemSource>)>, AllocError>
    ensures { IfOk result (λ inputs. length inputs.items ≡ 1) }
{
    let name = Text::new(String::from_str(alloc, "plan")?);
    let mut octets = scene.plan.as_bytes().to_vec(alloc)?;
    octets.extend_from_slice(scene.octets.as_slice())?;
    let source = MemSource::new(octets, READ_MOST, fault_of(alloc, scene, "plan")?);
    let mut inputs = Vec::new(alloc);
    inputs.push((name, Some(source)))?;
    Ok(inputs)
}

// The journal, and behind it the outputs that a scene names.
fn outputs_of(alloc: Global, scene: &Scene) -> Result<Vec<(Text, Option<MemSink>)>, AllocError> {
    let mut outputs = Vec::new(alloc);
    let room = journal_room_of(scene);
    let journal = MemSink::make(alloc, room, fault_of(alloc, scene, "journal")?)?;
    outputs.push((Text::new(String::from_str(alloc, JOURNAL)?), Some(journal)))?;
    for name in &scene.outputs {
        let write = format!(in alloc; "write {name}")?;
        let sink = MemSink::make(alloc, FILE_ROOM, fault_of(alloc, scene, write.as_str())?)?;
        outputs.push((Text::new(name.clone()?), Some(sink)))?;
    }
    Ok(outputs)
}

// The ports, numbered from 1 on, each with its capture.
fn ports_of(alloc: Global, scene: &Scene) -> anyhow::Result<Vec<(Port, Option<MemEnds>)>> {
    let mut ports = Vec::new(alloc);
    for (number, capture) in (1..).zip(&scene.captures) {
        let Some(port) = Port::new(number) else {
            bail!("more than 16 ports");
        };
        let read = format!(in alloc; "read {number}")?;
        let write = format!(in alloc; "write {number}")?;
        let reads = fault_of(alloc, scene, read.as_str())?;
        let writes = fault_of(alloc, scene, write.as_str())?;
        let source = MemSource::new(capture.clone()?, most_of(scene), reads);
        let which = format!(in alloc; "{number}")?;
        let clock = MemClock::new(scene.readings(alloc, which.as_str())?);
        let ends = ends_of(alloc, source, room_of(scene), writes, clock)?;
        ports.push((port, Some(ends)))?;
    }
    Ok(ports)
}

// The ends of control, whose input holds nothing where the scene gives it none.
fn control_of(alloc: Global, scene: &Scene) -> Result<MemEnds, AllocError> {
    let octets = match &scene.commands {
        Some(commands) => commands.clone()?,
        None => Vec::new(alloc),
    };
    let reads = fault_of(alloc, scene, "read control")?;
    let writes = fault_of(alloc, scene, "write control")?;
    let source = MemSource::new(octets, scene.pieces.max(1), reads);
    let clock = MemClock::new(scene.readings(alloc, "control")?);
    ends_of(alloc, source, room_of(scene), writes, clock)
}

// How many octets a read at a port gives at most.
fn most_of(scene: &Scene) -> usize
    ensures { 1 ≤ result }
{
    if scene.is_live() {
        scene.pieces.max(1)
    } else {
        READ_MOST
    }
}

// Ends with this source, and with room for so many octets, of which these writes fail.
fn ends_of(
    alloc: Global,
    source: MemSource,
    room: usize,
    writes: Vec<u64>,
    clock: MemClock,
) -> Result<MemEnds, AllocError> {
    Ok(Ends {
        source,
        sink: MemSink::make(alloc, room, writes)?,
        clock,
    })
}
