//! A session over the ends of control and of the ports of a plan, and over a journal.

ghost use Rattle.std.specs.Prelude.{◌≡◌, [], All, IfOk, IfErr};
ghost use Rattle.savi_kinds.specs.ValidPlan.{IsValidPlan};
ghost use Rattle.port_worker.specs.Pairs.{EachPair};
ghost use Rattle.port_worker.specs.LineInputs.{IsControlUnheard};
ghost use Rattle.port_worker.specs.Replays.{ports_held, ports_planned, IsUnread};
ghost use Rattle.port_worker.specs.Replayed.{HasReplayed};
ghost use Rattle.port_worker.specs.Served.{IsSamePort, ServesEnds};
ghost use Rattle.journal_write.specs.Told.{TellsOf};
ghost use Rattle.savi_core.specs.Machines.{started};
ghost use Rattle.port_worker.specs.Journalled.{GivesSink, TookJournal};

use crate::control_ends::ControlEnds;
use crate::port_ends::PortEnds;
use crate::turns::replay;
use journal_write::{Buffer, EndsTold, JOURNAL_PIECE_OCTETS, Journal, Told};
use savi_core::{Batch, Core, Reply};
use savi_ends::{Clock, Sink, Source};
use savi_kinds::Plan;
use std::alloc::{AllocError, Global};

/// The ends of a session: those of control, where there are any, those of the ports, each beside its port, in the order
/// of the plan, and the sink of the journal, where one is written.
#[derive(Drop)]
pub struct Ready<S, K, C> {
    pub control: Option<ControlEnds<S, K, C>>,
    pub ports: Vec<PortEnds<S, K, C>>,
    pub journal: Option<K>,
}

/// What a session leaves: the switch with the newest segment of its history, the ends, and what is told of all segments.
#[derive(Drop)]
pub struct Closed<S, K, C> {
    pub core: Core,
    pub ready: Ready<S, K, C>,
    /// How many entries all segments have. The number stays at 2^64 - 1.
    pub entries: u64,
    /// How passes ended for good, in order.
    pub ends: EndsTold,
    /// Whether a write of the journal failed: then its sink has a front of it.
    pub journal_failed: bool,
}

/// Replays the inputs of control and of these ports at a new switch of this plan, answers control, writes at each port
/// what is sent there, and writes the journal, where there is a sink for it (`replay`).
///
/// All memory is taken before anything is read or written: where there is none the ends come back as they were.
pub fn replay_session<S: Source, K: Sink, C: Clock>(
    alloc: Global,
    plan: Plan,
    ready: Ready<S, K, C>,
) -> Result<Closed<S, K, C>, Ready<S, K, C>>
    requires valid { IsValidPlan plan }
    requires planned { ports_held ready.ports.items ≡ ports_planned plan }
    requires unread { All IsUnread ready.ports.items }
    requires unheard { IsControlUnheard ready.control }
    ensures none { IfErr result (λ back. back ≡ ready) }
    ensures plan { IfOk result (λ closed. closed.core.plan ≡ plan) }
    ensures ports { IfOk result (λ closed. EachPair IsSamePort ready.ports.items closed.ready.ports.items) }
    ensures replayed { IfOk result (λ closed. HasReplayed closed.core (λ segments.
        ServesEnds S.left K.written S.faults K.faults plan segments ready.control closed.ready.control ready.ports.items closed.ready.ports.items
        × TellsOf closed.entries closed.ends.items segments
        × TookJournal K.written K.faults plan segments closed.journal_failed ready.journal closed.ready.journal)) }
{
    let Ok((mut core, mut batch, mut reply, buffer)) = room_for(alloc, plan) else {
        return Err(ready);
    };
    let Ready {
        mut control,
        mut ports,
        journal,
    } = ready;
    let mut journal = match journal {
        Some(sink) => Some(Journal::new(sink, buffer)),
        None => None,
    };
    let Told { entries, ends } = replay(
        &mut core,
        &mut control,
        &mut ports,
        &mut journal,
        &mut batch,
        &mut reply,
    );
    let (journal, journal_failed) = sink_of(journal);
    Ok(Closed {
        core,
        ready: Ready {
            control,
            ports,
            journal,
        },
        entries,
        ends,
        journal_failed,
    })
}

// All memory of a session of this plan: its switch, room for a drain and for a reply, and what a journal waits in.
fn room_for(alloc: Global, plan: Plan) -> Result<(Core, Batch, Reply, Buffer), AllocError>
    requires { IsValidPlan plan }
    ensures { IfOk result (λ room. (room.0 ≡ started plan) × (room.3 ≡ record { octets = []; room = 131072 })) }
{
    let batch = Batch::make(alloc)?;
    let reply = Reply::make(alloc)?;
    let buffer = Buffer::make(alloc, JOURNAL_PIECE_OCTETS)?;
    let core = Core::make(alloc, plan)?;
    Ok((core, batch, reply, buffer))
}

// The sink of a journal, given back, where there is one, and whether a write of it failed.
fn sink_of<K>(journal: Option<Journal<K>>) -> (Option<K>, bool)
    ensures { GivesSink journal result.0 result.1 }
{
    match journal {
        Some(journal) => {
            let (sink, failed) = journal.into_parts();
            (Some(sink), failed)
        }
        None => (None, false),
    }
}
