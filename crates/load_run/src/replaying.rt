//! The replay of a load.

ghost use Rattle.std.specs.Prelude.{◌≡◌, ◌≤◌, IfOk, length};
ghost use Rattle.load_gen.specs.LoadPlan.{IsLoadPlan};
ghost use Rattle.load_run.specs.LoadHistory.{AreOrdinary, load_segments};
ghost use Rattle.savi_segments.specs.Segments.{IsWholeSession, joined};
ghost use Rattle.port_worker.specs.Replayed.{HasReplayed};
ghost use Rattle.savi_history.specs.Summary.{capped};

use crate::ends::ends_of;
use load_gen::{Load, load};
use port_worker::{Closed, Ready, replay_session};
use savi_core::Core;
use std::alloc::{AllocError, Global};

/// What is left of the replay of a load.
#[derive(Drop)]
pub struct Loaded {
    /// The switch with the newest segment.
    pub core: Core,
    /// How many entries all segments have. The number stays at 2^64 - 1.
    pub entries: u64,
}

/// Replays the load of this seed, with `frames` packets behind the claims of the hosts.
///
/// There is no control and no journal, and no sink fails; with up to 100,000 packets all of it is one segment. `Err` is want
/// of memory, which comes before anything was replayed: the load, its captures and the switch take all memory first.
pub fn replay_load(alloc: Global, seed: u32, frames: u32) -> Result<Loaded, AllocError>
    ensures plan { IfOk result (λ loaded. IsLoadPlan loaded.core.plan) }
    ensures replayed { IfOk result (λ loaded. HasReplayed loaded.core (λ segments. (segments ≡ load_segments loaded.core.plan seed frames) × IsWholeSession loaded.core.plan segments × (loaded.entries ≡ capped (length (joined segments))))) }
    ensures ordinary { frames ≤ 100000 → IfOk result (λ loaded. AreOrdinary (joined (load_segments loaded.core.plan seed frames))) }
{
    let Load { plan, captures } = load(alloc, seed, frames)?;
    let ports = ends_of(alloc, plan.ports.as_slice(), captures)?;
    let ready = Ready {
        control: None,
        ports,
        journal: None,
    };
    match replay_session(alloc, plan, ready) {
        Ok(
            Closed {
                core,
                ready: _,
                entries,
                ends: _,
                journal_failed: _,
            },
        ) => Ok(Loaded { core, entries }),
        Err(_) => Err(AllocError),
    }
}
