//! A live session over the ends of a plan and over a journal.

ghost use Rattle.std.specs.Prelude.{◌≡◌, IfNone, IfSome, List, is_some, length, vec_len};
ghost use Rattle.savi_kinds.specs.ValidPlan.{IsValidPlan};
ghost use Rattle.hist_store.specs.Rows.{Row};
ghost use Rattle.switch_run.specs.Live.{IsLivePlayed};
ghost use Rattle.switch_run.specs.Played.{IsOutcomeOf};

use crate::outcome::Outcome;
use journal_write::know_addresses;
use live_switch::{Closed, Ready, session};
use live_turns::Gate;
use savi_ends::{Clock, Sink, Source};
use savi_kinds::Plan;
use savi_segments::counts_sum_segments_up;
use std::alloc::Global;
use std::sync::Wait;
use std::thread::Threads;

/// The ends, given back, and the outcome, unless there was no memory.
#[derive(Drop)]
pub struct Served<S, K, C> {
    pub ready: Ready<S, K, C>,
    pub outcome: Option<Outcome>,
}

/// Runs a live session over these ends, and writes the journal segment by segment. It may go on for good.
///
/// Without memory nothing is read or written.
pub fn serve<
    R: Threads + Wait + Sync,
    G: Gate,
    S: Source + Send + Drop,
    K: Sink + Send + Drop,
    C: Clock + Send + Drop,
>(rt: &R, alloc: Global, plan: Plan, ready: Ready<S, K, C>, gate: &G) -> Served<S, K, C>
    requires valid { IsValidPlan plan }
    requires planned { vec_len ready.ports ≡ length plan.ports }
    ensures control { is_some result.ready.control ≡ is_some ready.control }
    ensures ports { vec_len result.ready.ports ≡ vec_len ready.ports }
    ensures none { IfNone result.outcome (result.ready ≡ ready) }
    ensures plan { IfSome result.outcome (λ o. o.core.plan ≡ plan) }
    ensures served { IfSome result.outcome (λ o. (segments : List (List Row)) × IsOutcomeOf segments o
        × IsLivePlayed S.left K.written S.faults K.faults C.readings plan segments ready result.ready o.journal_written) }
{
    let Closed {
        core,
        ready,
        entries,
        ends,
        journal_failed,
    } = match session(rt, alloc, plan, ready, gate) {
        Ok(closed) => closed,
        Err(ready) => {
            return Served {
                ready,
                outcome: None,
            };
        }
    };
    // What the law on journals asks of addresses, and what that on counters says.
    know_addresses(core.plan().prefixes.as_slice());
    counts_sum_segments_up();
    let outcome = Outcome {
        core,
        entries,
        ends,
        journal_written: !journal_failed,
    };
    Served {
        ready,
        outcome: Some(outcome),
    }
}
