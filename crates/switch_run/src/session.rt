//! A replay over the ends of control and of the ports of a plan, and over a journal.

ghost use Rattle.std.specs.Prelude.{◌≡◌, true, All, IfNone, IfSome, List, Some, is_some};
ghost use Rattle.savi_kinds.specs.declared.plan.Plan.{Plan};
ghost use Rattle.savi_kinds.specs.ValidPlan.{IsValidPlan};
ghost use Rattle.hist_store.specs.JournalTexts.{address_text};
ghost use Rattle.hist_store.specs.Rows.{Row};
ghost use Rattle.savi_segments.specs.FirstCome.{AllSegmentsPassedRightly, SegmentsKeepWhoCameFirst};
ghost use Rattle.savi_segments.specs.Journals.{IsJournalOfOne};
ghost use Rattle.savi_segments.specs.Segments.{AreLegal};
ghost use Rattle.port_worker.specs.LineInputs.{IsControlUnheard};
ghost use Rattle.port_worker.specs.Pairs.{EachPair};
ghost use Rattle.port_worker.specs.Replays.{IsUnread, ports_held, ports_planned};
ghost use Rattle.port_worker.specs.Served.{IsSamePort};
ghost use Rattle.run_config.specs.Configs.{IsBuilt};
ghost use Rattle.switch_run.specs.Played.{IsOutcomeOf, IsPlayed};

use crate::outcome::Outcome;
use journal_write::know_addresses;
use port_worker::{Closed, ControlEnds, PortEnds, Ready, replay_session};
use savi_ends::{Clock, Sink, Source};
use savi_kinds::Plan;
use savi_segments::{
    counts_sum_segments_up, journals_tell_one_history, segments_keep_who_came_first,
    segments_pass_where_their_source_is_live,
};
use std::alloc::Global;

/// The ends, given back, and the outcome, unless there was no memory.
pub struct Played<S, K, C> {
    pub control: Option<ControlEnds<S, K, C>>,
    pub ports: Vec<PortEnds<S, K, C>>,
    pub journal: K,
    pub outcome: Option<Outcome>,
}

/// Replays what control and the ports have, and writes the journal segment by segment.
///
/// Without memory nothing is read or written.
pub fn play<S: Source, K: Sink, C: Clock>(
    alloc: Global,
    plan: Plan,
    control: Option<ControlEnds<S, K, C>>,
    ports: Vec<PortEnds<S, K, C>>,
    journal: K,
) -> Played<S, K, C>
    requires built { IsBuilt true plan }
    requires planned { ports_held ports.items ≡ ports_planned plan }
    requires unread { All IsUnread ports.items }
    requires unheard { IsControlUnheard control }
    ensures control { is_some result.control ≡ is_some control }
    ensures ports { EachPair IsSamePort ports.items result.ports.items }
    ensures none { IfNone result.outcome ((result.control ≡ control) × (result.ports ≡ ports) × (result.journal ≡ journal)) }
    ensures plan { IfSome result.outcome (λ o. o.core.plan ≡ plan) }
    ensures played { IfSome result.outcome (λ o. (segments : List (List Row)) × IsOutcomeOf segments o
        × IsPlayed S.left K.written S.faults K.faults plan segments control result.control ports.items result.ports.items journal result.journal o.journal_written) }
{
    let ready = Ready {
        control,
        ports,
        journal: Some(journal),
    };
    let Closed {
        core,
        ready,
        entries,
        ends,
        journal_failed,
    } = match replay_session(alloc, plan, ready) {
        Ok(closed) => closed,
        Err(ready) => return given_back(ready, None),
    };
    // What the law on journals asks of addresses, and what that on counters says.
    know_addresses(core.plan().prefixes.as_slice());
    counts_sum_segments_up();
    let outcome = Outcome {
        core,
        entries,
        ends,
        journal_written: !journal_failed,
    };
    given_back(ready, Some(outcome))
}

// The ends of a session that had a journal, given back.
fn given_back<S, K, C>(ready: Ready<S, K, C>, outcome: Option<Outcome>) -> Played<S, K, C>
    requires { is_some ready.journal ≡ true }
    ensures control { result.control ≡ ready.control }
    ensures ports { result.ports ≡ ready.ports }
    ensures journal { Some result.journal ≡ ready.journal }
    ensures outcome { result.outcome ≡ outcome }
{
    let Ready {
        control,
        ports,
        journal,
    } = ready;
    match journal {
        Some(journal) => Played {
            control,
            ports,
            journal,
            outcome,
        },
        None => unreachable!(),
    }
}

/// Does nothing: states what the laws say of the segments of every session.
pub(crate) fn know_sessions()
    ensures alone { IsJournalOfOne address_text }
    ensures access { (plan : Plan) (segments : List (List Row)) → IsValidPlan plan → plan.savi ≡ true → AreLegal plan segments → AllSegmentsPassedRightly plan segments }
    ensures first_come { (plan : Plan) (segments : List (List Row)) → IsValidPlan plan → plan.savi ≡ true → AreLegal plan segments → SegmentsKeepWhoCameFirst plan segments }
{
    journals_tell_one_history();
    segments_pass_where_their_source_is_live();
    segments_keep_who_came_first();
}
