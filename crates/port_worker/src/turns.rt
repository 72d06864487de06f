//! The loop.

ghost use Rattle.std.specs.Prelude.{◌≡◌, ◌≢◌, ◌<◌, ◌≤◌, ◌+◌, ◌∷◌, ℕ, List, [], true, false, length, slice_index_or, All, IsSome, IfSome, Option};
ghost use Rattle.std.specs.List.Sorted.{IsStrictlyIncreasing};
ghost use Rattle.savi_kinds.specs.Ports.{number_of};
ghost use Rattle.savi_kinds.specs.ValidPlan.{numbers_of, IsValidPlan};
ghost use Rattle.savi_kinds.specs.declared.plan.Plan.{Plan};
ghost use Rattle.savi_kinds.specs.declared.entry.Who.TheVariants.{Ingress, Control, Egress, Ticker};
ghost use Rattle.savi_kinds.specs.declared.entry.How.TheVariants as hows;
ghost use Rattle.hist_store.specs.Rows.{Row};
ghost use Rattle.savi_history.specs.Passes.{AllEnded, control_pass, ticker_pass, has_ended, has_pass};
ghost use Rattle.savi_history.specs.Queues.{queue};
ghost use Rattle.savi_history.specs.Legal.{IsFinished, IsLegal, IsOpen, MayEnd};
ghost use Rattle.savi_history.specs.Limits.{has_room};
ghost use Rattle.savi_history.specs.Events.{End};
ghost use Rattle.savi_history.specs.Replay.{closed, closing, with_end};
ghost use Rattle.savi_segments.specs.Replay.{Run, entered_in, inputs_paused, room_made, with_pause, run_with};
ghost use Rattle.savi_segments.specs.Segments.{AreOctets, base_after};
ghost use Rattle.savi_core.specs.Machines.{base_of, started};
ghost use Rattle.journal_write.specs.declared.journal.Journal.{Journal};
ghost use Rattle.port_worker.specs.declared.port_ends.PortEnds.{PortEnds};
ghost use Rattle.port_worker.specs.Pairs.{EachPair};
ghost use Rattle.port_worker.specs.Inputs.{IsSoundAhead, turn_of};
ghost use Rattle.port_worker.specs.LineInputs.{IsControlUnheard};
ghost use Rattle.port_worker.specs.SentFrames.{OnlySink};
ghost use Rattle.port_worker.specs.Steps.{HasRoomFor, IsStepped, ends_input, ahead_after, comes_in};
ghost use Rattle.port_worker.specs.Outputs.{OutputsGoOn, IsOutputEnded};
ghost use Rattle.port_worker.specs.ControlOutputs.{IsControlTurn, IsControlAdvanced, IsAheadAfter, ControlGoesOn, unheard};
ghost use Rattle.port_worker.specs.Replays.{ports_held, ports_planned, IsUnread};
ghost use Rattle.port_worker.specs.Served.{IsSamePort, ServesEnds};
ghost use Rattle.port_worker.specs.Turnings.{AreTurned, StandsAt, turn_next};
ghost use Rattle.journal_write.specs.Told.{TellsOf, passes_over};
ghost use Rattle.port_worker.specs.Journalled.{HasRoomIfAny, IsBlankIfAny, IsJournalled, IsSettledIfAny};
ghost use Rattle.port_worker.specs.Replayed.{HasReplayed};

use crate::choice::next_of;
use crate::control_ends::ControlEnds;
use crate::looking::{look_all, look_control};
use crate::outputs::{begin_all, drain_all};
use crate::port_ends::PortEnds;
use frame_class::Seen;
use journal_write::{Journal, Told};
use savi_core::{Batch, Core, Event, Reply};
use savi_ends::{Clock, Sink, Source};
use savi_kinds::{How, Plan, Port, Who};

/// Makes the segments of a replay of the inputs of control and of these ports, writes the replies to control, writes at each
/// port what is sent there, and writes the journal, where there is one, segment by segment. The answer is what is told of
/// all segments; the switch is left with the newest one.
///
/// The ports are those of the plan, in its order. The capture of each port is begun before anything is read. Without ends of
/// control its input ends then. Of the inputs the turn with the least stamp is entered, of equals that of control before
/// those of the ports, and that of the lower port, and an input ends at once. A line is answered in one write, right behind
/// its entry. Behind an arrival or a line each queue that holds something is drained whole, in the order of the ports, and
/// each frame is one write. Where the history has no room for an arrival or a line, all that is open is paused, the segment
/// is written to the journal, and the next one begins with that arrival or line. Behind `quit` control ends, and the ports
/// go on. Where all inputs have ended the ticker ends, and then each egress.
///
/// A read that fails ends its input, at once, and the other inputs go on. A write that fails at a port ends its egress, at
/// once: what waits there is given up, later frames are cut there, nothing more is written to that sink, and the other ports
/// go on. A reply that can't be written ends control. A write of the journal that fails stops the journal alone. Each end is
/// still at its place, and no clock was read. It returns for every input, since none is read past place 2^62. The reply is
/// room for what is written to control, and what it holds doesn't matter.
/// O(ports), at most 16, for each entry beside one pass over the octets of the frames, what `Core::reply` costs for each
/// line, and what `Core::turn` and the journal cost for each segment; it takes no memory.
pub fn replay<S: Source, K: Sink, C: Clock>(
    core: &mut Core,
    control: &mut Option<ControlEnds<S, K, C>>,
    ports: &mut [PortEnds<S, K, C>],
    journal: &mut Option<Journal<K>>,
    batch: &mut Batch,
    reply: &mut Reply,
) -> Told
    requires valid { IsValidPlan core.old.plan }
    requires start { core.old ≡ started core.old.plan }
    requires planned { ports_held ports.old ≡ ports_planned core.old.plan }
    requires unread { All IsUnread ports.old }
    requires unheard { IsControlUnheard control.old }
    requires blank { IsBlankIfAny journal.old }
    ensures plan { core.new.plan ≡ core.old.plan }
    ensures ports { EachPair IsSamePort ports.old ports.new }
    ensures settled { IsSettledIfAny journal.new }
    ensures replayed { HasReplayed core.new (λ segments.
        ServesEnds S.left K.written S.faults K.faults core.old.plan segments control.old control.new ports.old ports.new
        × TellsOf result.entries result.ends.items segments
        × IsJournalled K.written K.faults core.old.plan segments journal.old journal.new) }
{
    let mut told = Told::new();
    let mut seen = Seen::nothing();
    begin_journal(core.plan(), journal);
    begin_all(core, ports);
    end_unheard(core, control);
    'turns: loop {
        look_control(control);
        look_all(ports);
        let Some(place) = next_of(control, ports) else {
            finish(core, ports);
            close_segment(core, journal, &mut told);
            return told;
        };
        make_room(core, control, ports, place, journal, &mut told);
        if place == 0 {
            advance_control(core, control, ports, batch, reply);
        } else {
            advance(core, ports, place - 1, batch, &mut seen);
        }
    }
}

// Puts the header of the journal, where there is one.
fn begin_journal<K: Sink>(plan: &Plan, journal: &mut Option<Journal<K>>)
    requires valid { IsValidPlan plan.now }
    requires blank { IsBlankIfAny journal.old }
    ensures { IsJournalled K.written K.faults plan.now [] journal.old journal.new }
{
    if let Some(journal) = journal {
        journal.begin(plan);
    }
}

// Without ends of control its input ends at once.
fn end_unheard<S, K, C>(core: &mut Core, control: &Option<ControlEnds<S, K, C>>)
    requires open { IsOpen core.old.plan (base_of core.old) core.old.past Control }
    ensures { core.new ≡ unheard core.old control.now }
{
    if control.is_none() {
        let _control = core.step(Event::End {
            who: Who::Control,
            how: How::End,
        });
    }
}

// Where there is no room for the turn at this place, pauses all that is open, closes the segment and begins the next one.
fn make_room<S, K: Sink, C>(
    core: &mut Core,
    control: &Option<ControlEnds<S, K, C>>,
    ports: &[PortEnds<S, K, C>],
    place: usize,
    journal: &mut Option<Journal<K>>,
    told: &mut Told,
)
    requires valid { IsValidPlan core.old.plan }
    requires planned { ports_held ports.now ≡ ports_planned core.old.plan }
    requires known { IsSome (turn_next control.now ports.now place) }
    requires open { (pass : ℕ) × (pass < control_pass core.old.plan + 1) × (has_ended (base_of core.old) pass core.old.past ≡ false) }
    requires ticker { has_ended (base_of core.old) (ticker_pass core.old.plan) core.old.past ≡ false }
    requires quiet { All (λ p. queue core.old.plan (base_of core.old) (number_of p.port) core.old.past ≡ []) ports.now }
    requires few { length told.old.ends.items ≡ passes_over core.old.plan (base_of core.old) [] }
    requires lines { HasRoomIfAny journal.old }
    ensures plan { core.new.plan ≡ core.old.plan }
    ensures room { IfSome (turn_next control.now ports.now place) (λ turn. HasRoomFor core.new.plan core.new.past turn) }
    ensures made { (run : Run) → StandsAt core.old run → IfSome (turn_next control.now ports.now place) (λ turn. StandsAt core.new (room_made core.old.plan turn run)) }
    ensures turned { (run : Run) → StandsAt core.old run → AreTurned core.old.plan run.closed → IfSome (turn_next control.now ports.now place) (λ turn. AreTurned core.old.plan (room_made core.old.plan turn run).closed) }
    ensures told { (run : Run) → StandsAt core.old run → TellsOf told.old.entries told.old.ends.items run.closed → IfSome (turn_next control.now ports.now place) (λ turn. TellsOf told.new.entries told.new.ends.items (room_made core.old.plan turn run).closed) }
    ensures journal { (run : Run) (first : Option (Journal K)) → StandsAt core.old run → IsJournalled K.written K.faults core.old.plan run.closed first journal.old
        → IfSome (turn_next control.now ports.now place) (λ turn. IsJournalled K.written K.faults core.old.plan (room_made core.old.plan turn run).closed first journal.new) }
{
    if core.has_room() || !needs_room(control, ports, place) {
        return;
    }
    pause_inputs(core, ports);
    finish(core, ports);
    close_segment(core, journal, told);
    core.turn();
}

// Whether the turn at this place is an arrival or a line.
fn needs_room<S, K, C>(
    control: &Option<ControlEnds<S, K, C>>,
    ports: &[PortEnds<S, K, C>],
    place: usize,
) -> bool
    requires { IsSome (turn_next control.now ports.now place) }
    ensures { IfSome (turn_next control.now ports.now place) (λ turn. result ≡ comes_in turn) }
{
    if place > 0 {
        return ports[place - 1].has_arrival();
    }
    match control {
        Some(control) => control.has_line(),
        None => unreachable!(),
    }
}

// Pauses control and the inputs of the ports that haven't ended, in this order.
fn pause_inputs<S, K, C>(core: &mut Core, ports: &[PortEnds<S, K, C>])
    requires planned { ports_held ports.now ≡ ports_planned core.old.plan }
    requires rising { IsStrictlyIncreasing (numbers_of core.old.plan.ports) }
    requires full { has_room core.old.plan core.old.past ≡ false }
    ensures { core.new ≡ record core.old { past = inputs_paused core.old.plan (base_of core.old) core.old.past } }
{
    pause(core, Who::Control);
    for place in 0..ports.len() {
        pause(core, Who::Ingress(ports[place].port));
    }
}

// Pauses an input for which there is no room, where it hasn't ended.
fn pause(core: &mut Core, who: Who)
    requires known { has_pass core.old.plan who ≡ true }
    requires may { MayEnd core.old.plan (base_of core.old) core.old.past who hows.Paused }
    ensures { core.new ≡ record core.old { past = with_pause core.old.plan (base_of core.old) who core.old.past } }
{
    if !core.ended(who) {
        let _paused = core.step(Event::End {
            who,
            how: How::Paused,
        });
    }
}

// Writes the segment that is finished to the journal, where there is one, and keeps what is told of it.
fn close_segment<K: Sink>(core: &Core, journal: &mut Option<Journal<K>>, told: &mut Told)
    requires few { length told.old.ends.items ≡ passes_over core.now.plan (base_of core.now) [] }
    requires lines { HasRoomIfAny journal.old }
    ensures settled { IsSettledIfAny journal.new }
    ensures legal { IsLegal core.now.plan (base_of core.now) core.now.past }
    ensures octets { AreOctets core.now.past }
    ensures told { (before : List (List Row)) → TellsOf told.old.entries told.old.ends.items before → TellsOf told.new.entries told.new.ends.items (core.now.past ∷ before) }
    ensures journal { (before : List (List Row)) (first : Option (Journal K)) → base_of core.now ≡ base_after core.now.plan before
        → IsJournalled K.written K.faults core.now.plan before first journal.old → IsJournalled K.written K.faults core.now.plan (core.now.past ∷ before) first journal.new }
{
    told.add(core.history());
    if let Some(journal) = journal {
        journal.close(core);
    }
}

// Enters the turn of control, for which there is room, and drains the queues behind a line.
fn advance_control<S, K: Sink, C>(
    core: &mut Core,
    control: &mut Option<ControlEnds<S, K, C>>,
    ports: &mut [PortEnds<S, K, C>],
    batch: &mut Batch,
    reply: &mut Reply,
)
    requires planned { ports_held ports.old ≡ ports_planned core.old.plan }
    requires rising { IsStrictlyIncreasing (numbers_of core.old.plan.ports) }
    requires depth { core.old.plan.depth ≤ 256 }
    requires turn { IsControlTurn control.old }
    requires open { IsOpen core.old.plan (base_of core.old) core.old.past Control }
    requires room { IfSome (turn_next control.old ports.old 0) (λ turn. HasRoomFor core.old.plan core.old.past turn) }
    requires quiet { All (λ p. queue core.old.plan (base_of core.old) (number_of p.port) core.old.past ≡ []) ports.old }
    ensures plan { core.new.plan ≡ core.old.plan }
    ensures base { base_of core.new ≡ base_of core.old }
    ensures stepped { IsControlAdvanced K.written K.faults control.old control.new }
    ensures ahead { IsAheadAfter core.old.plan (base_of core.old) core.new.past control.new }
    ensures sinks { EachPair (OnlySink K.written K.faults) ports.old ports.new }
    ensures outputs { (run : Run) → StandsAt core.old run → ControlGoesOn K.written K.faults core.old.plan run (run_with run core.new.past) control.old control.new ports.old ports.new }
{
    match control {
        None => unreachable!(),
        Some(control) => {
            if control.enter(core, reply) {
                drain_all(core, ports, batch);
            }
        }
    }
}

// Enters the turn of the port at this place, for which there is room, and drains the queues behind an arrival. `seen` is
// room for what is seen of a frame.
fn advance<S, K: Sink, C>(
    core: &mut Core,
    ports: &mut [PortEnds<S, K, C>],
    place: usize,
    batch: &mut Batch,
    seen: &mut Seen,
)
    requires inside { place < length ports.old }
    requires planned { ports_held ports.old ≡ ports_planned core.old.plan }
    requires rising { IsStrictlyIncreasing (numbers_of core.old.plan.ports) }
    requires depth { core.old.plan.depth ≤ 256 }
    requires sound { All (λ p. IsSoundAhead p.reader p.ahead) ports.old }
    requires known { (d : PortEnds S K C) → IsSome (turn_of (slice_index_or ports.old place d)) }
    requires open { (d : PortEnds S K C) → IsOpen core.old.plan (base_of core.old) core.old.past (Ingress (slice_index_or ports.old place d).port) }
    requires room { (d : PortEnds S K C) → IfSome (turn_of (slice_index_or ports.old place d)) (λ turn. HasRoomFor core.old.plan core.old.past turn) }
    requires quiet { All (λ p. queue core.old.plan (base_of core.old) (number_of p.port) core.old.past ≡ []) ports.old }
    ensures plan { core.new.plan ≡ core.old.plan }
    ensures base { base_of core.new ≡ base_of core.old }
    ensures stepped { EachPair (IsStepped K.written K.faults) ports.old ports.new }
    ensures others { (k : ℕ) → (d : PortEnds S K C) → k ≢ place → k < length ports.old → (slice_index_or ports.new k d).ahead ≡ (slice_index_or ports.old k d).ahead }
    ensures ahead { (d : PortEnds S K C) → IfSome (turn_of (slice_index_or ports.old place d)) (λ turn. (slice_index_or ports.new place d).ahead ≡ ahead_after (ends_input turn)) }
    ensures outputs { (d : PortEnds S K C) (run : Run) → StandsAt core.old run → IfSome (turn_of (slice_index_or ports.old place d)) (λ turn.
        OutputsGoOn K.written K.faults core.old.plan run (run_with run core.new.past) ports.old ports.new (λ stops. entered_in core.old.plan stops turn run)) }
{
    if ports[place].enter(core, seen) {
        drain_all(core, ports, batch);
    }
}

// Ends the ticker, and then each egress that hasn't ended, in the order of the ports: they are paused where an input is.
fn finish<S, K, C>(core: &mut Core, ports: &[PortEnds<S, K, C>])
    requires planned { ports_held ports.now ≡ ports_planned core.old.plan }
    requires rising { IsStrictlyIncreasing (numbers_of core.old.plan.ports) }
    requires inputs { AllEnded (base_of core.old) (control_pass core.old.plan + 1) core.old.past }
    requires ticker { has_ended (base_of core.old) (ticker_pass core.old.plan) core.old.past ≡ false }
    requires quiet { All (λ p. queue core.old.plan (base_of core.old) (number_of p.port) core.old.past ≡ []) ports.now }
    ensures made { core.new ≡ record core.old { past = closed core.old.plan (base_of core.old) core.old.past } }
    ensures outputs { All (λ p. IsOutputEnded core.old.plan (base_of core.old) core.old.past core.new.past (number_of p.port)) ports.now }
    ensures finished { IsFinished core.old.plan (base_of core.old) core.new.past }
{
    let how = closing_reason(core);
    let _ticker = core.step(Event::End {
        who: Who::Ticker,
        how,
    });
    for place in 0..ports.len() {
        end_egress(core, ports[place].port, how);
    }
}

// Why the ticker and the outputs end: they are paused where an input is.
fn closing_reason(core: &Core) -> How
    ensures { result ≡ closing core.now.past }
{
    if core.has_pause() {
        How::Paused
    } else {
        How::End
    }
}

// Ends the egress of a port, where it hasn't ended, as the ticker did.
fn end_egress(core: &mut Core, port: Port, how: How)
    requires closing { how ≡ closing core.old.past }
    requires known { has_pass core.old.plan (Egress port) ≡ true }
    requires last { AllEnded (base_of core.old) (ticker_pass core.old.plan + 1) core.old.past }
    requires quiet { queue core.old.plan (base_of core.old) (number_of port) core.old.past ≡ [] }
    ensures { core.new ≡ record core.old { past = with_end core.old.plan (base_of core.old) port core.old.past } }
{
    let who = Who::Egress(port);
    if !core.ended(who) {
        let _egress = core.step(Event::End { who, how });
    }
}
