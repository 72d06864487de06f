//! What learning from captures prints.

ghost use Rattle.std.specs.Prelude.{◌≡◌, ℕ, ◌+◌, ◌*◌, ◌≤◌, ◌++◌, List, Option, length, vec_capacity, flat_map};
ghost use Rattle.ra_learn.specs.Reports.{Wrote};
ghost use Rattle.ra_learn.specs.Link.{link_ports};
ghost use Rattle.ra_learn.specs.Printed.{learned_lines, learned_port_line};

use crate::learner::Learner;
use crate::lines::{push_line, put_advert, put_end, put_lost, put_port};
use crate::link::{is_link_port, link_ports};
use savi_ends::{Put, Sink};
use savi_kinds::{LAST_MOMENT, Moment, Plan, Port, PortPlan, PortSet};
use std::alloc::{AllocError, Global};
use std::marker::Model;

/// Room for the lines of what is known: those of 16 ports, 64 routers and 32 prefixes, and two more, of 96 octets each.
const KNOWN_OCTETS: usize = 10_944;

/// Learning from the arrivals at the ports of a plan, whose lines go to a sink: one for each router advertisement as it
/// comes, and then what is known. At trunks and at ports of other VLANs than 1 nothing is learned: what comes there moves
/// the last moment alone. Where a write failed nothing more is written.
///
/// Contracts say that it stands with all arrivals (`HasReported`), and that the sink took the text of these (`Wrote` of
/// `advert_lines`, and at the end of `printed`). No call but `make` takes memory.
#[derive(Drop)]
pub struct Report {
    link: PortSet,
    learner: Learner,
    moment: Moment,
    put: Put,
    known: Vec<u8>,
}

impl Model for Report {
    ghost use Rattle.std.specs.Prelude.{◌≤◌, ◌^◌, vec_capacity};
    ghost use Rattle.ra_learn.specs.Reports.{Reported};

    ghost Value = { Reported };

    ghost view = { λ r. record { link = r.link; learned = r.learner; moment = r.moment; put = r.put } };

    ghost invariant = { λ r. (r.moment ≤ 2 ^ 62) × (10944 ≤ vec_capacity r.known) };
}

impl Report {
    ghost use Rattle.std.specs.Prelude.{ℕ, [], ◌∷◌, List, Option, IfOk};
    ghost use Rattle.savi_kinds.specs.declared.plan.Plan.{Plan};
    ghost use Rattle.savi_kinds.specs.Arrivals.{Frame, Long};
    ghost use Rattle.savi_kinds.specs.Ports.{number_of};
    ghost use Rattle.savi_kinds.specs.PortSets.{is_member};
    ghost use Rattle.savi_ends.specs.declared.sink.Put.{Put};
    ghost use Rattle.ra_learn.specs.Learned.{HasLearned};
    ghost use Rattle.ra_learn.specs.Printed.{PortArrival, advert_lines, moment_at, printed, sightings_of};
    ghost use Rattle.ra_learn.specs.Sightings.{Sighting};
    ghost use Rattle.ra_learn.specs.Reports.{Reported, HasReported, Wrote};

    /// Nothing has come yet, and the window has so many ms, at most 3,600,000. It takes all its memory here. `Err` is want
    /// of memory.
    pub fn make(alloc: Global, plan: &Plan, window: u64) -> Result<Report, AllocError>
        requires { window ≤ 3600000 }
        ensures tells { IfOk result (HasReported plan.now window []) }
        ensures put { IfOk result (λ report. report.put ≡ Put.Done) }
    {
        Ok(Report {
            link: link_ports(plan.ports.as_slice()),
            learner: Learner::make(alloc, plan, window)?,
            moment: 0,
            put: Put::Done,
            known: Vec::with_capacity(alloc, KNOWN_OCTETS)?,
        })
    }

    /// Takes a frame of at most 1,518 octets that came at a port with this stamp (ms), and writes its line where it is a
    /// router advertisement at a port of the link. O(n), and for an advertisement that passes O(64) and O(32) for each of
    /// its prefixes.
    pub fn frame<K: Sink>(&mut self, port: Port, stamp: u64, octets: &[u8], sink: &mut K)
        requires { length octets.now ≤ 1518 }
        ensures tells { (plan : Plan) (window : ℕ) (arrivals : List PortArrival) → HasReported plan window arrivals self.old → HasReported plan window (record { port = port; arrival = Frame stamp octets.now } ∷ arrivals) self.new }
        ensures wrote { (plan : Plan) (window : ℕ) (arrivals : List PortArrival) (before : Option (List ℕ)) (faults : ℕ) → HasReported plan window arrivals self.old
            → Wrote (advert_lines plan window (sightings_of plan arrivals)) self.old.put before (K.written sink.old) faults (K.faults sink.old)
            → Wrote (advert_lines plan window (sightings_of plan (record { port = port; arrival = Frame stamp octets.now } ∷ arrivals))) self.new.put before (K.written sink.new) faults (K.faults sink.new) }
    {
        self.come_to(stamp);
        if !self.is_on_link(port) {
            return;
        }
        self.see(port, octets, sink);
    }

    /// Takes a longer frame, whose octets aren't kept. O(1).
    pub fn long(&mut self, port: Port, stamp: u64, len: u64)
        ensures tells { (plan : Plan) (window : ℕ) (arrivals : List PortArrival) → HasReported plan window arrivals self.old → HasReported plan window (record { port = port; arrival = Long stamp len } ∷ arrivals) self.new }
        ensures put { self.new.put ≡ self.old.put }
    {
        self.come_to(stamp);
    }

    /// Writes what is known at the last moment. Behind all arrivals the sink then took what is printed of them, and no write
    /// failed, or a front of it where the answer is `Failed`. O(1): at most 114 lines.
    pub fn finish<K: Sink>(&mut self, plan: &Plan, sink: &mut K) -> Put
        requires { length plan.now.ports ≤ 16 }
        ensures { (window : ℕ) (arrivals : List PortArrival) (before : Option (List ℕ)) (faults : ℕ) → HasReported plan.now window arrivals self.old
            → Wrote (advert_lines plan.now window (sightings_of plan.now arrivals)) self.old.put before (K.written sink.old) faults (K.faults sink.old)
            → Wrote (printed plan.now window arrivals) result before (K.written sink.new) faults (K.faults sink.new) }
    {
        put_known(
            &mut self.known,
            &self.learner,
            plan.ports.as_slice(),
            self.moment,
        );
        self.put = write_unless_failed(self.put, self.known.as_slice(), sink);
        self.put
    }

    // Whether a port is one of the link.
    fn is_on_link(&self, port: Port) -> bool
        ensures { result ≡ is_member self.now.link (number_of port) }
    {
        self.link.contains(port)
    }

    // Sees a frame at a port of the link at the last moment, and writes its line where it is a router advertisement.
    fn see<K: Sink>(&mut self, port: Port, octets: &[u8], sink: &mut K)
        requires { length octets.now ≤ 1518 }
        ensures knows { (plan : Plan) (window : ℕ) (seen : List Sighting) → HasLearned plan window seen self.old.learned → HasLearned plan window (record { port = port; moment = self.old.moment; octets = octets.now } ∷ seen) self.new.learned }
        ensures link { self.new.link ≡ self.old.link }
        ensures moment { self.new.moment ≡ self.old.moment }
        ensures wrote { (plan : Plan) (window : ℕ) (seen : List Sighting) (before : Option (List ℕ)) (faults : ℕ) → HasLearned plan window seen self.old.learned
            → Wrote (advert_lines plan window seen) self.old.put before (K.written sink.old) faults (K.faults sink.old)
            → Wrote (advert_lines plan window (record { port = port; moment = self.old.moment; octets = octets.now } ∷ seen)) self.new.put before (K.written sink.new) faults (K.faults sink.new) }
    {
        let moment = self.moment;
        match self.learner.see(port, moment, octets) {
            Some(passes) => {
                let line = put_advert(moment, port, passes);
                self.put = write_unless_failed(self.put, line.as_slice(), sink);
            }
            None => {}
        }
    }

    // The moment of an arrival with this stamp.
    fn come_to(&mut self, stamp: u64)
        ensures { self.new ≡ record self.old { moment = moment_at self.old.moment stamp } }
    {
        self.moment = self.moment.max(stamp.min(LAST_MOMENT));
    }
}

// Writes a piece, unless a write failed before, and answers whether one has.
fn write_unless_failed<K: Sink>(put: Put, piece: &[u8], sink: &mut K) -> Put
    ensures { (text : List ℕ) (before : Option (List ℕ)) (faults : ℕ) → Wrote text put before (K.written sink.old) faults (K.faults sink.old) → Wrote (text ++ piece.now) result before (K.written sink.new) faults (K.faults sink.new) }
{
    match put {
        Put::Done => sink.write(piece),
        Put::Failed => Put::Failed,
    }
}

// Puts the lines of what is known at a moment.
fn put_known(text: &mut Vec<u8>, learner: &Learner, ports: &[PortPlan], moment: Moment)
    requires ports { length ports.now ≤ 16 }
    requires room { KNOWN_OCTETS ≤ vec_capacity text.old }
    ensures items { text.new.items ≡ learned_lines learner.now ports.now moment }
    ensures capacity { vec_capacity text.old ≤ vec_capacity text.new }
{
    text.clear();
    put_ports(text, learner, ports, moment);
    learner.put_entries(text, moment);
    push_line(text, &put_lost(learner.lost()));
    push_line(text, &put_end());
}

// Puts the lines of the ports of the link.
fn put_ports(text: &mut Vec<u8>, learner: &Learner, ports: &[PortPlan], moment: Moment)
    requires room { length text.old.items + 96 * length ports.now ≤ vec_capacity text.old }
    ensures items { text.new.items ≡ text.old.items ++ flat_map (learned_port_line learner.now moment) (link_ports ports.now) }
    ensures len { length text.new.items ≤ length text.old.items + 96 * length ports.now }
    ensures capacity { vec_capacity text.old ≤ vec_capacity text.new }
{
    for port in ports {
        if is_link_port(port) {
            let guard = learner.state(port.number, moment);
            push_line(text, &put_port(port.number, guard));
        }
    }
}
