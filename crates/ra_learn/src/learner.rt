//! Learning from what is seen.

ghost use Rattle.std.specs.Prelude.{◌≡◌, ◌≤◌, ◌^◌, ℕ, IfOk};
ghost use Rattle.std.specs.List.{list_any};
ghost use Rattle.savi_kinds.specs.PortSets.{is_member};
ghost use Rattle.ra_learn.specs.Guarding.{is_among, is_trusted_port, names_known};
ghost use Rattle.ra_learn.specs.Link.{link_nets};
ghost use Rattle.ra_learn.specs.Tables.{link_prefix_of};

use crate::advert::{AdvertPrefix, Ra};
use crate::carried::carried;
use crate::guard::Guard;
use crate::prefixes::{LinkPrefix, LinkPrefixes};
use crate::reader::read_ra;
use crate::routers::{Router, Routers};
use savi_kinds::{
    Addr, DEFAULT_VLAN, Moment, Plan, Port, PortPlan, PortSet, Prefix, PrefixPlan, Role,
};
use std::alloc::{AllocError, Global};
use std::marker::Model;

/// The longest window, in ms: an hour.
pub const WINDOW_MOST_MS: u64 = 3_600_000;

/// How many ms a second has.
const MS_PER_SECOND: u64 = 1_000;

/// The valid lifetime that stands for infinity (RFC 4861 section 4.6.2).
const INFINITE_LIFETIME: u32 = 0xffff_ffff;

/// Which ports have routers, and which routers and prefixes a link has, learned from the frames that come in at its ports.
///
/// Contracts see what it keeps, and say how that stands with all that was seen (`HasLearned`). No call but `make` takes memory.
#[derive(Drop)]
pub struct Learner {
    trusted: PortSet,
    nets: Vec<Prefix>,
    window: u64,
    first: Option<Moment>,
    heard: PortSet,
    refused: PortSet,
    routers: Routers,
    prefixes: LinkPrefixes,
    lost: u64,
}

impl Model for Learner {
    ghost use Rattle.std.specs.Prelude.{◌≤◌, ◌^◌, IfSome};
    ghost use Rattle.ra_learn.specs.Learned.{Learned};

    ghost Value = { Learned };

    ghost view = { λ l. record {
      trusted = l.trusted;
      nets = l.nets.items;
      window = l.window;
      first = l.first;
      heard = l.heard;
      refused = l.refused;
      tables = record { routers = l.routers; prefixes = l.prefixes; lost = l.lost };
    } };

    ghost invariant = { λ l. (l.window ≤ 3600000) × IfSome l.first (λ first. first ≤ 2 ^ 62) };
}

impl Learner {
    ghost use Rattle.std.specs.Prelude.{◌+◌, ◌++◌, ℕ, [], ◌∷◌, vec_capacity, List, length, slice_get, IfOk};
    ghost use Rattle.std.specs.Option.{option_map};
    ghost use Rattle.savi_kinds.specs.Ports.{number_of};
    ghost use Rattle.savi_kinds.specs.declared.plan.Plan.{Plan};
    ghost use Rattle.ra_learn.specs.Sightings.{Sighting};
    ghost use Rattle.ra_learn.specs.Guarding.{guard_at, answer, is_window_open};
    ghost use Rattle.ra_learn.specs.Tables.{learned_tables, routers_at, prefixes_at, told_at, with_router, with_prefix, with_prefixes, router_parts, prefix_parts};
    ghost use Rattle.ra_learn.specs.Printed.{table_lines};
    ghost use Rattle.ra_learn.specs.Learned.{Learned, HasLearned, accepts, state_of, lets_pass, after_noting, told_if_passed, begun_at};

    /// A learner that has seen nothing, with a window of so many ms, at most 3,600,000. It takes all its memory here. `Err`
    /// is want of memory.
    pub fn make(alloc: Global, plan: &Plan, window: u64) -> Result<Learner, AllocError>
        requires { window ≤ WINDOW_MOST_MS }
        ensures { IfOk result (HasLearned plan.now window []) }
    {
        Ok(Learner {
            trusted: trusted_ports(plan.ports.as_slice()),
            nets: link_nets(alloc, plan.prefixes.as_slice())?,
            window,
            first: None,
            heard: PortSet::empty(),
            refused: PortSet::empty(),
            routers: Routers::make(alloc)?,
            prefixes: LinkPrefixes::make(alloc)?,
            lost: 0,
        })
    }

    /// Sees a frame of at most 1,518 octets at port `p` of the link at moment `t` (ms). The answer is whether it passes
    /// where it is a router advertisement, and None exactly where it carries none (`carried`). O(n), and for an
    /// advertisement that passes O(64) and O(32) for each of its prefixes.
    pub fn see(&mut self, p: Port, t: Moment, frame: &[u8]) -> Option<bool>
        requires short { length frame.now ≤ 1518 }
        requires moment { t ≤ 2 ^ 62 }
        ensures knows { (plan : Plan) (window : ℕ) (past : List Sighting) → HasLearned plan window past self.old → HasLearned plan window (record { port = p; moment = t; octets = frame.now } ∷ past) self.new }
        ensures value { (plan : Plan) (window : ℕ) (past : List Sighting) → HasLearned plan window past self.old → result ≡ answer plan window past (record { port = p; moment = t; octets = frame.now }) }
    {
        self.begin(t);
        let (ip, message) = carried(frame)?;
        match read_ra(&ip, message) {
            Some(ra) => Some(self.hear(p, t, ip.src, &ra)),
            None => Some(false),
        }
    }

    /// The state of port `p` at moment `t` (ms). O(1).
    pub fn state(&self, p: Port, t: Moment) -> Guard
        ensures kept { result ≡ state_of self.now (number_of p) t }
        ensures value { (plan : Plan) (window : ℕ) (past : List Sighting) → HasLearned plan window past self.now → result ≡ guard_at plan window past (number_of p) t }
    {
        if self.trusted.contains(p) {
            Guard::Forwarding
        } else if self.is_window_open(t) {
            Guard::Learning
        } else if self.heard.contains(p) && !self.refused.contains(p) {
            Guard::Forwarding
        } else {
            Guard::Blocking
        }
    }

    /// The i-th of the routers that stand at moment `t` (ms), in the order of address and port: source, port, and the
    /// moment before which it stands. None exactly past the last. O(64).
    pub fn router(&self, i: u32, t: Moment) -> Option<(Addr, Port, Moment)>
        ensures { (plan : Plan) (window : ℕ) (past : List Sighting) → HasLearned plan window past self.now → result ≡ option_map router_parts (slice_get (routers_at t (learned_tables plan window past).routers) i) }
    {
        let router = self.routers.standing(i, t)?;
        Some((router.source, router.port, router.until))
    }

    /// The i-th of the prefixes that stand at moment `t` (ms), in the order of address and length: the prefix, and the
    /// moment before which it stands, or none where it always does. None exactly past the last. O(32).
    pub fn prefix(&self, i: u32, t: Moment) -> Option<(Prefix, Option<Moment>)>
        ensures { (plan : Plan) (window : ℕ) (past : List Sighting) → HasLearned plan window past self.now → result ≡ option_map prefix_parts (slice_get (prefixes_at t (learned_tables plan window past).prefixes) i) }
    {
        let prefix = self.prefixes.standing(i, t)?;
        Some((prefix.prefix, prefix.until))
    }

    /// How many routers and prefixes found no place; the count stops at 2^64 - 1. O(1).
    pub fn lost(&self) -> u64
        ensures kept { result ≡ self.now.tables.lost }
        ensures value { (plan : Plan) (window : ℕ) (past : List Sighting) → HasLearned plan window past self.now → result ≡ (learned_tables plan window past).lost }
    {
        self.lost
    }

    // Whether the window is open at t.
    fn is_window_open(&self, t: Moment) -> bool
        ensures { result ≡ is_window_open self.now.window self.now.first t }
    {
        match self.first {
            Some(first) => t < first + self.window,
            None => true,
        }
    }

    /// Puts the lines of the routers and the prefixes that stand at moment `t` (ms) behind a text that has room for 96 lines.
    /// O(96).
    pub(crate) fn put_entries(&self, text: &mut Vec<u8>, t: Moment)
        requires { length text.old.items + 9216 ≤ vec_capacity text.old }
        ensures items { text.new.items ≡ text.old.items ++ table_lines t self.now.tables }
        ensures len { length text.new.items ≤ length text.old.items + 9216 }
        ensures capacity { vec_capacity text.old ≤ vec_capacity text.new }
    {
        self.routers.put_lines(text, t);
        self.prefixes.put_lines(text, t);
    }

    // The window begins, unless it began before.
    fn begin(&mut self, t: Moment)
        requires { t ≤ 2 ^ 62 }
        ensures { self.new ≡ begun_at t self.old }
    {
        if self.first.is_none() {
            self.first = Some(t);
        }
    }

    // Hears a good advertisement: in the window the port learns, and where it forwards what is acceptable passes.
    fn hear(&mut self, p: Port, t: Moment, source: Addr, ra: &Ra) -> bool
        requires moment { t ≤ 2 ^ 62 }
        ensures value { result ≡ lets_pass (after_noting self.old (number_of p) t ra.now) (number_of p) t ra.now }
        ensures after { self.new ≡ told_if_passed (after_noting self.old (number_of p) t ra.now) p t (record { source = source; ra = ra.now }) }
    {
        self.note(p, t, ra);
        let passes = self.lets_pass(p, t, ra);
        if passes {
            self.tell(p, t, source, ra);
        }
        passes
    }

    // Notes a good advertisement in the window.
    fn note(&mut self, p: Port, t: Moment, ra: &Ra)
        ensures { self.new ≡ after_noting self.old (number_of p) t ra.now }
    {
        if !self.is_window_open(t) {
            return;
        }
        if !self.accepts(p, ra) {
            self.refused = self.refused.with(p);
        }
        self.heard = self.heard.with(p);
    }

    // Whether a good advertisement passes.
    fn lets_pass(&self, p: Port, t: Moment, ra: &Ra) -> bool
        ensures { result ≡ lets_pass self.now (number_of p) t ra.now }
    {
        self.state(p, t) == Guard::Forwarding && self.accepts(p, ra)
    }

    // Whether an advertisement is acceptable at a port.
    fn accepts(&self, p: Port, ra: &Ra) -> bool
        ensures { result ≡ accepts self.now (number_of p) ra.now }
    {
        self.trusted.contains(p) || names_known(self.nets.as_slice(), ra)
    }

    // Tells the router and the prefixes of an advertisement that passes.
    fn tell(&mut self, p: Port, t: Moment, source: Addr, ra: &Ra)
        requires { t ≤ 2 ^ 62 }
        ensures { self.new ≡ record self.old { tables = told_at p t (record { source = source; ra = ra.now }) self.old.tables } }
    {
        let router = Router {
            source,
            port: p,
            until: t + MS_PER_SECOND * u64::from(ra.life),
        };
        self.set_router(t, router);
        self.set_prefixes(t, ra.prefixes.as_slice());
    }

    // Sets a router at t, or counts it where it finds no place.
    fn set_router(&mut self, t: Moment, router: Router)
        ensures { self.new ≡ record self.old { tables = with_router t router self.old.tables } }
    {
        if !self.routers.set(t, router) {
            self.lost = self.lost.saturating_add(1);
        }
    }

    // Sets advertised prefixes at t, one after the other.
    fn set_prefixes(&mut self, t: Moment, advertised: &[AdvertPrefix])
        requires { t ≤ 2 ^ 62 }
        ensures { self.new ≡ record self.old { tables = with_prefixes t advertised.now self.old.tables } }
    {
        for one in advertised {
            self.set_prefix(t, link_prefix_of(t, one));
        }
    }

    // Sets a prefix at t, or counts it where it finds no place.
    fn set_prefix(&mut self, t: Moment, prefix: LinkPrefix)
        ensures { self.new ≡ record self.old { tables = with_prefix t prefix self.old.tables } }
    {
        if !self.prefixes.set(t, prefix) {
            self.lost = self.lost.saturating_add(1);
        }
    }
}

// The entry of a prefix that is advertised at t.
fn link_prefix_of(t: Moment, advertised: &AdvertPrefix) -> LinkPrefix
    requires { t ≤ 2 ^ 62 }
    ensures { result ≡ link_prefix_of t advertised.now }
{
    let until = if advertised.valid == INFINITE_LIFETIME {
        None
    } else {
        Some(t + MS_PER_SECOND * u64::from(advertised.valid))
    };
    LinkPrefix {
        prefix: advertised.prefix,
        until,
    }
}

// The trusted ones of these ports.
fn trusted_ports(ports: &[PortPlan]) -> PortSet
    ensures { (n : ℕ) → 1 ≤ n → is_member result n ≡ list_any (is_trusted_port n) ports.now }
{
    let mut trusted = PortSet::empty();
    for port in ports {
        if port.role == Role::Trusted {
            trusted = trusted.with(port.number);
        }
    }
    trusted
}

// The prefixes of the link among these parts of a plan.
fn link_nets(alloc: Global, prefixes: &[PrefixPlan]) -> Result<Vec<Prefix>, AllocError>
    ensures { IfOk result (λ nets. nets.items ≡ link_nets prefixes.now) }
{
    prefixes
        .iter()
        .filter(|p| p.vlan == DEFAULT_VLAN)
        .map(|p| p.prefix)
        .collect(alloc)
}

// Whether each prefix of an advertisement is one of these.
fn names_known(nets: &[Prefix], ra: &Ra) -> bool
    ensures { result ≡ names_known nets.now ra.now }
{
    ra.prefixes
        .as_slice()
        .iter()
        .all(|advertised| is_among(nets, advertised.prefix))
}

// Whether a prefix is one of these.
fn is_among(nets: &[Prefix], prefix: Prefix) -> bool
    ensures { result ≡ is_among nets.now prefix }
{
    nets.iter()
        .any(|net| prefix.net.0 == net.net.0 && prefix.len == net.len)
}
