//! The filtering database.

ghost use Rattle.std.specs.Prelude.{◌≡◌, ◌≤◌, ◌<◌, ◌^◌, ◌∷◌, ℕ, Some, None, false, [], find, drop, length, IfOk, IfSome, MatchOption, slice_get};
ghost use Rattle.std.specs.Bool.{OnTrue, OnFalse};
ghost use Rattle.std.specs.Option.{option_map};
ghost use Rattle.savi_kinds.specs.Ports.{number_of};
ghost use Rattle.bridge_fdb.specs.Stations.{mac_number, station_of, is_of, is_live, live_at, learned_port, station_told, rows_from};
ghost use Rattle.bridge_fdb.specs.Learning.{is_known, learned, with_station};
ghost use Rattle.bridge_fdb.specs.Limits.{IsWithinLimits};
ghost use Rattle.bridge_fdb.specs.Kept.{Keeps, IsFree, IsSlotOf, in_slot, listed, without};
ghost use Rattle.bridge_fdb.specs.Full.{TellsFull};
ghost use Rattle.bridge_fdb.specs.declared.station.Station.{Station};

use crate::full::Full;
use crate::kept::Kept;
use crate::station::Station;
use savi_kinds::{Mac, Moment, Port};
use std::alloc::{AllocError, Global};
use std::marker::Model;

/// Where each station was seen last.
///
/// Contracts see the list of the stations that are kept, in order of MAC address, at most 256 of a port. Of these the
/// live ones alone count: a station is live before the moment 300 s after it was seen last. Those that have ended may be
/// given up when a station is learned, so that no earlier moment may be asked for afterwards.
#[derive(Drop)]
pub struct Fdb {
    kept: Kept,
    full: Full,
}

impl Model for Fdb {
    ghost use Rattle.std.specs.Prelude.{List};
    ghost use Rattle.bridge_fdb.specs.declared.station.Station.{Station};
    ghost use Rattle.bridge_fdb.specs.Limits.{IsWithinLimits};
    ghost use Rattle.bridge_fdb.specs.Kept.{Keeps, listed};
    ghost use Rattle.bridge_fdb.specs.Full.{TellsFull};

    ghost Value = { List Station };

    ghost view = { λ f. listed f.kept };

    ghost invariant = { λ f. Keeps f.kept × IsWithinLimits (listed f.kept) × TellsFull f.full (listed f.kept) };
}

/// What is told of a live station, and where the next one is looked for.
#[derive(Clone, Copy, PartialEq, Eq, Debug)]
pub struct NextRow {
    /// Its MAC address, its port, and the moment (ms) at which it ends.
    pub row: (Mac, Port, Moment),
    /// The place behind it among the stations that are kept.
    pub behind: usize,
}

impl Fdb {
    /// No station. It takes all its memory here, for 256 stations of each of 16 ports.
    pub fn make(alloc: Global) -> Result<Fdb, AllocError>
        ensures { IfOk result (λ fdb. fdb ≡ []) }
    {
        Ok(Fdb {
            kept: Kept::make(alloc)?,
            full: Full::nowhere(),
        })
    }

    /// Learns at moment `t` (ms, at most 2^62) that a frame from `mac` came in at port `p`: a station that is live there is
    /// live anew; else it is now there, where the port has fewer than 256 live stations; else no live station has changed.
    ///
    /// O(log n) for a station that is live there, and at a port of 256 stations before the moment at which, as far as is
    /// remembered, the first of them may end. Else the port's own 256 slots at most are gone over, from behind the one that
    /// was found last and round, for an empty one or one whose station has ended. A station that is taken in moves, by one
    /// place in the order, those of higher MAC addresses, or those between it and the ended one whose place it takes: 10
    /// octets of each. One that leaves another port is taken out of the order first. No call goes over all stations in any
    /// other way.
    pub fn learn(&mut self, mac: Mac, p: Port, t: Moment)
        requires { t ≤ 2 ^ 62 }
        ensures learned { live_at t self.new ≡ learned (station_of mac p t) (live_at t self.old) }
        ensures limits { IsWithinLimits self.new }
    {
        let station = Station {
            mac,
            port: p,
            last: t,
        };
        if !renew(&mut self.kept, &mut self.full, station) {
            admit(&mut self.kept, &mut self.full, station);
        }
    }

    /// The port of the station with this MAC address that is live at moment `t` (ms): None exactly where none is.
    /// O(log n).
    pub fn place(&self, mac: Mac, t: Moment) -> Option<Port>
        ensures { result ≡ learned_port mac (live_at t self.now) }
    {
        match self.kept.search(mac) {
            Ok(at) => {
                let station = self.kept.at(at);
                if station.is_live(t) {
                    Some(station.port)
                } else {
                    None
                }
            }
            Err(_) => None,
        }
    }

    /// The next of the stations that are live at moment `t` (ms), in order of MAC address: the first one at place `from` of
    /// the stations that are kept, or behind it. None exactly where none is left. From place 0 on, and then from the place
    /// behind each row, all live stations come in order, each once. O(1) beside the stations passed over, which have ended:
    /// O(n) for all of them together.
    pub fn next_row(&self, from: usize, t: Moment) -> Option<NextRow>
        ensures rows { MatchOption result (rows_from t from self.now ≡ []) (λ next. rows_from t from self.now ≡ next.row ∷ rows_from t next.behind self.now) }
        ensures behind { IfSome result (λ next. (from < next.behind) × (next.behind ≤ length self.now)) }
        ensures limits { IsWithinLimits self.now }
    {
        match live_from(&self.kept, from, t) {
            Some((station, behind)) => Some(NextRow {
                row: (station.mac, station.port, station.end()),
                behind,
            }),
            None => None,
        }
    }

    /// The next of the stations that are live at moment `t` (ms) at place `from` or behind it, as `next_row` finds it, and the
    /// place behind it. O(1) beside the stations passed over.
    pub fn next_station(&self, from: usize, t: Moment) -> Option<(Station, usize)>
        ensures live { MatchOption result (live_at t (drop from self.now) ≡ []) (λ found. live_at t (drop from self.now) ≡ found.0 ∷ live_at t (drop found.1 self.now)) }
        ensures behind { IfSome result (λ found. (from < found.1) × (found.1 ≤ length self.now)) }
        ensures limits { IsWithinLimits self.now }
    {
        live_from(&self.kept, from, t)
    }

    /// The `i`-th of the stations that are live at moment `t` (ms), in order of MAC address, from 0, with its port and the
    /// moment (ms) at which it ends: None exactly past the last one. O(n).
    pub fn row(&self, i: u32, t: Moment) -> Option<(Mac, Port, Moment)>
        ensures row { result ≡ option_map station_told (slice_get (live_at t self.now) i) }
        ensures limits { IsWithinLimits self.now }
    {
        match nth_live(&self.kept, i, t) {
            Some(station) => Some((station.mac, station.port, station.end())),
            None => None,
        }
    }
}

// The first station at a place or behind it that is live at t, and the place behind that station.
fn live_from(kept: &Kept, from: usize, t: Moment) -> Option<(Station, usize)>
    requires { Keeps kept.now }
    ensures live { MatchOption result (live_at t (drop from (listed kept.now)) ≡ []) (λ found. live_at t (drop from (listed kept.now)) ≡ found.0 ∷ live_at t (drop found.1 (listed kept.now))) }
    ensures behind { IfSome result (λ found. (from < found.1) × (found.1 ≤ length (listed kept.now))) }
{
    for at in from..kept.len() {
        let station = kept.at(at);
        if station.is_live(t) {
            return Some((station, at + 1));
        }
    }
    None
}

// The i-th of the stations that are live at t.
fn nth_live(kept: &Kept, i: u32, t: Moment) -> Option<Station>
    requires { Keeps kept.now }
    ensures { result ≡ slice_get (live_at t (listed kept.now)) i }
{
    let mut left = i;
    for at in 0..kept.len() {
        let station = kept.at(at);
        if station.is_live(t) {
            if left == 0 {
                return Some(station);
            }
            left -= 1;
        }
    }
    None
}

// Whether this station is live at its port, which is then renewed.
fn renew(kept: &mut Kept, full: &mut Full, station: Station) -> bool
    requires kept { Keeps kept.old }
    requires limits { IsWithinLimits (listed kept.old) }
    requires full { TellsFull full.old (listed kept.old) }
    requires moment { station.last ≤ 2 ^ 62 }
    ensures known { result ≡ is_known station (live_at station.last (listed kept.old)) }
    ensures renewed { OnTrue result (listed kept.new ≡ with_station station (listed kept.old)) }
    ensures unchanged { OnFalse result (listed kept.new ≡ listed kept.old) }
    ensures kept { Keeps kept.new }
    ensures limits { IsWithinLimits (listed kept.new) }
    ensures full { TellsFull full.new (listed kept.new) }
{
    match kept.search(station.mac) {
        Ok(at) => {
            let old = kept.at(at);
            if old.is_renewed_by(station) {
                kept.renew(at, station);
                full.see(station.port, station.last);
                true
            } else {
                false
            }
        }
        Err(_) => false,
    }
}

// Learns a station that isn't live at its port: it is now there, where the port has fewer than 256 live stations. Not
// inlined, so that `learn` itself is short enough to be.
#[inline(never)]
fn admit(kept: &mut Kept, full: &mut Full, station: Station)
    requires kept { Keeps kept.old }
    requires limits { IsWithinLimits (listed kept.old) }
    requires full { TellsFull full.old (listed kept.old) }
    requires moment { station.last ≤ 2 ^ 62 }
    requires unknown { is_known station (live_at station.last (listed kept.old)) ≡ false }
    ensures learned { live_at station.last (listed kept.new) ≡ learned station (live_at station.last (listed kept.old)) }
    ensures kept { Keeps kept.new }
    ensures limits { IsWithinLimits (listed kept.new) }
    ensures full { TellsFull full.new (listed kept.new) }
{
    if station.last < full.until(station.port) {
        return;
    }
    match kept.find_free(station.port, full.begin(station.port), station.last) {
        Ok(slot) => {
            put(kept, full, slot, station);
            full.begin_behind(station.port, slot);
        }
        Err(end) => full.set(station.port, end),
    }
}

// Gives up the station with this MAC address, if one is kept.
fn give_up(kept: &mut Kept, full: &mut Full, mac: Mac)
    requires kept { Keeps kept.old }
    requires limits { IsWithinLimits (listed kept.old) }
    requires full { TellsFull full.old (listed kept.old) }
    ensures listed { listed kept.new ≡ without (mac_number mac) (listed kept.old) }
    ensures slots { (slot : ℕ) (station : Station) → in_slot kept.new.stations.items slot ≡ Some station → (in_slot kept.old.stations.items slot ≡ Some station) × (is_of (mac_number mac) station ≡ false) }
    ensures kept { Keeps kept.new }
    ensures limits { IsWithinLimits (listed kept.new) }
    ensures full { TellsFull full.new (listed kept.new) }
{
    match kept.search(mac) {
        Ok(at) => {
            let old = kept.at(at);
            kept.remove(at);
            full.set(old.port, 0);
        }
        Err(_) => {}
    }
}

// Puts a station into a slot of its port that has no live one.
fn put(kept: &mut Kept, full: &mut Full, slot: usize, station: Station)
    requires kept { Keeps kept.old }
    requires limits { IsWithinLimits (listed kept.old) }
    requires full { TellsFull full.old (listed kept.old) }
    requires moment { station.last ≤ 2 ^ 62 }
    requires free { IsFree kept.old.stations.items (number_of station.port) station.last slot }
    ensures live { live_at station.last (listed kept.new) ≡ with_station station (live_at station.last (listed kept.old)) }
    ensures kept { Keeps kept.new }
    ensures limits { IsWithinLimits (listed kept.new) }
    ensures full { TellsFull full.new (listed kept.new) }
{
    give_up(kept, full, station.mac);
    match kept.stations[slot] {
        Some(ended) => exchange(kept, full, slot, ended, station),
        None => add(kept, full, slot, station),
    }
}

// Puts a station whose MAC address none has in place of one of its port that has ended.
fn exchange(kept: &mut Kept, full: &mut Full, slot: usize, ended: Station, station: Station)
    requires kept { Keeps kept.old }
    requires limits { IsWithinLimits (listed kept.old) }
    requires full { TellsFull full.old (listed kept.old) }
    requires moment { station.last ≤ 2 ^ 62 }
    requires unknown { find (is_of (mac_number station.mac)) (listed kept.old) ≡ None }
    requires there { in_slot kept.old.stations.items slot ≡ Some ended }
    requires place { IsSlotOf (number_of station.port) slot }
    requires ended { is_live station.last ended ≡ false }
    ensures live { live_at station.last (listed kept.new) ≡ with_station station (live_at station.last (listed kept.old)) }
    ensures kept { Keeps kept.new }
    ensures limits { IsWithinLimits (listed kept.new) }
    ensures full { TellsFull full.new (listed kept.new) }
{
    let Ok(gone) = kept.search(ended.mac) else {
        unreachable!()
    };
    let Err(at) = kept.search(station.mac) else {
        unreachable!()
    };
    kept.exchange(gone, at, station);
    full.set(station.port, 0);
}

// Puts a station whose MAC address none has into an empty slot of its port.
fn add(kept: &mut Kept, full: &Full, slot: usize, station: Station)
    requires kept { Keeps kept.old }
    requires limits { IsWithinLimits (listed kept.old) }
    requires full { TellsFull full.now (listed kept.old) }
    requires moment { station.last ≤ 2 ^ 62 }
    requires unknown { find (is_of (mac_number station.mac)) (listed kept.old) ≡ None }
    requires empty { in_slot kept.old.stations.items slot ≡ None }
    requires place { IsSlotOf (number_of station.port) slot }
    ensures live { live_at station.last (listed kept.new) ≡ with_station station (live_at station.last (listed kept.old)) }
    ensures kept { Keeps kept.new }
    ensures limits { IsWithinLimits (listed kept.new) }
    ensures full { TellsFull full.now (listed kept.new) }
{
    match kept.search(station.mac) {
        Ok(_) => unreachable!(),
        Err(at) => kept.insert(at, slot, station),
    }
}
