//! The stations that are kept.

ghost use Rattle.std.specs.Prelude.{◌≡◌, ◌<◌, ◌≤◌, ◌+◌, ◌*◌, ◌-◌, ◌^◌, ◌++◌, ◌∷◌, ℕ, [], None, Some, take, drop, length, IfOk, MatchResult, slice_index_or, vec_capacity};
ghost use Rattle.std.specs.List.{AllWithin, remove};
ghost use Rattle.savi_kinds.specs.Ports.{number_of};
ghost use Rattle.bridge_fdb.specs.Stations.{mac_number, live_at, stations_at, station_number};
ghost use Rattle.bridge_fdb.specs.Learning.{with_station};
ghost use Rattle.savi_kinds.specs.Orders.{IsRising};
ghost use Rattle.bridge_fdb.specs.Places.{IsPlaceOf, StandsAt, BelongsAt};
ghost use Rattle.bridge_fdb.specs.Kept.{Keeps, IsFree, IsOwn, LivesUntil, in_slot, listed};
ghost use Rattle.bridge_fdb.specs.declared.station.Station.{Station};

use crate::number::{count_lower, number};
use crate::station::{ALL_STATIONS_MOST, STATIONS_MOST, Station};
use savi_kinds::{Mac, Moment, Port};
use std::alloc::{AllocError, Global};

// At most 4,096 stations, each in a slot of its port, of which every port has 256: port n those from 256 * (n - 1) on.
// Beside them stand their MAC addresses as numbers in order, and the slot of each. A search reads the numbers alone, and
// a change of the order moves 10 octets a station.
#[derive(Drop)]
pub(crate) struct Kept {
    pub(crate) numbers: Vec<u64>,
    pub(crate) slots: Vec<u16>,
    pub(crate) stations: Vec<Option<Station>>,
}

// The first slot of a port.
fn first_slot(p: Port) -> usize
    ensures value { result ≡ 256 * (number_of p - 1) }
    ensures bound { result + 256 ≤ 4096 }
{
    (usize::from(p.get()) - 1) * STATIONS_MOST
}

impl Kept {
    // No station. It takes all its memory here.
    pub(crate) fn make(alloc: Global) -> Result<Kept, AllocError>
        ensures { IfOk result (λ kept. Keeps kept × (listed kept ≡ [])) }
    {
        let mut stations = Vec::with_capacity(alloc, ALL_STATIONS_MOST)?;
        for _ in 0..ALL_STATIONS_MOST {
            stations.push(None)?;
        }
        Ok(Kept {
            numbers: Vec::with_capacity(alloc, ALL_STATIONS_MOST)?,
            slots: Vec::with_capacity(alloc, ALL_STATIONS_MOST)?,
            stations,
        })
    }

    // How many there are.
    pub(crate) fn len(&self) -> usize
        requires { Keeps self.now }
        ensures { result ≡ length (listed self.now) }
    {
        self.slots.len()
    }

    // The station at this place in order of MAC address.
    pub(crate) fn at(&self, at: usize) -> Station
        requires kept { Keeps self.now }
        requires within { at < length (listed self.now) }
        ensures { result ≡ slice_index_or (listed self.now) at result }
    {
        match self.stations[usize::from(self.slots[at])] {
            Some(station) => station,
            None => unreachable!(),
        }
    }

    // The place of the station with this MAC address, or where it would stand. O(log n).
    pub(crate) fn search(&self, mac: Mac) -> Result<usize, usize>
        requires kept { Keeps self.now }
        requires rising { IsRising station_number (listed self.now) }
        ensures { IsPlaceOf (mac_number mac) (listed self.now) result }
    {
        let wanted = number(mac);
        let numbers = self.numbers.as_slice();
        let at = count_lower(numbers, wanted);
        if at == numbers.len() {
            return Err(at);
        }
        if numbers[at] == wanted {
            Ok(at)
        } else {
            Err(at)
        }
    }

    // Puts a station in place of the one with its MAC address and port, which stands at this place.
    pub(crate) fn renew(&mut self, at: usize, station: Station)
        requires kept { Keeps self.old }
        requires rising { IsRising station_number (listed self.old) }
        requires place { StandsAt (mac_number station.mac) (listed self.old) at }
        requires port { number_of (slice_index_or (listed self.old) at station).port ≡ number_of station.port }
        requires moment { station.last ≤ 2 ^ 62 }
        ensures listed { listed self.new ≡ with_station station (listed self.old) }
        ensures kept { Keeps self.new }
    {
        let slot = usize::from(self.slots[at]);
        self.stations[slot] = Some(station);
    }

    // A slot of a port that has no station that is live at t. Where there is none, the moment until which all of its 256
    // stations are live. It goes over the port's own slots from this one on and round, 256 at most.
    pub(crate) fn find_free(&self, p: Port, from: u8, t: Moment) -> Result<usize, Moment>
        requires kept { Keeps self.now }
        requires moment { t ≤ 2 ^ 62 }
        ensures { MatchResult result (IsFree self.now.stations.items (number_of p) t) (λ end. (t < end) × ((u : ℕ) → u < end → 256 ≤ stations_at (number_of p) (live_at u (listed self.now)))) }
    {
        let first = first_slot(p);
        let middle = first + usize::from(from);
        match self.find_free_within(p, middle, first + STATIONS_MOST, t) {
            Ok(slot) => Ok(slot),
            Err(later) => match self.find_free_within(p, first, middle, t) {
                Ok(slot) => Ok(slot),
                Err(earlier) => Err(earlier.min(later)),
            },
        }
    }

    // A slot of a port between two that has no station that is live at t. Where there is none, the moment until which all of
    // their stations are live. It goes over these slots.
    fn find_free_within(&self, p: Port, from: usize, to: usize, t: Moment) -> Result<usize, Moment>
        requires kept { Keeps self.now }
        requires moment { t ≤ 2 ^ 62 }
        requires first { 256 * (number_of p - 1) ≤ from }
        requires last { to ≤ 256 * number_of p }
        ensures { MatchResult result (IsFree self.now.stations.items (number_of p) t) (λ end. (t < end) × ((slot : ℕ) → from ≤ slot → slot < to → LivesUntil end (in_slot self.now.stations.items slot))) }
    {
        let mut end = Moment::MAX;
        for slot in from..to {
            let Some(station) = self.stations[slot] else {
                return Ok(slot);
            };
            if !station.is_live(t) {
                return Ok(slot);
            }
            end = end.min(station.end());
        }
        Err(end)
    }

    // Gives up the station at this place. O(n): it moves those of higher MAC addresses.
    pub(crate) fn remove(&mut self, at: usize)
        requires kept { Keeps self.old }
        requires rising { IsRising station_number (listed self.old) }
        requires within { at < length (listed self.old) }
        ensures listed { listed self.new ≡ remove (listed self.old) at }
        ensures kept { Keeps self.new }
        ensures slots { (slot : ℕ) (station : Station) → in_slot self.new.stations.items slot ≡ Some station → in_slot self.old.stations.items slot ≡ Some station }
    {
        let slot = self.slots.remove(at);
        self.numbers.remove(at);
        self.stations[usize::from(slot)] = None;
    }

    // Gives up the station at `gone`, and puts one of its port into its slot, whose MAC address none has. O(n): it moves the
    // stations between the two.
    pub(crate) fn exchange(&mut self, gone: usize, at: usize, station: Station)
        requires kept { Keeps self.old }
        requires rising { IsRising station_number (listed self.old) }
        requires within { gone < length (listed self.old) }
        requires place { BelongsAt (mac_number station.mac) (listed self.old) at }
        requires port { number_of (slice_index_or (listed self.old) gone station).port ≡ number_of station.port }
        requires moment { station.last ≤ 2 ^ 62 }
        ensures listed { listed self.new ≡ with_station station (remove (listed self.old) gone) }
        ensures kept { Keeps self.new }
    {
        let at = if gone < at { at - 1 } else { at };
        let slot = self.slots[gone];
        exchange_within(&mut self.numbers, gone, at, number(station.mac));
        exchange_within(&mut self.slots, gone, at, slot);
        self.stations[usize::from(slot)] = Some(station);
    }

    // Puts a station whose MAC address none has into an empty slot of its port. O(n): it moves those of higher MAC
    // addresses.
    pub(crate) fn insert(&mut self, at: usize, slot: usize, station: Station)
        requires kept { Keeps self.old }
        requires place { BelongsAt (mac_number station.mac) (listed self.old) at }
        requires empty { in_slot self.old.stations.items slot ≡ None }
        requires own { IsOwn slot station }
        ensures listed { listed self.new ≡ with_station station (listed self.old) }
        ensures kept { Keeps self.new }
    {
        insert_within(&mut self.numbers, at, number(station.mac));
        insert_within(&mut self.slots, at, slot as u16);
        self.stations[slot] = Some(station);
    }
}

// Takes the value at one place out, and puts another one in: it stands at `at` of the list that is left.
fn exchange_within<T: Copy>(values: &mut Vec<T>, gone: usize, at: usize, value: T)
    requires gone { gone < length values.old.items }
    requires place { at < length values.old.items }
    ensures items { values.new.items ≡ take at (remove values.old.items gone) ++ value ∷ drop at (remove values.old.items gone) }
    ensures capacity { vec_capacity values.new ≡ vec_capacity values.old }
{
    if gone < at {
        values.copy_within(gone + 1..at + 1, gone);
    } else {
        values.copy_within(at..gone, at + 1);
    }
    values[at] = value;
}

// Inserts a value where there is room for it.
fn insert_within<T: Copy>(values: &mut Vec<T>, at: usize, value: T)
    requires place { at ≤ length values.old.items }
    requires room { length values.old.items < vec_capacity values.old }
    ensures items { values.new.items ≡ take at values.old.items ++ value ∷ drop at values.old.items }
    ensures capacity { vec_capacity values.old ≤ vec_capacity values.new }
{
    match values.insert(at, value) {
        Ok(()) => {}
        Err(_) => unreachable!(),
    }
}
