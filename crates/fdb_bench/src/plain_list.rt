//! The stations as a plain list, in the order in which they were seen last. Each call looks at all of them.

use bridge_fdb::Station;
use savi_kinds::{Mac, Moment, Port};
use std::alloc::{AllocError, Global};

/// A station is live for so many ms (IEEE 802.1Q table 8-6), and a port has at most so many live ones.
const LIFE_MS: u64 = 300_000;

const STATIONS_MOST: usize = 256;

#[derive(Drop)]
pub struct PlainList {
    stations: Vec<Station>,
}

fn end(station: &Station) -> Moment {
    station.last.saturating_add(LIFE_MS)
}

impl PlainList {
    pub fn make(alloc: Global) -> PlainList {
        PlainList {
            stations: Vec::new(alloc),
        }
    }

    /// Learns a station at the moment at which it was seen.
    pub fn learn(&mut self, seen: Station) -> Result<(), AllocError> {
        self.stations.retain(|station| seen.last < end(station));
        if self.is_at(seen.mac, seen.port) || self.count_at(seen.port) < STATIONS_MOST {
            self.stations.retain(|station| station.mac != seen.mac);
            self.stations.push(seen)?;
        }
        Ok(())
    }

    fn is_at(&self, mac: Mac, port: Port) -> bool {
        for station in &self.stations {
            if station.mac == mac && station.port == port {
                return true;
            }
        }
        false
    }

    fn count_at(&self, port: Port) -> usize {
        self.stations
            .iter()
            .filter(|station| station.port == port)
            .count()
    }

    /// The port of the station with this MAC address.
    pub fn place(&self, mac: Mac, t: Moment) -> Option<Port> {
        for station in &self.stations {
            if station.mac == mac && t < end(station) {
                return Some(station.port);
            }
        }
        None
    }

    /// The live station with exactly `i` live ones of lower MAC addresses.
    pub fn row(&self, i: u32, t: Moment) -> Option<(Mac, Port, Moment)> {
        for station in &self.stations {
            if t < end(station) && self.count_lower(station.mac, t) == i as usize {
                return Some((station.mac, station.port, end(station)));
            }
        }
        None
    }

    fn count_lower(&self, mac: Mac, t: Moment) -> usize {
        self.stations
            .iter()
            .filter(|station| station.mac.0 < mac.0 && t < end(station))
            .count()
    }
}
