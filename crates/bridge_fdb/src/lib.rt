//! Where each station of a bridge was seen last: its filtering database.
//!
//! Contracts see an `Fdb` as the list of the stations that it keeps, in order of MAC address, and speak of those that are
//! live (`specs/Stations.antt`). Nothing takes memory but `Fdb::make`.
//!
//! IEEE 802.1Q sections 7.8 and 8.7 (learning), 8.8 (the filtering database), 8.8.3 (ageing time).
#![tactic(auto)]

mod fdb;
mod full;
mod kept;
mod laws;
mod number;
mod station;

pub use fdb::{Fdb, NextRow};
pub use laws::{learning_stays_within_limits, stations_age_once};
pub use station::{AGEING_TIME_MS, STATIONS_MOST, Station};
