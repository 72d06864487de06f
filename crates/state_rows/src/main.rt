//! What has a state, over tables of events and calls: addresses, requests, indexes, stations, queues, the lock, and the
//! replies on control that tell of them.
//!
//! The program does nothing; its tests are all of it. Each module has the tests of the crate in its name.
#![tactic(auto)]

#[cfg(test)]
mod addr_index_rows;
#[cfg(test)]
mod addr_table_rows;
#[cfg(test)]
mod bridge_fdb_rows;
#[cfg(test)]
mod control_replies_rows;
#[cfg(test)]
mod dhcp_states_rows;
#[cfg(test)]
mod egress_ring_rows;
#[cfg(test)]
mod fcfs_states_rows;
#[cfg(test)]
mod mix_rules_rows;
#[cfg(test)]
mod plain;
#[cfg(test)]
mod table_lock_rows;

fn main(_rt: HostRuntime) {}
