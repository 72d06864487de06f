//! What the calls take.

ghost use Rattle.std.specs.Prelude.{◌≡◌, ◌≤◌, ◌*◌, IfOk};

use crate::bindings::{bound_until, count_bound, renew_all};
use crate::keys::{address, asked_addresses};
use crate::wheel_turns::{LIFE_MS, arm_all, armed_wheel};
use addr_index::AddrIndex;
use bind_table::BindTable;
use mix_rules::AddrState;
use std::alloc::{AllocError, Global};
use std::collections::{BTreeMap, HashMap};
use std::io;
use std::time::{CpuClock, Duration};

/// All addresses are asked for so many times.
const ROUNDS: u64 = 2_000;

/// A kind of call, how many were made, and the processor's time. The answers go into a number, since calls whose answers
/// nothing wants need not be made.
#[derive(Clone, Copy)]
pub struct Timed {
    pub name: &'static str,
    pub calls: u64,
    pub took: Duration,
    pub answers: u64,
}

// Each of so many addresses was asked for in each round.
fn in_rounds(name: &'static str, addresses: u32, took: Duration, answers: u64) -> Timed {
    Timed {
        name,
        calls: ROUNDS * u64::from(addresses),
        took,
        answers,
    }
}

/// The walk through the addresses alone, which is in the times of the others.
pub fn walk<R: CpuClock>(rt: &R, alloc: Global, addresses: u32) -> io::Result<Timed>
    requires { 1 ≤ addresses }
{
    let asked = asked_addresses(alloc, addresses)?;
    let start = rt.thread_cpu_time()?;
    let mut answers = 0u64;
    for round in 0..ROUNDS {
        for a in &asked {
            answers = answers.wrapping_add(round ^ (a.0 % (1 << 64)) as u64);
        }
    }
    let took = rt.thread_cpu_time()?.saturating_sub(start);
    Ok(in_rounds("walk", addresses, took, answers))
}

fn hash_map(alloc: Global, addresses: u32) -> Result<HashMap<u128, AddrState>, AllocError> {
    let mut map = HashMap::new(alloc);
    for n in 0..addresses {
        map.insert(address(n).0, bound_until(0))?;
    }
    Ok(map)
}

fn btree_map(alloc: Global, addresses: u32) -> Result<BTreeMap<u128, AddrState>, AllocError> {
    let mut map = BTreeMap::new(alloc);
    for n in 0..addresses {
        map.insert(address(n).0, bound_until(0))?;
    }
    Ok(map)
}

// The addresses' numbers.
fn index(alloc: Global, addresses: u32) -> Result<AddrIndex, AllocError>
    requires some { 1 ≤ addresses }
    requires limit { addresses ≤ 1024 }
{
    let mut index = AddrIndex::make(alloc, addresses)?;
    for n in 0..addresses {
        let a = address(n);
        if index.get(a).is_none() {
            index.insert(a, n);
        }
    }
    Ok(index)
}

// With room for as many again.
fn table(alloc: Global, addresses: u32) -> Result<BindTable, AllocError>
    requires { addresses ≤ 1024 }
    ensures { IfOk result (λ table. table.most ≡ 2 * addresses) }
{
    let mut table = BindTable::make(alloc, 2 * addresses)?;
    for n in 0..addresses {
        if table.size() < addresses {
            table.put(address(n), bound_until(0));
        }
    }
    Ok(table)
}

/// The readings of the clock that are in the times of `wheel_arm`: two a round.
pub fn clock<R: CpuClock>(rt: &R, addresses: u32) -> io::Result<Timed> {
    let mut took = Duration::ZERO;
    for _ in 0..ROUNDS {
        let start = rt.thread_cpu_time()?;
        took = took.saturating_add(rt.thread_cpu_time()?.saturating_sub(start));
    }
    Ok(in_rounds("clock", addresses, took, 0))
}

/// `get` of std's `HashMap`: whether it has the key.
pub fn hash_map_get<R: CpuClock>(rt: &R, alloc: Global, addresses: u32) -> io::Result<Timed>
    requires { 1 ≤ addresses }
{
    let map = hash_map(alloc, addresses)?;
    let asked = asked_addresses(alloc, addresses)?;
    let start = rt.thread_cpu_time()?;
    let mut answers = 0u64;
    for _ in 0..ROUNDS {
        for a in &asked {
            answers = answers.wrapping_add(u64::from(map.get(&a.0).is_some()));
        }
    }
    let took = rt.thread_cpu_time()?.saturating_sub(start);
    Ok(in_rounds("hash_map_get", addresses, took, answers))
}

/// `get` of std's `HashMap`, and whether what it gives is a state, as `bind_table_get` asks.
pub fn hash_map_state<R: CpuClock>(rt: &R, alloc: Global, addresses: u32) -> io::Result<Timed>
    requires { 1 ≤ addresses }
{
    let map = hash_map(alloc, addresses)?;
    let asked = asked_addresses(alloc, addresses)?;
    let start = rt.thread_cpu_time()?;
    let mut answers = 0u64;
    for _ in 0..ROUNDS {
        for a in &asked {
            let state = map.get(&a.0).copied().unwrap_or(AddrState::none());
            answers = answers.wrapping_add(u64::from(!state.is_none()));
        }
    }
    let took = rt.thread_cpu_time()?.saturating_sub(start);
    Ok(in_rounds("hash_map_state", addresses, took, answers))
}

/// `get` of std's `BTreeMap`: whether it has the key.
pub fn btree_map_get<R: CpuClock>(rt: &R, alloc: Global, addresses: u32) -> io::Result<Timed>
    requires { 1 ≤ addresses }
{
    let map = btree_map(alloc, addresses)?;
    let asked = asked_addresses(alloc, addresses)?;
    let start = rt.thread_cpu_time()?;
    let mut answers = 0u64;
    for _ in 0..ROUNDS {
        for a in &asked {
            answers = answers.wrapping_add(u64::from(map.get(&a.0).is_some()));
        }
    }
    let took = rt.thread_cpu_time()?.saturating_sub(start);
    Ok(in_rounds("btree_map_get", addresses, took, answers))
}

/// `AddrIndex::get`.
pub fn index_get<R: CpuClock>(rt: &R, alloc: Global, addresses: u32) -> io::Result<Timed>
    requires some { 1 ≤ addresses }
    requires limit { addresses ≤ 1024 }
{
    let index = index(alloc, addresses)?;
    let asked = asked_addresses(alloc, addresses)?;
    let start = rt.thread_cpu_time()?;
    let mut answers = 0u64;
    for _ in 0..ROUNDS {
        for a in &asked {
            answers = answers.wrapping_add(u64::from(index.get(*a).unwrap_or(0)));
        }
    }
    let took = rt.thread_cpu_time()?.saturating_sub(start);
    Ok(in_rounds("index_get", addresses, took, answers))
}

/// `BindTable::get`.
pub fn bind_table_get<R: CpuClock>(rt: &R, alloc: Global, addresses: u32) -> io::Result<Timed>
    requires some { 1 ≤ addresses }
    requires limit { addresses ≤ 1024 }
{
    let table = table(alloc, addresses)?;
    let asked = asked_addresses(alloc, addresses)?;
    let start = rt.thread_cpu_time()?;
    let mut answers = 0u64;
    for _ in 0..ROUNDS {
        answers = answers.wrapping_add(count_bound(&table, asked.as_slice()));
    }
    let took = rt.thread_cpu_time()?.saturating_sub(start);
    Ok(in_rounds("bind_table_get", addresses, took, answers))
}

/// `insert` of std's `HashMap` at keys that it has.
pub fn hash_map_put<R: CpuClock>(rt: &R, alloc: Global, addresses: u32) -> io::Result<Timed>
    requires { 1 ≤ addresses }
{
    let mut map = hash_map(alloc, addresses)?;
    let asked = asked_addresses(alloc, addresses)?;
    let start = rt.thread_cpu_time()?;
    let mut answers = 0u64;
    for round in 0..ROUNDS {
        for a in &asked {
            let before = map.insert(a.0, bound_until(round))?;
            answers = answers.wrapping_add(u64::from(before.is_some()));
        }
    }
    let took = rt.thread_cpu_time()?.saturating_sub(start);
    Ok(in_rounds("hash_map_put", addresses, took, answers))
}

/// `insert` of std's `BTreeMap` at keys that it has.
pub fn btree_map_put<R: CpuClock>(rt: &R, alloc: Global, addresses: u32) -> io::Result<Timed>
    requires { 1 ≤ addresses }
{
    let mut map = btree_map(alloc, addresses)?;
    let asked = asked_addresses(alloc, addresses)?;
    let start = rt.thread_cpu_time()?;
    let mut answers = 0u64;
    for round in 0..ROUNDS {
        for a in &asked {
            let before = map.insert(a.0, bound_until(round))?;
            answers = answers.wrapping_add(u64::from(before.is_some()));
        }
    }
    let took = rt.thread_cpu_time()?.saturating_sub(start);
    Ok(in_rounds("btree_map_put", addresses, took, answers))
}

/// `BindTable::put` of addresses that have a state.
pub fn bind_table_put<R: CpuClock>(rt: &R, alloc: Global, addresses: u32) -> io::Result<Timed>
    requires some { 1 ≤ addresses }
    requires limit { addresses ≤ 1024 }
{
    let mut table = table(alloc, addresses)?;
    let asked = asked_addresses(alloc, addresses)?;
    let start = rt.thread_cpu_time()?;
    let mut answers = 0u64;
    for round in 0..ROUNDS {
        if table.size() <= addresses {
            renew_all(&mut table, asked.as_slice(), bound_until(round));
            answers = answers.wrapping_add(u64::from(table.size()));
        }
    }
    let took = rt.thread_cpu_time()?.saturating_sub(start);
    Ok(in_rounds("bind_table_put", addresses, took, answers))
}

/// `TimerWheel::arm` of addresses for which something is due: each will be due after all others.
pub fn wheel_arm<R: CpuClock>(rt: &R, alloc: Global, addresses: u32) -> io::Result<Timed>
    requires some { 1 ≤ addresses }
    requires limit { addresses ≤ 1024 }
{
    let asked = asked_addresses(alloc, addresses)?;
    let mut took = Duration::ZERO;
    for _ in 0..ROUNDS {
        let mut wheel = armed_wheel(alloc, addresses)?;
        let start = rt.thread_cpu_time()?;
        arm_all(&mut wheel, asked.as_slice(), LIFE_MS + u64::from(addresses));
        took = took.saturating_add(rt.thread_cpu_time()?.saturating_sub(start));
    }
    Ok(in_rounds("wheel_arm", addresses, took, 0))
}

/// `TimerWheel::next_due` with nothing due, as many times a round as there are addresses, and a ms later each round.
pub fn wheel_next_due<R: CpuClock>(rt: &R, alloc: Global, addresses: u32) -> io::Result<Timed>
    requires some { 1 ≤ addresses }
    requires limit { addresses ≤ 1024 }
{
    let mut wheel = armed_wheel(alloc, addresses)?;
    let start = rt.thread_cpu_time()?;
    let mut answers = 0u64;
    for round in 0..ROUNDS {
        for _ in 0..addresses {
            answers = answers.wrapping_add(u64::from(wheel.next_due(round).is_some()));
        }
    }
    let took = rt.thread_cpu_time()?.saturating_sub(start);
    Ok(in_rounds("wheel_next_due", addresses, took, answers))
}
