//! Calls of a table of bindings and of a plain list, in a stated order: rows are put, put anew, taken away and put again.

ghost use Rattle.std.specs.Prelude.{◌≡◌, ◌<◌, true};
ghost use Rattle.mix_rules.specs.States.{has_state};

use crate::keys::address;
use crate::plain_rows::PlainRows;
use bind_table::BindTable;
use dhcp_states::Bound;
use fcfs_states::Fcfs;
use mix_rules::AddrState;
use savi_kinds::{Addr, PORTS_MOST, Port};
use std::alloc::{AllocError, Global};

/// As many addresses as 16 ports hold with 64 each.
const ROWS: u32 = 1_024;

/// Each address is put; then each is put anew with another state, in another order; then each is taken away in that order,
/// and once more when it is no longer there; and then each is put again, in a third order.
pub const CALLS: u32 = 5 * ROWS;

/// After so many calls all rows are compared: half of them stand where addresses are being taken away.
const HALF: u32 = ROWS / 2;

/// From an address that is put anew or taken away to the next one: odd, so that each has its turn.
const STEP: u32 = 389;

// The ports in turn.
fn port(n: u32) -> Port {
    match Port::new((n % PORTS_MOST as u32) as u8 + 1) {
        Some(port) => port,
        None => unreachable!(),
    }
}

// The n-th state: those of each method, of both, and of a fixed address.
fn state(n: u32) -> AddrState
    ensures { has_state result ≡ true }
{
    let (p, q, until) = (port(n), port(n / 7), 1_000 + u64::from(n));
    let valid = Fcfs::Valid { p, until };
    let dhcp = Some(Bound { p, until: None });
    match n % 5 {
        0 => of(valid),
        1 => of(Fcfs::TestVp {
            p,
            q,
            since: until,
            two: true,
        }),
        2 => AddrState {
            fixed: None,
            fcfs: valid,
            dhcp,
        },
        3 => AddrState {
            fixed: None,
            fcfs: Fcfs::NoBind,
            dhcp,
        },
        _ => AddrState {
            fixed: Some(q),
            fcfs: Fcfs::NoBind,
            dhcp: None,
        },
    }
}

// A state by first come alone.
fn of(fcfs: Fcfs) -> AddrState
    ensures { result ≡ record { fixed = None; fcfs = fcfs; dhcp = None } }
{
    AddrState {
        fixed: None,
        fcfs,
        dhcp: None,
    }
}

/// Makes the calls, and gives how many of the first ones leave both alike.
pub fn count_alike(alloc: Global) -> Result<u32, AllocError> {
    let mut table = BindTable::make(alloc, ROWS)?;
    let mut plain = PlainRows::make(alloc);
    for n in 0..CALLS {
        call(&mut table, &mut plain, n)?;
        let is_half = n % HALF == HALF - 1;
        if !is_alike(&table, &plain, n) || is_half && !has_alike_rows(&table, &plain) {
            return Ok(n);
        }
    }
    Ok(CALLS)
}

// The address of the n-th call.
fn called(n: u32) -> Addr
    requires { n < CALLS }
{
    match n / ROWS {
        0 => address(n),
        1 => address(STEP * n % ROWS),
        2 | 3 => address(STEP * (n / 2) % ROWS),
        _ => address(CALLS - 1 - n),
    }
}

// Makes the n-th call of both.
fn call(table: &mut BindTable, plain: &mut PlainRows, n: u32) -> Result<(), AllocError>
    requires most { table.old.most ≡ ROWS }
    requires few { n < CALLS }
    ensures { table.new.most ≡ ROWS }
{
    let a = called(n);
    if n / ROWS == 2 || n / ROWS == 3 {
        table.remove(a);
        plain.remove(a);
    } else if !table.get(a).is_none() || table.size() < ROWS {
        table.put(a, state(n));
        plain.put(a, state(n))?;
    }
    Ok(())
}

// Whether both have as many rows, at two ports too, and the same states of the address of the n-th call and of another one.
fn is_alike(table: &BindTable, plain: &PlainRows, n: u32) -> bool
    requires { n < CALLS }
{
    let (own, other) = (called(n), address((n / 3) % ROWS));
    table.size() as usize == plain.size()
        && table.count(port(n)) as usize == plain.count(port(n))
        && table.count(port(n / 7)) as usize == plain.count(port(n / 7))
        && table.get(own) == plain.get(own)
        && table.get(other) == plain.get(other)
}

// Whether the table has the rows of the list, in order of address, and no more.
fn has_alike_rows(table: &BindTable, plain: &PlainRows) -> bool {
    for i in 0..table.size() {
        if !is_row(table, plain, i) {
            return false;
        }
    }
    table.row(table.size()).is_none()
}

// Whether the i-th row of the table is the one of the list with so many rows of lower addresses.
fn is_row(table: &BindTable, plain: &PlainRows, i: u32) -> bool {
    match table.row(i) {
        Some((a, state)) => plain.count_lower(a) == i as usize && plain.get(a) == state,
        None => false,
    }
}
