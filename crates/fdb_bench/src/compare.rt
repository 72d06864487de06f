//! Calls of `bridge_fdb` and of a plain list, in a stated order.

ghost use Rattle.std.specs.Prelude.{◌<◌};

use crate::keys::{mac, port, stirred};
use crate::plain_list::PlainList;
use bridge_fdb::{Fdb, Station};
use savi_kinds::Moment;
use std::alloc::{AllocError, Global};

/// So many calls are compared.
pub const CALLS: u64 = 100_000;

/// Each call comes in the ms of its own part of so many.
const MS_A_CALL: u64 = 200;

/// More MAC addresses than two ports take.
const MACS: u64 = 700;

/// A kind of call.
#[derive(Clone, Copy, PartialEq, Eq)]
pub enum Call {
    Place,
    Row,
    Learn,
}

// Of four calls one asks where a station is, of 256 one asks for a row, and the others learn.
fn call_of(choice: u64) -> Call {
    match choice >> 56 {
        0..=63 => Call::Place,
        64 => Call::Row,
        _ => Call::Learn,
    }
}

/// How many of the calls are of a kind.
pub fn count_calls(kind: Call) -> usize {
    (0..CALLS).filter(|n| call_of(stirred(*n)) == kind).count()
}

/// Makes the calls, and gives how many of the first ones answer alike.
pub fn count_alike(alloc: Global) -> Result<u64, AllocError> {
    let mut fdb = Fdb::make(alloc)?;
    let mut plain = PlainList::make(alloc);
    for n in 0..CALLS {
        if !is_alike(&mut fdb, &mut plain, n)? {
            return Ok(n);
        }
    }
    Ok(CALLS)
}

// Makes the n-th call of both.
fn is_alike(fdb: &mut Fdb, plain: &mut PlainList, n: u64) -> Result<bool, AllocError>
    requires { n < 100000 }
{
    let choice = stirred(n);
    let t: Moment = MS_A_CALL * n + choice % MS_A_CALL;
    let mac = mac((choice >> 8) % MACS);
    match call_of(choice) {
        Call::Place => Ok(fdb.place(mac, t) == plain.place(mac, t)),
        Call::Row => {
            let i = ((choice >> 8) % MACS) as u32;
            Ok(fdb.row(i, t) == plain.row(i, t))
        }
        Call::Learn => {
            let port = port(choice & 1);
            fdb.learn(mac, port, t);
            plain.learn(Station { mac, port, last: t })?;
            Ok(true)
        }
    }
}
