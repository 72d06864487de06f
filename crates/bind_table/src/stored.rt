//! Rows under their keys, and keys in order.

ghost use Rattle.std.specs.Prelude.{◌≡◌, ◌≤◌, ◌<◌, ◌++◌, ◌∷◌, Some, IsSome, IfOk, take, drop, length, vec_capacity};
ghost use Rattle.slab.specs.Slab.{get, slab_len, Updates};
ghost use Rattle.savi_access.specs.declared.row.Row.{Row};

use mix_rules::AddrState;
use savi_access::Row;
use savi_kinds::PortSet;
use slab::Slab;
use std::alloc::{AllocError, Global};

// The row under a key that has one. O(1).
#[inline(always)]
pub(crate) fn row_under(rows: &Slab<Row>, key: u32) -> &Row
    requires { IsSome (get rows.now key) }
    ensures { get rows.now key ≡ Some result.now }
{
    match rows.get(key as usize) {
        Some(row) => row,
        None => unreachable!(),
    }
}

// Gives the row under a key another state. O(1). It is a call of its own, which copies the state as a whole: laid open where
// it is called, the copy is done part by part, which takes twice as long.
#[inline(never)]
pub(crate) fn renew(rows: &mut Slab<Row>, key: u32, state: &AddrState)
    requires { IsSome (get rows.old key) }
    ensures updates { (row : Row) → get rows.old key ≡ Some row → Updates rows.old rows.new key (Some (record row { state = state.now })) }
    ensures len { slab_len rows.new ≡ slab_len rows.old }
    ensures capacity { rows.new.capacity ≡ rows.old.capacity }
{
    match rows.get_mut(key as usize) {
        Some(row) => row.state = *state,
        None => unreachable!(),
    }
}

// Inserts a key where there is room for it. O(n): it moves those behind it.
#[inline(never)]
pub(crate) fn insert(keys: &mut Vec<u32>, at: usize, key: u32)
    requires place { at ≤ length keys.old.items }
    requires room { length keys.old.items < vec_capacity keys.old }
    ensures items { keys.new.items ≡ take at keys.old.items ++ key ∷ drop at keys.old.items }
    ensures capacity { vec_capacity keys.old ≤ vec_capacity keys.new }
{
    match keys.insert(at, key) {
        Ok(()) => {}
        Err(_) => unreachable!(),
    }
}

// The set without a port, so many times.
pub(crate) fn empty_sets(alloc: Global, count: usize) -> Result<Vec<PortSet>, AllocError>
    ensures { IfOk result (λ sets. length sets.items ≡ count) }
{
    let mut sets = Vec::with_capacity(alloc, count)?;
    for _ in 0..count {
        sets.push(PortSet::empty())?;
    }
    Ok(sets)
}
