//! The buckets: rows in a slab, those of a bucket linked by a ring.

ghost use Rattle.std.specs.Prelude.{◌≡◌, ◌≢◌, ◌≤◌, ◌<◌, ◌+◌, ◌^◌, ℕ, None, Some, IsSome, slice_index};
ghost use Rattle.slab.specs.Slab.{Updates, HasRoomFor, slab_len};
ghost use Rattle.timer_wheel.specs.Rows.{armed_at, others_than};
ghost use Rattle.timer_wheel.specs.Rings.{node_row as row_of_node, slice_of, bucket_of, sooner_of, is_in as is_in_slice};
ghost use Rattle.timer_wheel.specs.Kept.{IsWired, HasRow, IsEarly};
ghost use Rattle.timer_wheel.specs.Searches.{GoesBehind, LeastOf};
ghost use Rattle.timer_wheel.specs.declared.armed.Armed.{Armed};

use crate::armed::Armed;
use crate::rings::{Gap, Rings};
use crate::timer::Timer;
use slab::Slab;

/// How many buckets there are, one for each slice of 64 ms: a turn of them is 65,536 ms.
pub(crate) const BUCKETS: u32 = 1024;

// What a search by slices came to.
#[derive(Clone, Copy)]
pub(crate) struct Found {
    // No row is due in an earlier slice.
    pub(crate) cursor: u64,
    // The least of the rows that are due in the slices that were asked for. Where there is none it is a later row, or None.
    pub(crate) least: Option<Armed>,
}

// The row of a node, or None at an end.
#[inline(always)]
fn row_of(rows: &Slab<Timer>, node: u32) -> Option<Armed>
    ensures { result ≡ row_of_node rows.now.slots node }
{
    if node < BUCKETS {
        None
    } else {
        match rows.get((node - BUCKETS) as usize) {
            Some(row) => Some(row.armed()),
            None => None,
        }
    }
}

// The gap into which a pair belongs among the rows of other addresses, where these alone are linked. It goes back from the
// end of the pair's bucket over the rows that are due later.
#[inline(always)]
fn gap_for(rows: &Slab<Timer>, rings: &Rings, armed: Armed) -> Gap
    requires wired { IsWired (others_than armed.address.0 rows.now) rings.now.later.items rings.now.earlier.items }
    requires fits { armed.address.0 < 2 ^ 128 }
    ensures before { GoesBehind (others_than armed.address.0 rows.now).slots rings.now.later.items armed result.before }
    ensures behind { result.behind ≡ slice_index rings.now.later.items result.before }
{
    let mut behind = (armed.slice() % u64::from(BUCKETS)) as u32;
    let mut before = rings.earlier[behind as usize];
    while let Some(row) = row_of(rows, before) {
        if row.is_before(armed) {
            break;
        }
        behind = before;
        before = rings.earlier[behind as usize];
    }
    Gap { before, behind }
}

// The least row of a bucket.
fn first_of(rows: &Slab<Timer>, rings: &Rings, bucket: u64) -> Option<Armed>
    requires wired { IsWired rows.now rings.now.later.items rings.now.earlier.items }
    requires bucket { bucket < 1024 }
    ensures { LeastOf rows.now.slots (λ armed. bucket_of armed ≡ bucket) result }
{
    row_of(rows, rings.later[bucket as usize])
}

// Which of two is due sooner, or of a lower address at the same moment, where there are any.
fn sooner(first: Option<Armed>, other: Option<Armed>) -> Option<Armed>
    ensures { result ≡ sooner_of first other }
{
    match (first, other) {
        (Some(x), Some(y)) if !y.is_before(x) => Some(x),
        (Some(x), None) => Some(x),
        (_, other) => other,
    }
}

// Whether there is one that is due in this slice.
fn is_in(armed: Option<Armed>, slice: u64) -> bool
    ensures { result ≡ is_in_slice slice armed }
{
    match armed {
        Some(armed) => armed.slice() == slice,
        None => false,
    }
}

// The least row, found by the slices from this one on until one in which a row is due, or the last one that is asked for.
// It looks at each bucket at most once.
pub(crate) fn seek(rows: &Slab<Timer>, rings: &Rings, from: u64, last: u64) -> Found
    requires wired { IsWired rows.now rings.now.later.items rings.now.earlier.items }
    requires early { IsEarly rows.now.slots from }
    requires from_fits { from ≤ 2 ^ 58 }
    requires last_fits { last < 2 ^ 58 }
    ensures early { IsEarly rows.now.slots result.cursor }
    ensures fits { result.cursor ≤ 2 ^ 58 }
    ensures least { LeastOf rows.now.slots (λ armed. slice_of armed ≤ last) result.least }
{
    let mut least = None;
    for step in 0..u64::from(BUCKETS) {
        let slice = from + step;
        if slice > last {
            return Found {
                cursor: slice,
                least,
            };
        }
        let first = first_of(rows, rings, slice % u64::from(BUCKETS));
        if is_in(first, slice) {
            return Found {
                cursor: slice,
                least: first,
            };
        }
        least = sooner(first, least);
    }
    // A whole turn was looked at, so that this is the least of all rows.
    let cursor = match least {
        Some(armed) => armed.slice(),
        None => last,
    };
    Found { cursor, least }
}

// Puts a row in whose address none has: its key.
#[inline(never)]
pub(crate) fn put_in(rows: &mut Slab<Timer>, rings: &mut Rings, armed: Armed) -> u32
    requires wired { IsWired rows.old rings.old.later.items rings.old.earlier.items }
    requires fits { armed.address.0 < 2 ^ 128 }
    requires absent { (key : ℕ) (row : Armed) → armed_at rows.old.slots key ≡ Some row → row.address.0 ≢ armed.address.0 }
    requires room { HasRoomFor rows.old 1 }
    ensures wired { IsWired rows.new rings.new.later.items rings.new.earlier.items }
    ensures key { result ≡ rows.old.vacant_key }
    ensures vacant { armed_at rows.old.slots result ≡ None }
    ensures updates { Updates rows.old rows.new result (Some armed) }
    ensures len { slab_len rows.new ≡ slab_len rows.old + 1 }
    ensures capacity { rows.new.capacity ≡ rows.old.capacity }
{
    let gap = gap_for(rows, rings, armed);
    let key = rows.insert_reserved(Timer::of(armed)) as u32;
    rings.link(BUCKETS + key, gap);
    key
}

// Takes the row under a key out. The key is the next one.
pub(crate) fn take_out(rows: &mut Slab<Timer>, rings: &mut Rings, key: u32)
    requires wired { IsWired rows.old rings.old.later.items rings.old.earlier.items }
    requires there { IsSome (armed_at rows.old.slots key) }
    ensures wired { IsWired rows.new rings.new.later.items rings.new.earlier.items }
    ensures next { rows.new.vacant_key ≡ key }
    ensures updates { Updates rows.old rows.new key None }
    ensures len { slab_len rows.new + 1 ≡ slab_len rows.old }
    ensures capacity { rows.new.capacity ≡ rows.old.capacity }
    ensures room { HasRoomFor rows.new 1 }
{
    rings.unlink(BUCKETS + key);
    rows.try_remove(key as usize);
}

// Gives the row under a key another moment. It stays under its key, and moves to its place in the order.
#[inline(always)]
pub(crate) fn renew(rows: &mut Slab<Timer>, rings: &mut Rings, key: u32, armed: Armed)
    requires wired { IsWired rows.old rings.old.later.items rings.old.earlier.items }
    requires fits { armed.address.0 < 2 ^ 128 }
    requires there { HasRow rows.old.slots key armed.address.0 }
    requires alone { (other : ℕ) (row : Armed) → armed_at rows.old.slots other ≡ Some row → row.address.0 ≡ armed.address.0 → other ≡ key }
    ensures wired { IsWired rows.new rings.new.later.items rings.new.earlier.items }
    ensures updates { Updates rows.old rows.new key (Some armed) }
    ensures len { slab_len rows.new ≡ slab_len rows.old }
    ensures capacity { rows.new.capacity ≡ rows.old.capacity }
{
    rings.unlink(BUCKETS + key);
    let gap = gap_for(rows, rings, armed);
    postpone(rows, key, armed);
    rings.link(BUCKETS + key, gap);
}

// Gives the row under a key, which has the address of a pair, the pair's moment. O(1).
#[inline(always)]
fn postpone(rows: &mut Slab<Timer>, key: u32, armed: Armed)
    requires { HasRow rows.old.slots key armed.address.0 }
    ensures updates { Updates rows.old rows.new key (Some armed) }
    ensures len { slab_len rows.new ≡ slab_len rows.old }
    ensures capacity { rows.new.capacity ≡ rows.old.capacity }
{
    match rows.get_mut(key as usize) {
        Some(row) => row.set_due(armed.due),
        None => unreachable!(),
    }
}
