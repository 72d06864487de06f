//! The routers of a link.

ghost use Rattle.std.specs.Prelude.{◌≡◌, ◌+◌, ◌*◌, ◌<◌, ◌≤◌, ◌++◌, true, flat_map, length, count_by, slice_get, All, vec_capacity};
ghost use Rattle.ra_learn.specs.Printed.{router_line};
ghost use Rattle.ra_learn.specs.Ordered.{IsOrdered, is_other, left_beside, placed};
ghost use Rattle.ra_learn.specs.Tables.{router_before, router_stands, routers_at};

use crate::lines::{push_line, put_router};
use savi_kinds::{Addr, Moment, Port};
use std::alloc::{AllocError, Global};
use std::marker::Model;

/// The most routers that stand.
pub const ROUTERS_MOST: usize = 64;

/// A router: the source of advertisements that passed at a port.
#[derive(Clone, Copy)]
pub struct Router {
    pub source: Addr,
    pub port: Port,
    /// The moment (ms) before which it stands.
    pub until: Moment,
}

impl Router {
    ghost use Rattle.ra_learn.specs.Ordered.{is_other};
    ghost use Rattle.ra_learn.specs.Tables.{router_before, router_stands};

    // Whether it comes before another one.
    fn is_before(&self, other: &Router) -> bool
        ensures { result ≡ router_before self.now other.now }
    {
        self.source.0 < other.source.0
            || self.source.0 == other.source.0 && self.port.get() < other.port.get()
    }

    // Whether it has another key than that one.
    fn is_other(&self, other: &Router) -> bool
        ensures { result ≡ is_other router_before other.now self.now }
    {
        self.is_before(other) || other.is_before(self)
    }

    // Whether it stands at moment t.
    fn stands(&self, t: Moment) -> bool
        ensures { result ≡ router_stands t self.now }
    {
        t < self.until
    }
}

/// The routers that were told, at most 64, in the order of address and port. It takes no memory after its making.
#[derive(Drop)]
pub struct Routers {
    routers: Vec<Router>,
}

impl Model for Routers {
    ghost use Rattle.std.specs.Prelude.{◌≤◌, List, length, vec_capacity};
    ghost use Rattle.ra_learn.specs.declared.routers.Router.{Router};
    ghost use Rattle.ra_learn.specs.Ordered.{IsOrdered};
    ghost use Rattle.ra_learn.specs.Tables.{router_before};

    ghost Value = { List Router };

    ghost view = { λ r. r.routers.items };

    ghost invariant = { λ r. IsOrdered router_before r.routers.items × (length r.routers.items ≤ 64) × (64 ≤ vec_capacity r.routers) };
}

impl Routers {
    ghost use Rattle.std.specs.Prelude.{◌≤◌, [], length, not, slice_get, IfOk};
    ghost use Rattle.std.specs.Option.{option_copied};
    ghost use Rattle.ra_learn.specs.Ordered.{IsOrdered, with_set_entry, is_one_too_many};
    ghost use Rattle.ra_learn.specs.Tables.{router_before, router_stands, routers_at};

    /// No router. It takes all its memory here.
    pub fn make(alloc: Global) -> Result<Routers, AllocError>
        ensures { IfOk result (λ r. r ≡ []) }
    {
        Ok(Routers {
            routers: Vec::with_capacity(alloc, ROUTERS_MOST)?,
        })
    }

    /// Sets a router at moment `t` (ms), in place of the one with its source and port; one that doesn't stand at `t` is
    /// removed. The answer is false exactly where it would stand and finds no place beside 64 others. O(64).
    pub fn set(&mut self, t: Moment, router: Router) -> bool
        ensures entries { self.new ≡ with_set_entry 64 router_before (router_stands t) router self.old }
        ensures room { result ≡ not (is_one_too_many 64 router_before (router_stands t) router self.old) }
    {
        keep_others(&mut self.routers, t, &router);
        if !router.stands(t) {
            return true;
        }
        if self.routers.len() >= ROUTERS_MOST {
            return false;
        }
        place(&mut self.routers, router);
        true
    }

    /// The i-th of the routers that stand at moment `t` (ms), in their order; None exactly past the last. O(64).
    pub fn standing(&self, i: u32, t: Moment) -> Option<Router>
        ensures { result ≡ slice_get (routers_at t self.now) i }
    {
        nth_standing(self.routers.as_slice(), i as usize, t)
    }

    /// Puts the lines of those that stand at moment `t` (ms) behind a text that has room for them. O(64).
    pub fn put_lines(&self, text: &mut Vec<u8>, t: Moment)
        requires { length text.old.items + 6144 ≤ vec_capacity text.old }
        ensures items { text.new.items ≡ text.old.items ++ flat_map router_line (routers_at t self.now) }
        ensures len { length text.new.items ≤ length text.old.items + 6144 }
        ensures capacity { vec_capacity text.old ≤ vec_capacity text.new }
    {
        put_lines(text, self.routers.as_slice(), t);
    }
}

// Puts the lines of those that stand at t.
fn put_lines(text: &mut Vec<u8>, routers: &[Router], t: Moment)
    requires { length text.old.items + 96 * length routers.now ≤ vec_capacity text.old }
    ensures items { text.new.items ≡ text.old.items ++ flat_map router_line (routers_at t routers.now) }
    ensures len { length text.new.items ≤ length text.old.items + 96 * length routers.now }
    ensures capacity { vec_capacity text.old ≤ vec_capacity text.new }
{
    for router in routers {
        if router.stands(t) {
            push_line(text, &put_router(*router));
        }
    }
}

// Keeps those that stand at t, but for the one with this router's key.
fn keep_others(routers: &mut Vec<Router>, t: Moment, router: &Router)
    ensures items { routers.new.items ≡ left_beside router_before (router_stands t) router.now routers.old.items }
    ensures capacity { vec_capacity routers.new ≡ vec_capacity routers.old }
{
    routers.retain(|other| other.stands(t) && other.is_other(router));
}

// Puts one in its place among others, for which there is room.
fn place(routers: &mut Vec<Router>, router: Router)
    requires ordered { IsOrdered router_before routers.old.items }
    requires others { All (λ other. is_other router_before router other ≡ true) routers.old.items }
    requires room { length routers.old.items < vec_capacity routers.old }
    ensures items { routers.new.items ≡ placed router_before router routers.old.items }
    ensures len { length routers.new.items ≡ length routers.old.items + 1 }
    ensures capacity { vec_capacity routers.old ≤ vec_capacity routers.new }
{
    let at = place_of(routers.as_slice(), &router);
    match routers.insert(at, router) {
        Ok(()) => {}
        Err(_) => unreachable!(),
    }
}

// How many of these routers come before this one.
fn place_of(routers: &[Router], router: &Router) -> usize
    ensures { result ≡ count_by (λ other. router_before other router.now) routers.now }
{
    routers
        .iter()
        .filter(|other| other.is_before(router))
        .count()
}

// The i-th of these routers that stand at t.
fn nth_standing(routers: &[Router], i: usize, t: Moment) -> Option<Router>
    ensures { result ≡ slice_get (routers_at t routers.now) i }
{
    let mut left = i;
    for router in routers {
        if router.stands(t) {
            if left == 0 {
                return Some(*router);
            }
            left -= 1;
        }
    }
    None
}
