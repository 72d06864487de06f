//! The prefixes of a link.

ghost use Rattle.std.specs.Prelude.{◌≡◌, ◌+◌, ◌*◌, ◌<◌, ◌≤◌, ◌++◌, true, flat_map, length, count_by, slice_get, All, vec_capacity};
ghost use Rattle.ra_learn.specs.Printed.{link_prefix_line};
ghost use Rattle.ra_learn.specs.Ordered.{IsOrdered, is_other, left_beside, placed};
ghost use Rattle.ra_learn.specs.Tables.{prefix_before, prefix_stands, prefixes_at};

use crate::lines::{push_line, put_prefix};
use savi_kinds::{Moment, Prefix};
use std::alloc::{AllocError, Global};
use std::marker::Model;

/// The most prefixes that stand.
pub const LINK_PREFIXES_MOST: usize = 32;

/// A prefix of the link, which an advertisement that passed named.
#[derive(Clone, Copy)]
pub struct LinkPrefix {
    pub prefix: Prefix,
    /// The moment (ms) before which it stands, or none where it always does.
    pub until: Option<Moment>,
}

impl LinkPrefix {
    ghost use Rattle.ra_learn.specs.Ordered.{is_other};
    ghost use Rattle.ra_learn.specs.Tables.{prefix_before, prefix_stands};

    // Whether it comes before another one.
    fn is_before(&self, other: &LinkPrefix) -> bool
        ensures { result ≡ prefix_before self.now other.now }
    {
        self.prefix.net.0 < other.prefix.net.0
            || self.prefix.net.0 == other.prefix.net.0 && self.prefix.len < other.prefix.len
    }

    // Whether it has another key than that one.
    fn is_other(&self, other: &LinkPrefix) -> bool
        ensures { result ≡ is_other prefix_before other.now self.now }
    {
        self.is_before(other) || other.is_before(self)
    }

    // Whether it stands at moment t.
    fn stands(&self, t: Moment) -> bool
        ensures { result ≡ prefix_stands t self.now }
    {
        match self.until {
            Some(until) => t < until,
            None => true,
        }
    }
}

/// The prefixes that were told, at most 32, in the order of address and length. It takes no memory after its making.
#[derive(Drop)]
pub struct LinkPrefixes {
    prefixes: Vec<LinkPrefix>,
}

impl Model for LinkPrefixes {
    ghost use Rattle.std.specs.Prelude.{◌≤◌, List, length, vec_capacity};
    ghost use Rattle.ra_learn.specs.declared.prefixes.LinkPrefix.{LinkPrefix};
    ghost use Rattle.ra_learn.specs.Ordered.{IsOrdered};
    ghost use Rattle.ra_learn.specs.Tables.{prefix_before};

    ghost Value = { List LinkPrefix };

    ghost view = { λ p. p.prefixes.items };

    ghost invariant = { λ p. IsOrdered prefix_before p.prefixes.items × (length p.prefixes.items ≤ 32) × (32 ≤ vec_capacity p.prefixes) };
}

impl LinkPrefixes {
    ghost use Rattle.std.specs.Prelude.{◌≤◌, [], length, not, slice_get, IfOk};
    ghost use Rattle.std.specs.Option.{option_copied};
    ghost use Rattle.ra_learn.specs.Ordered.{IsOrdered, with_set_entry, is_one_too_many};
    ghost use Rattle.ra_learn.specs.Tables.{prefix_before, prefix_stands, prefixes_at};

    /// No prefix. It takes all its memory here.
    pub fn make(alloc: Global) -> Result<LinkPrefixes, AllocError>
        ensures { IfOk result (λ p. p ≡ []) }
    {
        Ok(LinkPrefixes {
            prefixes: Vec::with_capacity(alloc, LINK_PREFIXES_MOST)?,
        })
    }

    /// Sets a prefix at moment `t` (ms), in place of the one with its prefix; one that doesn't stand at `t` is
    /// removed. The answer is false exactly where it would stand and finds no place beside 32 others. O(32).
    pub fn set(&mut self, t: Moment, prefix: LinkPrefix) -> bool
        ensures entries { self.new ≡ with_set_entry 32 prefix_before (prefix_stands t) prefix self.old }
        ensures room { result ≡ not (is_one_too_many 32 prefix_before (prefix_stands t) prefix self.old) }
    {
        keep_others(&mut self.prefixes, t, &prefix);
        if !prefix.stands(t) {
            return true;
        }
        if self.prefixes.len() >= LINK_PREFIXES_MOST {
            return false;
        }
        place(&mut self.prefixes, prefix);
        true
    }

    /// The i-th of the prefixes that stand at moment `t` (ms), in their order; None exactly past the last. O(32).
    pub fn standing(&self, i: u32, t: Moment) -> Option<LinkPrefix>
        ensures { result ≡ slice_get (prefixes_at t self.now) i }
    {
        nth_standing(self.prefixes.as_slice(), i as usize, t)
    }

    /// Puts the lines of those that stand at moment `t` (ms) behind a text that has room for them. O(32).
    pub fn put_lines(&self, text: &mut Vec<u8>, t: Moment)
        requires { length text.old.items + 3072 ≤ vec_capacity text.old }
        ensures items { text.new.items ≡ text.old.items ++ flat_map link_prefix_line (prefixes_at t self.now) }
        ensures len { length text.new.items ≤ length text.old.items + 3072 }
        ensures capacity { vec_capacity text.old ≤ vec_capacity text.new }
    {
        put_lines(text, self.prefixes.as_slice(), t);
    }
}

// Puts the lines of those that stand at t.
fn put_lines(text: &mut Vec<u8>, prefixes: &[LinkPrefix], t: Moment)
    requires { length text.old.items + 96 * length prefixes.now ≤ vec_capacity text.old }
    ensures items { text.new.items ≡ text.old.items ++ flat_map link_prefix_line (prefixes_at t prefixes.now) }
    ensures len { length text.new.items ≤ length text.old.items + 96 * length prefixes.now }
    ensures capacity { vec_capacity text.old ≤ vec_capacity text.new }
{
    for prefix in prefixes {
        if prefix.stands(t) {
            push_line(text, &put_prefix(*prefix));
        }
    }
}

// Keeps those that stand at t, but for the one with this prefix's key.
fn keep_others(prefixes: &mut Vec<LinkPrefix>, t: Moment, prefix: &LinkPrefix)
    ensures items { prefixes.new.items ≡ left_beside prefix_before (prefix_stands t) prefix.now prefixes.old.items }
    ensures capacity { vec_capacity prefixes.new ≡ vec_capacity prefixes.old }
{
    prefixes.retain(|other| other.stands(t) && other.is_other(prefix));
}

// Puts one in its place among others, for which there is room.
fn place(prefixes: &mut Vec<LinkPrefix>, prefix: LinkPrefix)
    requires ordered { IsOrdered prefix_before prefixes.old.items }
    requires others { All (λ other. is_other prefix_before prefix other ≡ true) prefixes.old.items }
    requires room { length prefixes.old.items < vec_capacity prefixes.old }
    ensures items { prefixes.new.items ≡ placed prefix_before prefix prefixes.old.items }
    ensures len { length prefixes.new.items ≡ length prefixes.old.items + 1 }
    ensures capacity { vec_capacity prefixes.old ≤ vec_capacity prefixes.new }
{
    let at = place_of(prefixes.as_slice(), &prefix);
    match prefixes.insert(at, prefix) {
        Ok(()) => {}
        Err(_) => unreachable!(),
    }
}

// How many of these prefixes come before this one.
fn place_of(prefixes: &[LinkPrefix], prefix: &LinkPrefix) -> usize
    ensures { result ≡ count_by (λ other. prefix_before other prefix.now) prefixes.now }
{
    prefixes
        .iter()
        .filter(|other| other.is_before(prefix))
        .count()
}

// The i-th of these prefixes that stand at t.
fn nth_standing(prefixes: &[LinkPrefix], i: usize, t: Moment) -> Option<LinkPrefix>
    ensures { result ≡ slice_get (prefixes_at t prefixes.now) i }
{
    let mut left = i;
    for prefix in prefixes {
        if prefix.stands(t) {
            if left == 0 {
                return Some(*prefix);
            }
            left -= 1;
        }
    }
    None
}
