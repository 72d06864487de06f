//! The places of the index.

ghost use Rattle.std.specs.Prelude.{◌≡◌, ◌≤◌, ◌<◌, ◌+◌, ◌^◌, ℕ, None, length, MatchResult};
ghost use Rattle.addr_index.specs.Indexes.{HasOneEach};
ghost use Rattle.addr_index.specs.Places.{in_place, entries_of, IsReached, IsReachedBut, IsPlaceOf, IsRoomFor, HasSameEntries};
ghost use Rattle.addr_index.specs.Ways.{IsRound};

use crate::home::home;
use crate::place::Place;
use crate::ring::{is_on_way, round};

// The place of an address, or the empty place where it would stand. It goes from the home of the address on to the first
// empty place.
#[inline(always)]
pub(crate) fn search(places: &[Place], address: u128) -> Result<usize, usize>
    requires reached { IsReached (length places.now) places.now }
    requires sparse { length (entries_of places.now) < length places.now }
    requires limit { length places.now ≤ 2 ^ 22 }
    ensures { MatchResult result (IsPlaceOf address places.now) (IsRoomFor address places.now) }
{
    let from = home(address, places.len());
    let mut at = from;
    for _ in 0..places.len() {
        match places[at].entry() {
            None => return Err(at),
            Some(entry) if entry.address == address => return Ok(at),
            Some(_) => {}
        }
        at = round(at + 1, places.len());
    }
    unreachable!()
}

// Moves the entries that follow an emptied place back, as far as a search needs, up to the first empty place: an entry
// moves where the gap is on the way to it from its home, and then its own place is the gap.
pub(crate) fn close_gap(places: &mut [Place], emptied: usize)
    requires within { emptied < length places.old }
    requires empty { in_place places.old emptied ≡ None }
    requires distinct { HasOneEach (entries_of places.old) }
    requires reached { (next : ℕ) → IsRound (length places.old) (emptied + 1) next → IsReachedBut (length places.old) emptied next places.old }
    requires sparse { length (entries_of places.old) + 1 < length places.old }
    requires limit { length places.old ≤ 2 ^ 22 }
    ensures same { HasSameEntries places.old places.new }
    ensures reached { IsReached (length places.new) places.new }
{
    let mut gap = emptied;
    for steps in 1..places.len() {
        let at = round(emptied + steps, places.len());
        let Some(entry) = places[at].entry() else {
            return;
        };
        if is_on_way(home(entry.address, places.len()), at, gap) {
            places[at] = Place::empty();
            places[gap] = Place::of(entry);
            gap = at;
        }
    }
}
