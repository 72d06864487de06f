//! The places of several outputs that have names.

ghost use Rattle.std.specs.Prelude.{◌≡◌, ◌≤◌, ◌<◌, ℕ, List, true, false, IfOk, IsTrue, Some, position, vec_capacity, vec_len};
ghost use Rattle.std.specs.Str.{bytes_eq};
ghost use Rattle.savi_ends.specs.Places.{Place, OthersStay};

use savi_kinds::Text;
use std::alloc::{AllocError, Global};

/// A run opens so many outputs by name at most.
const SPOTS_MOST: usize = 16;

/// Sixteen places, each of which gets its name when its end is handed out.
#[derive(Drop)]
pub struct NamedSpots<X> {
    spots: Vec<(Text, Option<X>)>,
    ghost room: { 16 ≤ vec_capacity spots },
}

impl<X: Drop> NamedSpots<X> {
    ghost use Rattle.end_places.specs.ManySpots.{are_full, spot_named};
    ghost use Rattle.end_places.specs.Spots.{unopened};

    /// Places without names, of which no end was handed out yet. `Err` is want of memory.
    pub fn make(alloc: Global) -> Result<NamedSpots<X>, AllocError>
        ensures { IfOk result (λ spots. (name : List ℕ) → spot_named spots name ≡ unopened) }
    {
        Ok(NamedSpots {
            spots: Vec::with_capacity(alloc, SPOTS_MOST)?,
        })
    }

    /// Whether an end was handed out of each place. Of a name under which none was, nothing is told.
    pub fn is_full(&self) -> bool
        ensures full { result ≡ are_full self.now }
        ensures untold { (name : List ℕ) → (spot_named self.now name).is_out ≡ false → spot_named self.now name ≡ unopened }
    {
        self.spots.len() >= SPOTS_MOST
    }

    /// Notes that an end was handed out under this name. O(ends).
    pub fn hand_out(&mut self, name: Text)
        requires { are_full self.old ≡ false }
        ensures out { (spot_named self.new name).is_out ≡ true }
        ensures others { OthersStay (spot_named self.old) (spot_named self.new) name }
    {
        self.spots.push_reserved((name, None));
    }

    /// Keeps the end that was handed out under this name. O(ends).
    pub fn keep(&mut self, name: &str, end: X)
        requires { (spot_named self.old name.now).is_out ≡ true }
        ensures kept { (spot_named self.new name.now).stands ≡ Some end }
        ensures others { OthersStay (spot_named self.old) (spot_named self.new) name.now }
    {
        match find(&self.spots, name) {
            Some(place) => self.spots[place].1 = Some(end),
            None => unreachable!(),
        }
    }
}

// Where the first place of this name stands.
fn find<X>(spots: &[(Text, Option<X>)], name: &str) -> Option<usize>
    ensures { result ≡ position (λ p. bytes_eq p.0 name.now) spots.now }
{
    spots.iter().position(|spot| spot.0.as_str() == name)
}
