//! The place of the one input or output that has a name.

ghost use Rattle.std.specs.Prelude.{◌≡◌, ℕ, List, true, false, None, Some, IsNone, is_none, option_map};
ghost use Rattle.savi_ends.specs.Places.{Place, OthersStay, IsOnlyOut};

use savi_kinds::Text;

/// A place that gets its name when its end is handed out.
#[derive(Drop)]
pub struct NamedSpot<X> {
    name: Option<Text>,
    kept: Option<X>,
}

impl<X: Drop> NamedSpot<X> {
    ghost use Rattle.end_places.specs.NamedSpots.{named_place, is_free};
    ghost use Rattle.end_places.specs.Spots.{unopened};

    /// A place without a name, whose end wasn't handed out yet.
    pub fn new() -> NamedSpot<X>
        ensures free { is_free result ≡ true }
        ensures unopened { (name : List ℕ) → named_place result name ≡ unopened }
    {
        NamedSpot {
            name: None,
            kept: None,
        }
    }

    /// Whether the end wasn't handed out yet.
    pub fn is_free(&self) -> bool
        ensures { result ≡ is_free self.now }
    {
        self.name.is_none()
    }

    /// Notes that the end was handed out under this name.
    pub fn hand_out(&mut self, name: Text)
        requires { is_free self.old ≡ true }
        ensures out { (named_place self.new name).is_out ≡ true }
        ensures others { OthersStay (named_place self.old) (named_place self.new) name }
    {
        self.name = Some(name);
    }

    /// Keeps the end under the name under which it was handed out.
    pub fn keep(&mut self, end: X)
        ensures kept { (name : List ℕ) → (named_place self.old name).is_out ≡ true → (named_place self.new name).stands ≡ Some end }
        ensures others { (name : List ℕ) → (named_place self.old name).is_out ≡ true → OthersStay (named_place self.old) (named_place self.new) name }
    {
        self.kept = Some(end);
    }

    /// The end that was kept, if one was.
    pub fn kept(&self) -> Option<&X>
        ensures { (name : List ℕ) → (named_place self.now name).is_out ≡ true → option_map (λ end. end.now) result ≡ (named_place self.now name).stands }
    {
        self.kept.as_ref()
    }
}
