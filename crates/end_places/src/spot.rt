//! A place where an end is handed out once and kept again.

ghost use Rattle.std.specs.Prelude.{◌≡◌, true, false, is_none, option_map};

/// A place whose end was handed out or not, and the end that was kept.
#[derive(Drop)]
pub struct Spot<X> {
    is_out: bool,
    kept: Option<X>,
    pub ghost kept_later: { is_out ≡ false → is_none kept ≡ true },
}

impl<X: Drop> Spot<X> {
    ghost use Rattle.std.specs.Prelude.{◌≡◌, true, Some};
    ghost use Rattle.end_places.specs.Spots.{spot_place, unopened};

    /// A place whose end wasn't handed out yet.
    pub fn new() -> Spot<X>
        ensures { spot_place result ≡ unopened }
    {
        Spot {
            is_out: false,
            kept: None,
        }
    }

    /// Notes that the end was handed out.
    pub fn hand_out(&mut self)
        ensures out { (spot_place self.new).is_out ≡ true }
    {
        self.is_out = true;
    }

    /// Keeps an end.
    pub fn keep(&mut self, end: X)
        requires { (spot_place self.old).is_out ≡ true }
        ensures { spot_place self.new ≡ record (spot_place self.old) { stands = Some end } }
    {
        self.kept = Some(end);
    }

    /// The end that was kept, if one was.
    pub fn kept(&self) -> Option<&X>
        ensures { option_map (λ end. end.now) result ≡ (spot_place self.now).stands }
    {
        self.kept.as_ref()
    }
}
