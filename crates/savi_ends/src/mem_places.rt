ghost use Rattle.std.specs.Prelude.{◌≡◌, ℕ, ◌==◌, true, false, Some, OnSome, IfNone, is_none, position};
ghost use Rattle.std.specs.Str.{bytes_eq};
ghost use Rattle.savi_kinds.specs.Ports.{number_of};
ghost use Rattle.savi_ends.specs.Places.{OthersStay, IsOnlyOut};
ghost use Rattle.savi_ends.specs.MemPlaces.{named_places, numbered_places, keys_of, NamesDiffer};

use savi_kinds::{Port, Text};

/// Takes the end out of the first place of this name.
pub(crate) fn take_named<X>(places: &mut Vec<(Text, Option<X>)>, name: &str) -> Option<X>
    requires { (named_places places.old.items name.now).is_out ≡ false }
    ensures taken { result ≡ (named_places places.old.items name.now).stands }
    ensures out { OnSome result ((named_places places.new.items name.now).is_out ≡ true) }
    ensures none { IfNone result (places.new.items ≡ places.old.items) }
    ensures others { OthersStay (named_places places.old.items) (named_places places.new.items) name.now }
    ensures keys { keys_of places.new.items ≡ keys_of places.old.items }
{
    match find_named(places, name) {
        Some(i) => places[i].1.take(),
        None => None,
    }
}

/// Takes the end out of the first place of this port.
pub(crate) fn take_numbered<X>(places: &mut Vec<(Port, Option<X>)>, n: Port) -> Option<X>
    requires { (numbered_places places.old.items (number_of n)).is_out ≡ false }
    ensures taken { result ≡ (numbered_places places.old.items (number_of n)).stands }
    ensures out { OnSome result ((numbered_places places.new.items (number_of n)).is_out ≡ true) }
    ensures none { IfNone result (places.new.items ≡ places.old.items) }
    ensures others { OthersStay (numbered_places places.old.items) (numbered_places places.new.items) (number_of n) }
    ensures keys { keys_of places.new.items ≡ keys_of places.old.items }
{
    match find_numbered(places, n) {
        Some(i) => places[i].1.take(),
        None => None,
    }
}

/// Puts an end into the first place of this name, which is empty.
pub(crate) fn put_named<X: Drop>(places: &mut Vec<(Text, Option<X>)>, name: &str, x: X)
    requires { (named_places places.old.items name.now).is_out ≡ true }
    ensures kept { (named_places places.new.items name.now).stands ≡ Some x }
    ensures others { OthersStay (named_places places.old.items) (named_places places.new.items) name.now }
    ensures keys { keys_of places.new.items ≡ keys_of places.old.items }
{
    match find_named(places, name) {
        Some(i) => places[i].1 = Some(x),
        None => unreachable!(),
    }
}

/// Puts an end into the first place of this port, which is empty.
pub(crate) fn put_numbered<X: Drop>(places: &mut Vec<(Port, Option<X>)>, n: Port, x: X)
    requires { (numbered_places places.old.items (number_of n)).is_out ≡ true }
    ensures kept { (numbered_places places.new.items (number_of n)).stands ≡ Some x }
    ensures others { OthersStay (numbered_places places.old.items) (numbered_places places.new.items) (number_of n) }
    ensures keys { keys_of places.new.items ≡ keys_of places.old.items }
{
    match find_numbered(places, n) {
        Some(i) => places[i].1 = Some(x),
        None => unreachable!(),
    }
}

/// Puts an end into the first place that is empty, which is that of the only name that is handed out.
pub(crate) fn put_only<X: Drop>(places: &mut Vec<(Text, Option<X>)>, x: X)
    requires differ { NamesDiffer places.old.items }
    requires only { (name : _) × IsOnlyOut (named_places places.old.items) name }
    ensures kept { (name : _) → IsOnlyOut (named_places places.old.items) name → (named_places places.new.items name).stands ≡ Some x }
    ensures others { (name : _) → IsOnlyOut (named_places places.old.items) name → OthersStay (named_places places.old.items) (named_places places.new.items) name }
    ensures keys { keys_of places.new.items ≡ keys_of places.old.items }
{
    match find_empty(places) {
        Some(i) => places[i].1 = Some(x),
        None => unreachable!(),
    }
}

// The index of the first place of this name.
fn find_named<X>(places: &[(Text, Option<X>)], name: &str) -> Option<usize>
    ensures { result ≡ position (λ p. bytes_eq p.0 name.now) places.now }
{
    places.iter().position(|place| place.0.as_str() == name)
}

// The index of the first place of this port.
fn find_numbered<X>(places: &[(Port, Option<X>)], n: Port) -> Option<usize>
    ensures { result ≡ position (λ p. number_of p.0 == number_of n) places.now }
{
    places.iter().position(|place| place.0.get() == n.get())
}

// The index of the first place that is empty.
fn find_empty<X>(places: &[(Text, Option<X>)]) -> Option<usize>
    ensures { result ≡ position (λ p. is_none p.1) places.now }
{
    places.iter().position(|place| place.1.is_none())
}
