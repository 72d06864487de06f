ghost use Rattle.std.specs.Prelude.{◌≡◌, ◌==◌, ◌^◌, ◌<◌, ◌≤◌, false, take, drop, ◌∷◌, ◌++◌, ℕ, List, Option, Some, IfSome, IsSomeAnd};
ghost use Rattle.savi_kinds.specs.declared.port.PortSet.{PortSet};
ghost use Rattle.std.specs.List.{position_or_len};
ghost use Rattle.savi_kinds.specs.PortSets.{is_member};
ghost use Rattle.savi_kinds.specs.Characters.{space};
ghost use Rattle.hist_store.specs.TextOfLines.{comma, spaced};
ghost use Rattle.hist_store.specs.PortTexts.{members_text, ListsMembersAbove};

use crate::read_fields::{behind, end_at, is_word, read_port, take_field};
use savi_kinds::PortSet;

// A set of ports as the first field.
pub fn take_ports(text: &[u8]) -> Option<(PortSet, &[u8])>
    ensures read { IfSome result (λ r. (text.now ≡ space ∷ members_text r.0 ++ r.1.now) × (r.0.0 < 2 ^ 16)) }
    ensures whole { (set : PortSet) (fields : List (List ℕ)) → set.0 < 2 ^ 16
        → text.now ≡ spaced (members_text set ∷ fields)
        → IsSomeAnd result (λ r. (r.0 ≡ set) × (r.1.now ≡ spaced fields)) }
{
    let (field, rest) = take_field(text)?;
    Some((read_ports(field)?, rest))
}

// A set of ports: its members in rising order, or `-` for none.
fn read_ports(field: &[u8]) -> Option<PortSet>
    ensures read { IfSome result (λ set. (field.now ≡ members_text set) × (set.0 < 2 ^ 16)) }
    ensures whole { (set : PortSet) → set.0 < 2 ^ 16 → field.now ≡ members_text set → result ≡ Some set }
{
    if is_word(field, "-") {
        return Some(PortSet::empty());
    }
    read_members(field, PortSet::empty(), 0)
}

// The set with these members too, all above `last`, as every other member of it is not.
fn read_members(text: &[u8], set: PortSet, last: u8) -> Option<PortSet>
    requires { (n : ℕ) → last < n → n ≤ 16 → is_member set n ≡ false }
    ensures read { IfSome result (λ whole. ListsMembersAbove last set whole text.now) }
    ensures whole { (whole : PortSet) → ListsMembersAbove last set whole text.now → result ≡ Some whole }
{
    let (number, rest) = cut_member(text);
    let port = read_port(number)?;
    if port.get() <= last {
        return None;
    }
    let grown = set.with(port);
    know_ports(grown);
    if rest.is_empty() {
        return Some(grown);
    }
    let more = behind(rest, ",")?;
    read_members(more, grown, port.get())
}

// Does nothing: states for a proof what the type of a set says.
fn know_ports(set: PortSet)
    ensures { set.0 < 2 ^ 16 }
{}

// What stands in front of the first comma, and the rest.
pub(crate) fn cut_member(text: &[u8]) -> (&[u8], &[u8])
    ensures front { result.0.now ≡ take (position_or_len (λ c. c == comma) text.now) text.now }
    ensures rest { result.1.now ≡ drop (position_or_len (λ c. c == comma) text.now) text.now }
{
    text.split_at(end_at(text, b','))
}
