ghost use Rattle.std.specs.Prelude.{◌≡◌, ◌↔◌, ◌^◌, ◌<◌, [], ◌∷◌, ◌++◌, ℕ, List, Option, Some, IsTrue, IfSome, IsSomeAnd, decimal};
ghost use Rattle.savi_kinds.specs.declared.entry.Who.{Who};
ghost use Rattle.savi_kinds.specs.declared.entry.How.{How};
ghost use Rattle.savi_kinds.specs.Characters.{space};
ghost use Rattle.hist_store.specs.TextOfLines.{spaced};
ghost use Rattle.hist_store.specs.EndTexts.{who_text, how_fields, IsReasonOf};
ghost use Rattle.hist_store.specs.EntryLines.{IsHowInRange};

use crate::read_fields::{behind, is_word, read_port, take_field, take_number};
use savi_kinds::{How, Who};

// A pass as the first field.
pub fn take_who(text: &[u8]) -> Option<(Who, &[u8])>
    ensures read { IfSome result (λ r. text.now ≡ space ∷ who_text r.0 ++ r.1.now) }
    ensures whole { (who : Who) (fields : List (List ℕ)) → text.now ≡ spaced (who_text who ∷ fields)
        → IsSomeAnd result (λ r. (r.0 ≡ who) × (r.1.now ≡ spaced fields)) }
{
    let (field, rest) = take_field(text)?;
    Some((read_who(field)?, rest))
}

fn read_who(field: &[u8]) -> Option<Who>
    ensures read { IfSome result (λ who. field.now ≡ who_text who) }
    ensures whole { (who : Who) → field.now ≡ who_text who → result ≡ Some who }
{
    if is_word(field, "control") {
        return Some(Who::Control);
    }
    if is_word(field, "ticker") {
        return Some(Who::Ticker);
    }
    match behind(field, "in") {
        Some(port) => Some(Who::Ingress(read_port(port)?)),
        None => Some(Who::Egress(read_port(behind(field, "out")?)?)),
    }
}

// A reason, which is all of the text.
pub fn read_how(text: &[u8]) -> Option<How>
    ensures read { IfSome result (λ how. (text.now ≡ spaced (how_fields how)) × IsHowInRange how) }
    ensures whole { (how : How) → IsHowInRange how → text.now ≡ spaced (how_fields how) → result ≡ Some how }
{
    let (word, rest) = take_field(text)?;
    if rest.is_empty() {
        return read_reason(word);
    }
    let (value, rest) = take_number(rest)?;
    if rest.is_empty() {
        reason_with(word, value)
    } else {
        None
    }
}

// A reason without a number.
fn read_reason(word: &[u8]) -> Option<How>
    ensures read { IfSome result (λ how. (how_fields how ≡ word.now ∷ []) × IsHowInRange how) }
    ensures whole { (how : How) → how_fields how ≡ word.now ∷ [] → result ≡ Some how }
{
    if is_word(word, "end") {
        Some(How::End)
    } else if is_word(word, "quit") {
        Some(How::Quit)
    } else if is_word(word, "failed") {
        Some(How::Failed)
    } else if is_word(word, "unwritten") {
        Some(How::Unwritten)
    } else if is_word(word, "paused") {
        Some(How::Paused)
    } else {
        None
    }
}

// A reason with a number.
fn reason_with(word: &[u8], value: u64) -> Option<How>
    ensures read { IfSome result (λ how. (how_fields how ≡ word.now ∷ decimal value ∷ []) × IsHowInRange how) }
    ensures whole { (how : How) → IsHowInRange how → how_fields how ≡ word.now ∷ decimal value ∷ []
        → result ≡ Some how }
{
    if is_word(word, "malformed") {
        Some(How::Malformed(value))
    } else if is_word(word, "overlong") {
        Some(How::Overlong(value))
    } else {
        None
    }
}

// Whether the pass may end for this reason.
pub fn is_reason_of(who: Who, how: How) -> bool
    ensures { IsTrue result ↔ IsReasonOf who how }
{
    match who {
        Who::Ingress(_) => matches!(
            how,
            How::End | How::Malformed(_) | How::Failed | How::Paused
        ),
        Who::Control => true,
        Who::Ticker => matches!(how, How::End | How::Paused),
        Who::Egress(_) => matches!(how, How::End | How::Failed | How::Paused),
    }
}
