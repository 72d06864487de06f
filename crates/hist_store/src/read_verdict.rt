ghost use Rattle.std.specs.Prelude.{◌≡◌, ◌∷◌, ◌++◌, ℕ, List, Option, Some, IfSome, IsSomeAnd};
ghost use Rattle.savi_kinds.specs.declared.verdict.Rule.{Rule};
ghost use Rattle.savi_kinds.specs.declared.verdict.Scope.{Scope};
ghost use Rattle.savi_kinds.specs.declared.verdict.Verdict.{Verdict};
ghost use Rattle.savi_kinds.specs.Characters.{space};
ghost use Rattle.hist_store.specs.TextOfLines.{spaced};
ghost use Rattle.hist_store.specs.VerdictTexts.{rule_name, scope_text, verdict_text};

use crate::read_fields::{behind, is_word, read_port, take_field};
use crate::verdict_fields::name_of;
use savi_kinds::{Rule, Scope, Verdict};

/// The rules, in the order of their numbers.
pub const RULES: [Rule; 23] = [
    Rule::PortDown,
    Rule::Malformed,
    Rule::ReservedGroup,
    Rule::SourceMac,
    Rule::Tagged,
    Rule::BadIpv6,
    Rule::HiddenUpper,
    Rule::UnknownNextHeader,
    Rule::RouterAdvert,
    Rule::FragmentedNd,
    Rule::BadNd,
    Rule::Redirect,
    Rule::DhcpServer,
    Rule::UnspecifiedSource,
    Rule::OffLink,
    Rule::NotAssigned,
    Rule::PortFull,
    Rule::WrongPort,
    Rule::Unverified,
    Rule::Contested,
    Rule::NaTarget,
    Rule::PendingFull,
    Rule::DhcpContested,
];

// A verdict as the first field.
pub fn take_verdict(text: &[u8]) -> Option<(Verdict, &[u8])>
    ensures read { IfSome result (λ r. text.now ≡ space ∷ verdict_text r.0 ++ r.1.now) }
    ensures whole { (verdict : Verdict) (fields : List (List ℕ))
        → text.now ≡ spaced (verdict_text verdict ∷ fields)
        → IsSomeAnd result (λ r. (r.0 ≡ verdict) × (r.1.now ≡ spaced fields)) }
{
    let (field, rest) = take_field(text)?;
    Some((read_verdict(field)?, rest))
}

fn read_verdict(field: &[u8]) -> Option<Verdict>
    ensures read { IfSome result (λ verdict. field.now ≡ verdict_text verdict) }
    ensures whole { (verdict : Verdict) → field.now ≡ verdict_text verdict → result ≡ Some verdict }
{
    match behind(field, "pass-") {
        Some(scope) => Some(Verdict::Pass(read_scope(scope)?)),
        None => Some(Verdict::Drop(read_rule(behind(field, "drop-")?)?)),
    }
}

fn read_scope(text: &[u8]) -> Option<Scope>
    ensures read { IfSome result (λ scope. text.now ≡ scope_text scope) }
    ensures whole { (scope : Scope) → text.now ≡ scope_text scope → result ≡ Some scope }
{
    if is_word(text, "all") {
        return Some(Scope::All);
    }
    if is_word(text, "trusted") {
        return Some(Scope::TrustedOnly);
    }
    let port = behind(text, "trusted+")?;
    Some(Scope::TrustedAnd(read_port(port)?))
}

// The rule of this name.
fn read_rule(name: &[u8]) -> Option<Rule>
    ensures read { IfSome result (λ rule. name.now ≡ rule_name rule) }
    ensures whole { (rule : Rule) → name.now ≡ rule_name rule → result ≡ Some rule }
{
    for rule in RULES.iter() {
        if is_word(name, name_of(*rule)) {
            return Some(*rule);
        }
    }
    None
}
