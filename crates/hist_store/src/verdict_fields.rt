ghost use Rattle.std.specs.Prelude.{◌≡◌, ◌+◌, ◌≤◌, ◌∷◌, ◌++◌, length};
ghost use Rattle.arrayvec.specs.ArrayVec.{array_vec_len};
ghost use Rattle.savi_kinds.specs.Characters.{space};
ghost use Rattle.hist_store.specs.VerdictTexts.{rule_name, scope_text, verdict_text, entry_verdict_text};

use crate::journal_line::JournalLine;
use crate::pieces::put_octets;
use crate::port_fields::put_port;
use savi_kinds::{Rule, Scope, Verdict};

// Appends a space and the text of an entry's verdict.
pub fn put_entry_verdict(into: &mut JournalLine, verdict: Option<Verdict>)
    requires { array_vec_len into.old + 23 ≤ 3400 }
    ensures text { into.new.items ≡ into.old.items ++ space ∷ entry_verdict_text verdict }
    ensures size { array_vec_len into.new ≤ array_vec_len into.old + 23 }
{
    into.push(b' ');
    match verdict {
        Some(verdict) => put_verdict(into, verdict),
        None => {}
    }
}

// Appends a verdict.
fn put_verdict(into: &mut JournalLine, verdict: Verdict)
    requires { array_vec_len into.old + 22 ≤ 3400 }
    ensures text { into.new.items ≡ into.old.items ++ verdict_text verdict }
    ensures size { array_vec_len into.new ≤ array_vec_len into.old + 22 }
{
    match verdict {
        Verdict::Pass(scope) => {
            put_octets(into, b"pass-");
            put_scope(into, scope);
        }
        Verdict::Drop(rule) => {
            put_octets(into, b"drop-");
            put_octets(into, name_of(rule).as_bytes());
        }
    }
}

// Appends to which ports a frame may go.
fn put_scope(into: &mut JournalLine, scope: Scope)
    requires { array_vec_len into.old + 17 ≤ 3400 }
    ensures text { into.new.items ≡ into.old.items ++ scope_text scope }
    ensures size { array_vec_len into.new ≤ array_vec_len into.old + 17 }
{
    match scope {
        Scope::All => put_octets(into, b"all"),
        Scope::TrustedOnly => put_octets(into, b"trusted"),
        Scope::TrustedAnd(port) => {
            put_octets(into, b"trusted+");
            put_port(into, port);
        }
    }
}

/// The name of a rule, as the journal writes it: at most 17 octets.
pub fn name_of(rule: Rule) -> &'static str
    ensures name { result.now ≡ rule_name rule }
    ensures short { length result.now ≤ 17 }
{
    match rule {
        Rule::PortDown => "PortDown",
        Rule::Malformed => "Malformed",
        Rule::ReservedGroup => "ReservedGroup",
        Rule::SourceMac => "SourceMac",
        Rule::Tagged => "Tagged",
        Rule::BadIpv6 => "BadIpv6",
        Rule::HiddenUpper => "HiddenUpper",
        Rule::UnknownNextHeader => "UnknownNextHeader",
        Rule::RouterAdvert => "RouterAdvert",
        Rule::FragmentedNd => "FragmentedNd",
        Rule::BadNd => "BadNd",
        Rule::Redirect => "Redirect",
        Rule::DhcpServer => "DhcpServer",
        Rule::UnspecifiedSource => "UnspecifiedSource",
        Rule::OffLink => "OffLink",
        Rule::NotAssigned => "NotAssigned",
        Rule::PortFull => "PortFull",
        Rule::WrongPort => "WrongPort",
        Rule::Unverified => "Unverified",
        Rule::Contested => "Contested",
        Rule::NaTarget => "NaTarget",
        Rule::PendingFull => "PendingFull",
        Rule::DhcpContested => "DhcpContested",
    }
}
