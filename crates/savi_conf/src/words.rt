//! The words of a configuration, read.
ghost use Rattle.std.specs.Prelude.{◌≡◌, ◌↔◌, IsTrue, IfSome, IfNone, codes};
ghost use Rattle.savi_kinds.specs.PlanWords.{format_word, method_word, role_word, savi_word, unknown_word};
ghost use Rattle.savi_conf.specs.Words.{HasWord, IsWordOf};
ghost use Rattle.toml.specs.View.{table_view};

use crate::document::text_at;
use savi_kinds::{Format, Method, Role};
use toml::Table;

// What a role's word stands for.
pub(crate) fn role(text: &str) -> Option<Role>
    ensures read { IfSome result (λ r. text.now ≡ role_word r) }
    ensures only { IfNone result (¬ IsWordOf role_word text.now) }
{
    if text == "host" {
        Some(Role::Host)
    } else if text == "server" {
        Some(Role::Server)
    } else if text == "trusted" {
        Some(Role::Trusted)
    } else {
        None
    }
}

// What a method's word stands for.
pub(crate) fn method(text: &str) -> Option<Method>
    ensures read { IfSome result (λ m. text.now ≡ method_word m) }
    ensures only { IfNone result (¬ IsWordOf method_word text.now) }
{
    if text == "fcfs" {
        Some(Method::Fcfs)
    } else if text == "dhcp" {
        Some(Method::Dhcp)
    } else if text == "mixed" {
        Some(Method::Mixed)
    } else {
        None
    }
}

// What a format's word stands for.
pub(crate) fn format(text: &str) -> Option<Format>
    ensures read { IfSome result (λ f. text.now ≡ format_word f) }
    ensures only { IfNone result (¬ IsWordOf format_word text.now) }
{
    if text == "pcap" {
        Some(Format::Pcap)
    } else if text == "stream" {
        Some(Format::Stream)
    } else {
        None
    }
}

// Whether sources are validated, by the word of `savi`.
pub(crate) fn savi(text: &str) -> Option<bool>
    ensures read { IfSome result (λ b. text.now ≡ savi_word b) }
    ensures only { IfNone result (¬ IsWordOf savi_word text.now) }
{
    if text == "on" {
        Some(true)
    } else if text == "off" {
        Some(false)
    } else {
        None
    }
}

// Whether a packet with an unknown next header is dropped, by the word of `unknown`.
pub(crate) fn unknown(text: &str) -> Option<bool>
    ensures read { IfSome result (λ b. text.now ≡ unknown_word b) }
    ensures only { IfNone result (¬ IsWordOf unknown_word text.now) }
{
    if text == "drop" {
        Some(true)
    } else if text == "pass" {
        Some(false)
    } else {
        None
    }
}

// Whether the port's role, if there is one, is known.
pub(crate) fn has_role(port: &Table) -> bool
    ensures { IsTrue result ↔ HasWord (codes "role") role_word (table_view port.now) }
{
    match text_at(port, "role") {
        Some(text) => role(text).is_some(),
        None => true,
    }
}

pub(crate) fn has_format(port: &Table) -> bool
    ensures { IsTrue result ↔ HasWord (codes "format") format_word (table_view port.now) }
{
    match text_at(port, "format") {
        Some(text) => format(text).is_some(),
        None => true,
    }
}

pub(crate) fn has_method(prefix: &Table) -> bool
    ensures { IsTrue result ↔ HasWord (codes "method") method_word (table_view prefix.now) }
{
    match text_at(prefix, "method") {
        Some(text) => method(text).is_some(),
        None => true,
    }
}

pub(crate) fn has_savi(document: &Table) -> bool
    ensures { IsTrue result ↔ HasWord (codes "savi") savi_word (table_view document.now) }
{
    match text_at(document, "savi") {
        Some(text) => savi(text).is_some(),
        None => true,
    }
}

pub(crate) fn has_unknown(document: &Table) -> bool
    ensures { IsTrue result ↔ HasWord (codes "unknown") unknown_word (table_view document.now) }
{
    match text_at(document, "unknown") {
        Some(text) => unknown(text).is_some(),
        None => true,
    }
}
