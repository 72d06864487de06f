//! What the ports of a configuration have to meet.
ghost use Rattle.std.specs.Prelude.{◌≡◌, ◌≢◌, ◌↔◌, IsTrue, IfSome, All, AllPairs, Any, Some, codes};
ghost use Rattle.savi_conf.specs.Documents.{text_at};
ghost use Rattle.savi_conf.specs.Requirements.{IsBetween, number_in};
ghost use Rattle.savi_kinds.specs.PlanWords.{format_word, role_word};
ghost use Rattle.savi_conf.specs.Words.{HasWord};
ghost use Rattle.toml.specs.View.{table_view};

use crate::document::{integer_at, text_at};
use crate::numbers::is_between;
use crate::words::{has_format, has_role};
use savi_kinds::PORTS_MOST;
use toml::Table;

// The port's number.
pub(crate) fn number(port: &Table) -> Option<i64>
    ensures { result ≡ number_in (table_view port.now) }
{
    integer_at(port, "number")
}

// Whether each number is that of a port that a switch may have.
pub(crate) fn have_ports_numbers(ports: &[&Table]) -> bool
    ensures { IsTrue result ↔ All (λ p. IfSome (number_in (table_view p.now)) (IsBetween 1 16)) ports.now }
{
    ports.iter().all(|port| has_ports_number(port))
}

fn has_ports_number(port: &Table) -> bool
    ensures { IsTrue result ↔ IfSome (number_in (table_view port.now)) (IsBetween 1 16) }
{
    match number(port) {
        Some(value) => is_between(1, PORTS_MOST as u64, value),
        None => true,
    }
}

// Whether no two ports have the same number.
pub(crate) fn have_different_numbers(ports: &[&Table]) -> bool
    ensures { IsTrue result ↔ AllPairs (λ p q. number_in (table_view p.now) ≢ number_in (table_view q.now)) ports.now }
{
    for (i, port) in ports.iter().enumerate() {
        if has_port_with(&ports[..i], number(port)) {
            return false;
        }
    }
    true
}

fn has_port_with(ports: &[&Table], value: Option<i64>) -> bool
    ensures { IsTrue result ↔ Any (λ p. number_in (table_view p.now) ≡ value) ports.now }
{
    ports.iter().any(|port| number(port) == value)
}

pub(crate) fn have_roles(ports: &[&Table]) -> bool
    ensures { IsTrue result ↔ All (λ p. HasWord (codes "role") role_word (table_view p.now)) ports.now }
{
    ports.iter().all(|port| has_role(port))
}

pub(crate) fn have_formats(ports: &[&Table]) -> bool
    ensures { IsTrue result ↔ All (λ p. HasWord (codes "format") format_word (table_view p.now)) ports.now }
{
    ports.iter().all(|port| has_format(port))
}

// Whether no port is a stream.
pub(crate) fn have_no_stream(ports: &[&Table]) -> bool
    ensures { IsTrue result ↔ All (λ p. text_at (codes "format") (table_view p.now) ≢ Some (codes "stream")) ports.now }
{
    ports.iter().all(|port| has_no_stream(port))
}

fn has_no_stream(port: &Table) -> bool
    ensures { IsTrue result ↔ (text_at (codes "format") (table_view port.now) ≢ Some (codes "stream")) }
{
    match text_at(port, "format") {
        Some(text) => text != "stream",
        None => true,
    }
}
