//! A document with its tables, and what it has to meet.
ghost use Rattle.std.specs.Prelude.{
  ◌≡◌,
  ◌≢◌,
  ◌≤◌,
  ◌↔◌,
  IsTrue,
  IfSome,
  IfNone,
  Some,
  All,
  true,
  length,
  map,
  codes,
};
ghost use Rattle.savi_conf.specs.Documents.{text_at};
ghost use Rattle.savi_conf.specs.KeyNames.{keys_of};
ghost use Rattle.savi_conf.specs.Keys.{HasKinds, HasOnly, HasRequired};
ghost use Rattle.savi_conf.specs.Requirements.{
  AreFewVlans,
  AreVlanNumbers,
  EachTable,
  HasBothControls,
  HasNumbers,
  HasOneVlanKey,
  HasPrefixRanges,
  HasPrefixTexts,
  HasTrunkRole,
  HasVlanNumbers,
  IsFirstFault,
  IsSwitchMac,
  Meets,
  port_tables,
  prefix_tables,
  vlans_in,
};
ghost use Rattle.savi_kinds.specs.PlanWords.{format_word, method_word, role_word};
ghost use Rattle.savi_conf.specs.Words.{HasWord};
ghost use Rattle.savi_conf.specs.declared.fault.Fault.{Fault};
ghost use Rattle.toml.specs.View.{table_view};

use crate::document::text_at;
use crate::fault::Fault;
use crate::keys::KeyNames;
use crate::numbers::{
    BYTES_DEFAULT, DEPTH_DEFAULT, ENTRIES_DEFAULT, PER_PORT_DEFAULT, has_times, integer_or,
    is_between,
};
use crate::ports::{
    have_different_numbers, have_formats, have_no_stream, have_ports_numbers, have_roles,
};
use crate::prefixes::{have_apart_ranges, have_methods, have_prefix_texts, tell_plan_prefixes};
use crate::vlans::{
    are_all_vlan_numbers, are_few_vlans, have_one_vlan_key, have_prefix_vlans, have_trunk_roles,
};
use crate::words::{has_savi, has_unknown};
use savi_kinds::{
    BYTES_MOST, DEPTH_MOST, ENTRIES_LEAST, ENTRIES_MOST, FRAME_OCTETS_MOST, Mac, PER_PORT_MOST,
    PORTS_MOST, PREFIXES_MOST, read_mac,
};
use toml::Table;

// The requirements, in the order of their numbers.
const FAULTS: [Fault; 22] = [
    Fault::UnknownKey,
    Fault::WrongKind,
    Fault::MissingKey,
    Fault::SwitchMac,
    Fault::SaviWord,
    Fault::NextHeaderWord,
    Fault::PerPort,
    Fault::Depth,
    Fault::Entries,
    Fault::Bytes,
    Fault::Times,
    Fault::PortCount,
    Fault::PortNumbers,
    Fault::RoleWord,
    Fault::FormatWord,
    Fault::PrefixTexts,
    Fault::PrefixRanges,
    Fault::MethodWord,
    Fault::StreamInReplay,
    Fault::VlanNumbers,
    Fault::TrunkRole,
    Fault::VlanCount,
];

// A document with the tables of its ports and prefixes, and the numbers of each port's VLANs.
#[derive(Clone, Copy)]
pub(crate) struct Parts<'a> {
    pub(crate) document: &'a Table,
    pub(crate) ports: &'a [&'a Table],
    pub(crate) prefixes: &'a [&'a Table],
    pub(crate) vlans: &'a [Vec<i64>],
    pub(crate) replay: bool,
}

impl Parts<'_> {
    ghost use Rattle.savi_conf.specs.Parts.{AreParts, document_of};

    // The fault with the least number.
    pub(crate) fn first_fault(&self) -> Option<Fault>
        requires { AreParts self.now }
        ensures fault { IfSome result (IsFirstFault self.now.replay (document_of self.now)) }
        ensures none { IfNone result ((fault : Fault) → Meets self.now.replay (document_of self.now) fault) }
    {
        for fault in FAULTS {
            if !self.meets(fault) {
                return Some(fault);
            }
        }
        None
    }

    fn meets(&self, fault: Fault) -> bool
        requires { AreParts self.now }
        ensures { IsTrue result ↔ Meets self.now.replay (document_of self.now) fault }
    {
        match fault {
            Fault::UnknownKey => self.has_known_keys(),
            Fault::WrongKind => self.has_kinds(),
            Fault::MissingKey => self.has_required(),
            Fault::SwitchMac => has_switch_mac(self.document),
            Fault::SaviWord => has_savi(self.document),
            Fault::NextHeaderWord => has_unknown(self.document),
            Fault::PerPort => {
                let per_port = integer_or(self.document, "per_port", PER_PORT_DEFAULT);
                is_between(1, u64::from(PER_PORT_MOST), per_port)
            }
            Fault::Depth => {
                let depth = integer_or(self.document, "depth", DEPTH_DEFAULT);
                is_between(1, u64::from(DEPTH_MOST), depth)
            }
            Fault::Entries => {
                let entries = integer_or(self.document, "entries", ENTRIES_DEFAULT);
                is_between(ENTRIES_LEAST, ENTRIES_MOST, entries)
            }
            Fault::Bytes => {
                let bytes = integer_or(self.document, "bytes", BYTES_DEFAULT);
                is_between(FRAME_OCTETS_MOST as u64, BYTES_MOST, bytes)
            }
            Fault::Times => has_times(self.document),
            Fault::PortCount => self.has_port_count(),
            Fault::PortNumbers => self.has_port_numbers(),
            Fault::RoleWord => self.has_roles(),
            Fault::FormatWord => self.has_formats(),
            Fault::PrefixTexts => self.has_prefix_texts(),
            Fault::PrefixRanges => self.has_prefix_ranges(),
            Fault::MethodWord => self.has_methods(),
            Fault::StreamInReplay => self.fits_command(),
            Fault::VlanNumbers => self.has_vlan_numbers(),
            Fault::TrunkRole => self.has_trunk_roles(),
            Fault::VlanCount => self.has_few_vlans(),
        }
    }

    fn has_known_keys(&self) -> bool
        requires { AreParts self.now }
        ensures { IsTrue result ↔ EachTable HasOnly (document_of self.now) }
    {
        KeyNames::top().has_only(self.document)
            && have_only(&KeyNames::port(), self.ports)
            && have_only(&KeyNames::prefix(), self.prefixes)
    }

    fn has_kinds(&self) -> bool
        requires { AreParts self.now }
        ensures { IsTrue result ↔ EachTable HasKinds (document_of self.now) }
    {
        KeyNames::top().has_kinds(self.document)
            && have_kinds(&KeyNames::port(), self.ports)
            && have_kinds(&KeyNames::prefix(), self.prefixes)
    }

    fn has_required_keys(&self) -> bool
        requires { AreParts self.now }
        ensures { IsTrue result ↔ EachTable HasRequired (document_of self.now) }
    {
        KeyNames::top().has_required(self.document)
            && have_required(&KeyNames::port(), self.ports)
            && have_required(&KeyNames::prefix(), self.prefixes)
    }

    fn has_required(&self) -> bool
        requires { AreParts self.now }
        ensures { IsTrue result ↔ (EachTable HasRequired (document_of self.now) × HasBothControls (document_of self.now)) }
    {
        self.has_required_keys() && has_both_controls(self.document)
    }

    fn has_port_count(&self) -> bool
        requires { AreParts self.now }
        ensures { IsTrue result ↔ ((1 ≤ length (port_tables (document_of self.now))) × (length (port_tables (document_of self.now)) ≤ 16)) }
    {
        !self.ports.is_empty() && self.ports.len() <= PORTS_MOST
    }

    fn has_port_numbers(&self) -> bool
        requires { AreParts self.now }
        ensures { IsTrue result ↔ HasNumbers (port_tables (document_of self.now)) }
    {
        have_ports_numbers(self.ports) && have_different_numbers(self.ports)
    }

    fn has_roles(&self) -> bool
        requires { AreParts self.now }
        ensures { IsTrue result ↔ All (HasWord (codes "role") role_word) (port_tables (document_of self.now)) }
    {
        have_roles(self.ports)
    }

    fn has_formats(&self) -> bool
        requires { AreParts self.now }
        ensures { IsTrue result ↔ All (HasWord (codes "format") format_word) (port_tables (document_of self.now)) }
    {
        have_formats(self.ports)
    }

    fn has_prefix_texts(&self) -> bool
        requires { AreParts self.now }
        ensures { IsTrue result ↔ HasPrefixTexts (prefix_tables (document_of self.now)) }
    {
        self.prefixes.len() <= PREFIXES_MOST && have_prefix_texts(self.prefixes)
    }

    fn has_prefix_ranges(&self) -> bool
        requires { AreParts self.now }
        ensures { IsTrue result ↔ HasPrefixRanges (prefix_tables (document_of self.now)) }
    {
        tell_plan_prefixes(self.prefixes) && have_apart_ranges(self.prefixes)
    }

    fn has_methods(&self) -> bool
        requires { AreParts self.now }
        ensures { IsTrue result ↔ All (HasWord (codes "method") method_word) (prefix_tables (document_of self.now)) }
    {
        have_methods(self.prefixes)
    }

    fn fits_command(&self) -> bool
        requires { AreParts self.now }
        ensures { IsTrue result ↔ (self.now.replay ≡ true → All (λ port. text_at (codes "format") port ≢ Some (codes "stream")) (port_tables (document_of self.now))) }
    {
        !self.replay || have_no_stream(self.ports)
    }

    fn has_vlan_numbers(&self) -> bool
        requires { AreParts self.now }
        ensures { IsTrue result ↔ HasVlanNumbers (document_of self.now) }
    {
        self.has_port_vlans() && have_prefix_vlans(self.prefixes)
    }

    fn has_port_vlans(&self) -> bool
        requires { AreParts self.now }
        ensures { IsTrue result ↔ (All HasOneVlanKey (port_tables (document_of self.now)) × All AreVlanNumbers (map vlans_in (port_tables (document_of self.now)))) }
    {
        have_one_vlan_key(self.ports) && are_all_vlan_numbers(self.vlans)
    }

    fn has_trunk_roles(&self) -> bool
        requires { AreParts self.now }
        ensures { IsTrue result ↔ All HasTrunkRole (port_tables (document_of self.now)) }
    {
        have_trunk_roles(self.ports)
    }

    fn has_few_vlans(&self) -> bool
        requires { AreParts self.now }
        ensures { IsTrue result ↔ AreFewVlans (map vlans_in (port_tables (document_of self.now))) }
    {
        are_few_vlans(self.vlans)
    }
}

// Whether each table has only keys that it may have.
fn have_only(keys: &KeyNames, tables: &[&Table]) -> bool
    ensures { IsTrue result ↔ All (λ t. HasOnly (keys_of keys.now) (table_view t.now)) tables.now }
{
    for table in tables {
        if !keys.has_only(table) {
            return false;
        }
    }
    true
}

fn have_kinds(keys: &KeyNames, tables: &[&Table]) -> bool
    ensures { IsTrue result ↔ All (λ t. HasKinds (keys_of keys.now) (table_view t.now)) tables.now }
{
    for table in tables {
        if !keys.has_kinds(table) {
            return false;
        }
    }
    true
}

fn have_required(keys: &KeyNames, tables: &[&Table]) -> bool
    ensures { IsTrue result ↔ All (λ t. HasRequired (keys_of keys.now) (table_view t.now)) tables.now }
{
    for table in tables {
        if !keys.has_required(table) {
            return false;
        }
    }
    true
}

// Whether control's input and output stand together.
fn has_both_controls(document: &Table) -> bool
    ensures { IsTrue result ↔ HasBothControls (table_view document.now) }
{
    text_at(document, "control").is_some() == text_at(document, "control_out").is_some()
}

// Whether the switch's own address, if there is one, is a MAC address without the group bit.
fn has_switch_mac(document: &Table) -> bool
    ensures { IsTrue result ↔ IfSome (text_at (codes "mac") (table_view document.now)) IsSwitchMac }
{
    match text_at(document, "mac") {
        Some(text) => is_switch_mac(text),
        None => true,
    }
}

fn is_switch_mac(text: &str) -> bool
    ensures { IsTrue result ↔ IsSwitchMac text.now }
{
    match read_mac(text.as_bytes()) {
        Some(mac) => !mac.is_group(),
        None => false,
    }
}
