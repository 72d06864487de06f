//! A configuration is read: its text, its faults, its plan.
ghost use Rattle.std.specs.List.Sorted.{IsStrictlyIncreasing};
ghost use Rattle.std.specs.Prelude.{◌≡◌, ◌≤◌, ◌⊎◌, All, AllPairs, IfOk, codes, length, option_map};
ghost use Rattle.savi_conf.specs.Answers.{IsAnswer, IsPlanAnswer};
ghost use Rattle.savi_conf.specs.Documents.{text_at};
ghost use Rattle.savi_conf.specs.Parts.{AreParts, document_of};
ghost use Rattle.savi_conf.specs.PlanOf.{IsPlanOf, IsPortOf, IsPrefixOf, Lists};
ghost use Rattle.savi_conf.specs.Requirements.{HasBothControls, Meets, port_tables, prefix_tables};
ghost use Rattle.savi_conf.specs.declared.fault.Fault.{Fault};
ghost use Rattle.savi_kinds.specs.ValidPlan.{HasPlanVlans, IsPlanPrefix, IsValidPlan, StandsBefore, nets_of, numbers_of};
ghost use Rattle.savi_kinds.specs.Vlans.{IsVlan, vlans_of_ports};
ghost use Rattle.toml.specs.Errors.{IsMemory};
ghost use Rattle.toml.specs.View.{table_view};

use crate::document::{tables_at, text_at};
use crate::fault::ConfFault;
use crate::lists::{port_plans, prefix_plans};
use crate::numbers::{
    BYTES_DEFAULT, DEPTH_DEFAULT, ENTRIES_DEFAULT, GAP_DEFAULT_MS, LIFE_DEFAULT_S,
    PER_PORT_DEFAULT, TEST_DEFAULT_MS,
};
use crate::parts::Parts;
use crate::plan::{drops_unknown, is_savi_on, natural_at, small_at, switch_mac, text};
use crate::vlans::vlans_of_each;
use savi_kinds::{Plan, PortPlans, PrefixPlans, Text};
use std::alloc::{AllocError, Global};
use toml::Table;

/// The most octets of a configuration.
pub const OCTETS_MOST: usize = 65_536;

const MS_IN_A_SECOND: u64 = 1_000;

// The number of the fault that a text is too long.
const TOO_LONG: u8 = 1;

/// Reads a configuration: a document of TOML of at most `OCTETS_MOST` octets, for a replay of captures where `replay`
/// says so.
///
/// `docs/CONFIGURATION.md` has the keys and the numbers of the faults. The plan's ports are in rising order of number, its
/// prefixes in rising order of VLAN and address, and the VLANs of a trunk in rising order. Of several faults the one with the
/// least number is answered. Beside the cost of the reader of TOML this is O(n²) in the number of ports, of prefixes and of
/// VLANs.
///
/// # Errors
///
/// `NoMemory` where an allocation failed; `NotToml` where the text is no document of TOML, or isn't UTF-8; `Bad` with the
/// least number of a fault.
pub fn read_plan(alloc: Global, text: &[u8], replay: bool) -> Result<Plan, ConfFault>
    ensures { IsAnswer text.now replay result }
{
    if text.len() > OCTETS_MOST {
        return Err(ConfFault::Bad(TOO_LONG));
    }
    match toml::table_from_slice(alloc, text) {
        Ok(document) => plan_in(alloc, &document, replay),
        Err(error) => Err(fault_of(&error)),
    }
}

// What stopped the reader of TOML.
fn fault_of(error: &toml::de::Error) -> ConfFault
    ensures { (result ≡ ConfFault.NoMemory) ⊎ ((result ≡ ConfFault.NotToml) × (¬ IsMemory error.now)) }
{
    if error.is_memory() {
        ConfFault::NoMemory
    } else {
        ConfFault::NotToml
    }
}

// The plan that a document says, or its first fault.
fn plan_in(alloc: Global, document: &Table, replay: bool) -> Result<Plan, ConfFault>
    ensures { IsPlanAnswer (table_view document.now) replay result }
{
    let Ok(ports) = tables_at(alloc, document, "port") else {
        return Err(ConfFault::NoMemory);
    };
    let Ok(prefixes) = tables_at(alloc, document, "prefix") else {
        return Err(ConfFault::NoMemory);
    };
    let Ok(vlans) = vlans_of_each(alloc, ports.as_slice()) else {
        return Err(ConfFault::NoMemory);
    };
    let parts = Parts {
        document,
        ports: ports.as_slice(),
        prefixes: prefixes.as_slice(),
        vlans: vlans.as_slice(),
        replay,
    };
    match parts.first_fault() {
        Some(fault) => Err(ConfFault::Bad(fault.number())),
        None => plan_of(alloc, &parts).map_err(no_memory),
    }
}

fn no_memory(_: AllocError) -> ConfFault
    ensures { result ≡ ConfFault.NoMemory }
{
    ConfFault::NoMemory
}

// The plan of a document that meets every requirement.
fn plan_of(alloc: Global, parts: &Parts<'_>) -> Result<Plan, AllocError>
    requires parts { AreParts parts.now }
    requires meets { (fault : Fault) → Meets parts.now.replay (document_of parts.now) fault }
    ensures says { IfOk result (IsPlanOf (document_of parts.now)) }
    ensures valid { IfOk result IsValidPlan }
{
    let document = parts.document;
    Ok(Plan {
        mac: switch_mac(document),
        savi: is_savi_on(document),
        drop_unknown: drops_unknown(document),
        per_port: small_at(document, "per_port", PER_PORT_DEFAULT),
        depth: small_at(document, "depth", DEPTH_DEFAULT),
        entries: natural_at(document, "entries", ENTRIES_DEFAULT),
        bytes: natural_at(document, "bytes", BYTES_DEFAULT),
        gap: natural_at(document, "probe_gap_ms", GAP_DEFAULT_MS),
        test: natural_at(document, "test_ms", TEST_DEFAULT_MS),
        life: MS_IN_A_SECOND * natural_at(document, "binding_s", LIFE_DEFAULT_S),
        control: control_names(alloc, document)?,
        journal: text(alloc, document, "journal")?,
        ports: ports_of(alloc, parts)?,
        prefixes: prefixes_of(alloc, parts)?,
    })
}

// The names of control's input and output, where there are any.
fn control_names(alloc: Global, document: &Table) -> Result<Option<(Text, Text)>, AllocError>
    requires { HasBothControls (table_view document.now) }
    ensures control { IfOk result (λ names. text_at (codes "control") (table_view document.now) ≡ option_map (λ n. n.0) names) }
    ensures control_out { IfOk result (λ names. text_at (codes "control_out") (table_view document.now) ≡ option_map (λ n. n.1) names) }
{
    if text_at(document, "control").is_none() {
        return Ok(None);
    }
    Ok(Some((
        text(alloc, document, "control")?,
        text(alloc, document, "control_out")?,
    )))
}

// The ports of the plan.
fn ports_of(alloc: Global, parts: &Parts<'_>) -> Result<PortPlans, AllocError>
    requires parts { AreParts parts.now }
    requires meets { (fault : Fault) → Meets parts.now.replay (document_of parts.now) fault }
    ensures lists { IfOk result (Lists IsPortOf (port_tables (document_of parts.now))) }
    ensures order { IfOk result (λ plans. IsStrictlyIncreasing (numbers_of plans)) }
    ensures vlans { IfOk result (All HasPlanVlans) }
    ensures few { IfOk result (λ plans. length (vlans_of_ports plans) ≤ 8) }
{
    Ok(PortPlans::new(port_plans(alloc, parts.ports)?))
}

// The prefixes of the plan.
fn prefixes_of(alloc: Global, parts: &Parts<'_>) -> Result<PrefixPlans, AllocError>
    requires parts { AreParts parts.now }
    requires meets { (fault : Fault) → Meets parts.now.replay (document_of parts.now) fault }
    ensures lists { IfOk result (Lists IsPrefixOf (prefix_tables (document_of parts.now))) }
    ensures planned { IfOk result (λ plans. All IsPlanPrefix (nets_of plans)) }
    ensures vlans { IfOk result (All (λ p. IsVlan p.vlan)) }
    ensures order { IfOk result (AllPairs StandsBefore) }
{
    Ok(PrefixPlans::new(prefix_plans(alloc, parts.prefixes)?))
}
