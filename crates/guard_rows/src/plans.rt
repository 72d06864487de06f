//! The plans of histories.

ghost use Rattle.std.specs.Prelude.{◌≤◌, IfOk};

use crate::frames::port_of;
use anyhow::bail;
use savi_kinds::{
    DEFAULT_VLAN, Format, Mac, Method, PER_PORT_MOST, Plan, PortPlan, PortPlans, PrefixPlan,
    PrefixPlans, Role, Text, Vlan, Vlans, add_vlan, read_prefix,
};
use std::alloc::Global;

/// Another VLAN than the default one.
const OTHER_VLAN: u16 = 20;

/// A plan in which port 1 is a host's and port 2 trusted, with this prefix, or none where nothing is written. Port 3 is a
/// host's in another VLAN, port 4 a trunk of both VLANs, and 2001:db8:20::/64 a prefix of the other one.
pub fn learn_plan(alloc: Global, prefix: &str) -> anyhow::Result<Plan> {
    let prefixes = prefixes_of(alloc, prefix)?;
    let mut ports = Vec::new(alloc);
    ports.push(port(alloc, "1", Role::Host, Vlan::Access(DEFAULT_VLAN))?)?;
    ports.push(port(alloc, "2", Role::Trusted, Vlan::Access(DEFAULT_VLAN))?)?;
    ports.push(port(alloc, "3", Role::Host, Vlan::Access(OTHER_VLAN))?)?;
    ports.push(port(alloc, "4", Role::Trusted, trunk())?)?;
    let journal = Text::new(String::from_str(alloc, "journal.txt")?);
    Ok(plan(PortPlans::new(ports), prefixes, journal, 32))
}

/// A plan in which ports 1 and 3 are hosts', port 2 is trusted and port 4 a server's; in another VLAN port 5 is a host's and
/// port 6 trusted; port 7 is a trunk of both VLANs. A port may have so many addresses.
pub fn snoop_plan(alloc: Global, per_port: u32) -> anyhow::Result<Plan>
    ensures { IfOk result (λ plan. plan.per_port ≤ 64) }
{
    if per_port > PER_PORT_MOST {
        bail!("no number of addresses: {per_port}");
    }
    let mut ports = Vec::new(alloc);
    ports.push(port(alloc, "1", Role::Host, Vlan::Access(DEFAULT_VLAN))?)?;
    ports.push(port(alloc, "2", Role::Trusted, Vlan::Access(DEFAULT_VLAN))?)?;
    ports.push(port(alloc, "3", Role::Host, Vlan::Access(DEFAULT_VLAN))?)?;
    ports.push(port(alloc, "4", Role::Server, Vlan::Access(DEFAULT_VLAN))?)?;
    ports.push(port(alloc, "5", Role::Host, Vlan::Access(OTHER_VLAN))?)?;
    ports.push(port(alloc, "6", Role::Trusted, Vlan::Access(OTHER_VLAN))?)?;
    ports.push(port(alloc, "7", Role::Trusted, trunk())?)?;
    let journal = Text::new(String::from_str(alloc, "journal.txt")?);
    let prefixes = PrefixPlans::new(Vec::new(alloc));
    Ok(plan(PortPlans::new(ports), prefixes, journal, per_port))
}

// A trunk of both VLANs.
fn trunk() -> Vlan {
    let mut vlans = Vlans::new();
    add_vlan(&mut vlans, DEFAULT_VLAN);
    add_vlan(&mut vlans, OTHER_VLAN);
    Vlan::Trunk(vlans)
}

// The prefix that a text writes, or none where nothing is written, and one of the other VLAN.
fn prefixes_of(alloc: Global, text: &str) -> anyhow::Result<PrefixPlans> {
    let mut prefixes = Vec::new(alloc);
    if !text.is_empty() {
        prefixes.push(prefix(text, DEFAULT_VLAN)?)?;
    }
    prefixes.push(prefix("2001:db8:20::/64", OTHER_VLAN)?)?;
    Ok(PrefixPlans::new(prefixes))
}

// The prefix that a text writes, of a VLAN.
fn prefix(text: &str, vlan: u16) -> anyhow::Result<PrefixPlan> {
    match read_prefix(text.as_bytes()) {
        Some(prefix) => Ok(PrefixPlan {
            prefix,
            method: Method::Fcfs,
            vlan,
        }),
        None => bail!("no prefix: {text}"),
    }
}

// A port that reads and writes nothing here.
fn port(alloc: Global, number: &str, role: Role, vlan: Vlan) -> anyhow::Result<PortPlan> {
    Ok(PortPlan {
        number: port_of(number)?,
        role,
        format: Format::Pcap,
        input: Text::new(String::from_str(alloc, "in")?),
        output: Text::new(String::from_str(alloc, "out")?),
        vlan,
    })
}

// The plan with these, and what else stands in one.
fn plan(ports: PortPlans, prefixes: PrefixPlans, journal: Text, per_port: u32) -> Plan
    requires { per_port ≤ 64 }
    ensures { result.per_port ≤ 64 }
{
    Plan {
        mac: Mac([0x02, 0, 0, 0, 0, 0x01]),
        savi: true,
        drop_unknown: true,
        per_port,
        depth: 256,
        entries: 262_144,
        bytes: 67_108_864,
        gap: 250,
        test: 500,
        life: 300_000,
        control: None,
        journal,
        ports,
        prefixes,
    }
}
