//! The plan of a load.

ghost use Rattle.std.specs.Prelude.{◌≡◌, ◌≤◌, map, IfOk};
ghost use Rattle.savi_kinds.specs.ValidPlan.{IsValidPlan};
ghost use Rattle.load_gen.specs.LoadPlan.{IsLoadPlan, said, captured, site, load_ports, load_prefixes};

use savi_kinds::{
    Addr, DEFAULT_VLAN, Format, Mac, Method, Plan, Port, PortPlan, PortPlans, Prefix, PrefixPlan,
    PrefixPlans, Role, Text, Vlan,
};
use std::alloc::{AllocError, Global};

/// 2001:db8::/32 (RFC 3849).
const DOCUMENTATION: u128 = 0x2001_0db8 << 96;

// The plan, with the numbers of a configuration that names none but that of the entries.
pub(crate) fn load_plan(alloc: Global) -> Result<Plan, AllocError>
    ensures load { IfOk result IsLoadPlan }
    ensures valid { IfOk result IsValidPlan }
{
    Ok(Plan {
        mac: Mac([0x02, 0, 0, 0, 0, 0x01]),
        savi: true,
        drop_unknown: true,
        per_port: 32,
        depth: 256,
        entries: 1_000_000,
        bytes: 67_108_864,
        gap: 250,
        test: 500,
        life: 300_000,
        control: None,
        journal: Text::new(String::from_str(alloc, "journal.txt")?),
        ports: ports(alloc)?,
        prefixes: prefixes(alloc)?,
    })
}

fn ports(alloc: Global) -> Result<PortPlans, AllocError>
    ensures { IfOk result (λ ports. map said ports ≡ load_ports) }
{
    let mut ports = Vec::with_capacity(alloc, 5)?;
    ports.push(port(alloc, 1, Role::Host, "1.pcap", "1.out")?)?;
    ports.push(port(alloc, 2, Role::Host, "2.pcap", "2.out")?)?;
    ports.push(port(alloc, 3, Role::Host, "3.pcap", "3.out")?)?;
    ports.push(port(alloc, 4, Role::Trusted, "4.pcap", "4.out")?)?;
    ports.push(port(alloc, 5, Role::Server, "5.pcap", "5.out")?)?;
    Ok(PortPlans::new(ports))
}

// An access port of VLAN 1 whose input and output are captures.
fn port(
    alloc: Global,
    number: u8,
    role: Role,
    input: &str,
    output: &str,
) -> Result<PortPlan, AllocError>
    requires low { 1 ≤ number }
    requires high { number ≤ 16 }
    ensures { IfOk result (λ p. said p ≡ captured number role input.now output.now) }
{
    let Some(number) = Port::new(number) else {
        unreachable!();
    };
    Ok(PortPlan {
        number,
        role,
        format: Format::Pcap,
        input: Text::new(String::from_str(alloc, input)?),
        output: Text::new(String::from_str(alloc, output)?),
        vlan: Vlan::Access(DEFAULT_VLAN),
    })
}

fn prefixes(alloc: Global) -> Result<PrefixPlans, AllocError>
    ensures { IfOk result (λ prefixes. prefixes ≡ load_prefixes) }
{
    let mut prefixes = Vec::with_capacity(alloc, 3)?;
    prefixes.push(site(1, Method::Fcfs))?;
    prefixes.push(site(2, Method::Dhcp))?;
    prefixes.push(site(3, Method::Mixed))?;
    Ok(PrefixPlans::new(prefixes))
}

// 2001:db8:N::/64, in VLAN 1.
fn site(n: u8, method: Method) -> PrefixPlan
    ensures { result ≡ site n method }
{
    PrefixPlan {
        prefix: Prefix {
            net: Addr(DOCUMENTATION + (u128::from(n) << 80)),
            len: 64,
        },
        method,
        vlan: DEFAULT_VLAN,
    }
}
