use crate::address::{Mac, Prefix};
use crate::limits::VLANS_MOST;
use crate::port::Port;
use crate::text::Text;
use arrayvec::ArrayVec;
use std::marker::Model;

/// Whom a port connects.
#[derive(Clone, Copy, PartialEq, Eq, Debug)]
pub enum Role {
    /// A host: its source addresses are validated, and it may be neither a router nor a DHCPv6 server.
    Host,
    /// A DHCPv6 server, which is validated like a host.
    Server,
    /// A router or another switch, which isn't validated.
    Trusted,
}

/// How an address of a prefix is assigned.
#[derive(Clone, Copy, PartialEq, Eq, Debug)]
pub enum Method {
    /// First come, first served, after RFC 6620.
    Fcfs,
    /// By DHCPv6, after RFC 7513.
    Dhcp,
    /// Both, after RFC 8074.
    Mixed,
}

/// The form of a port's input and output.
#[derive(Clone, Copy, PartialEq, Eq, Debug)]
pub enum Format {
    /// A capture file.
    Pcap,
    /// Frames with a length in front of each.
    Stream,
}

/// The VLANs of a port (IEEE 802.1Q): of an access port one, of a trunk those that it lists.
#[derive(PartialEq, Eq, Debug, Drop)]
pub enum Vlan {
    /// Frames have no tag here, and are of this VLAN.
    Access(u16),
    /// Frames have the tag of their VLAN here, which is one of these, in rising order.
    Trunk(ArrayVec<u16, VLANS_MOST>),
}

/// A port of a plan.
#[derive(Drop)]
pub struct PortPlan {
    pub number: Port,
    pub role: Role,
    pub format: Format,
    pub input: Text,
    pub output: Text,
    pub vlan: Vlan,
}

/// A prefix of a plan.
#[derive(Clone, Copy, PartialEq, Eq, Debug)]
pub struct PrefixPlan {
    pub prefix: Prefix,
    pub method: Method,
    /// The VLAN whose addresses these are.
    pub vlan: u16,
}

/// The ports of a plan, seen by contracts as a list.
#[derive(Drop)]
pub struct PortPlans {
    items: Vec<PortPlan>,
}

impl Model for PortPlans {
    ghost use Rattle.std.specs.Prelude.{List};
    ghost use Rattle.savi_kinds.specs.declared.plan.PortPlan.{PortPlan};

    ghost Value = { List PortPlan };

    ghost view = { λ p. p.items.items };
}

impl PortPlans {
    ghost use Rattle.std.specs.Prelude.{◌≡◌};

    pub fn new(v: Vec<PortPlan>) -> PortPlans
        ensures { result ≡ v.items }
    {
        PortPlans { items: v }
    }

    pub fn as_slice(&self) -> &[PortPlan]
        ensures { result.now ≡ self.now }
    {
        self.items.as_slice()
    }
}

/// The prefixes of a plan, seen by contracts as a list.
#[derive(Drop)]
pub struct PrefixPlans {
    items: Vec<PrefixPlan>,
}

impl Model for PrefixPlans {
    ghost use Rattle.std.specs.Prelude.{List};
    ghost use Rattle.savi_kinds.specs.declared.plan.PrefixPlan.{PrefixPlan};

    ghost Value = { List PrefixPlan };

    ghost view = { λ p. p.items.items };
}

impl PrefixPlans {
    ghost use Rattle.std.specs.Prelude.{◌≡◌};

    pub fn new(v: Vec<PrefixPlan>) -> PrefixPlans
        ensures { result ≡ v.items }
    {
        PrefixPlans { items: v }
    }

    pub fn as_slice(&self) -> &[PrefixPlan]
        ensures { result.now ≡ self.now }
    {
        self.items.as_slice()
    }
}

/// What a switch is to do: the configuration that was read.
#[derive(Drop)]
pub struct Plan {
    /// The switch's own address, the source of its probes.
    pub mac: Mac,
    /// Whether source addresses are validated; if not, only messages are guarded.
    pub savi: bool,
    /// Whether a packet with an unknown next header is dropped.
    pub drop_unknown: bool,
    /// How many addresses a port may hold.
    pub per_port: u32,
    /// How many items may wait at a port.
    pub depth: u32,
    /// How many entries the history may have.
    pub entries: u64,
    /// How many octets of frames and command lines the history may keep.
    pub bytes: u64,
    /// The wait from the first probe to the second, in ms.
    pub gap: u64,
    /// How long an address is tested, in ms.
    pub test: u64,
    /// How long a binding lives, in ms.
    pub life: u64,
    /// The names of control's input and output.
    pub control: Option<(Text, Text)>,
    /// The name of the journal.
    pub journal: Text,
    pub ports: PortPlans,
    pub prefixes: PrefixPlans,
}
