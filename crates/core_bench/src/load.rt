//! What a switch has to do.

/// How much of each of its bounds a switch has reached.
#[derive(Clone, Copy)]
pub enum Part {
    /// A tenth at most.
    Tenth,
    All,
}

impl Part {
    /// What it is called.
    pub fn name(self) -> &'static str {
        match self {
            Part::Tenth => "tenth",
            Part::All => "all",
        }
    }

    /// How many addresses a port may hold, in decimal.
    pub fn per_port(self) -> &'static str {
        match self {
            Part::Tenth => "6",
            Part::All => "64",
        }
    }

    /// The first number for a tenth, and the second one for all.
    pub fn of(self, tenth: u64, all: u64) -> u64 {
        match self {
            Part::Tenth => tenth,
            Part::All => all,
        }
    }
}

/// The first so many ports of a switch are those of hosts, and the others trusted; they are of the first so many VLANs in
/// turn. So many addresses are bound, stations known at each port and requests of DHCPv6 open; and sources are validated, or
/// they aren't.
#[derive(Clone, Copy)]
pub struct Load {
    pub part: Part,
    pub ports: u8,
    pub hosts: u8,
    pub vlans: u8,
    pub addresses: u64,
    pub stations_a_port: u64,
    pub requests: u64,
    pub validates: bool,
}

impl Load {
    /// One VLAN of sixteen ports, eight of which are those of hosts: 512 addresses and 4,096 stations are all.
    pub fn new(part: Part) -> Load {
        Load {
            part,
            ports: 16,
            hosts: 8,
            vlans: 1,
            addresses: part.of(48, 512),
            stations_a_port: part.of(25, 256),
            requests: 0,
            validates: true,
        }
    }
}
