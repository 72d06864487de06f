ghost use Rattle.std.specs.Prelude.{◌≡◌, ◌≤◌, ◌↔◌, ℕ, IsSome, IfSome, ◌==◌, ◌||◌};

/// The number of a port of the switch, from 1 to 16.
#[derive(Clone, Copy, PartialEq, Eq, PartialOrd, Ord, Debug)]
pub struct Port {
    number: u8,
    pub ghost low: { 1 ≤ number },
    pub ghost high: { number ≤ 16 },
}

impl Port {
    ghost use Rattle.savi_kinds.specs.Ports.{number_of};

    /// The port of this number, or `None` where it isn't from 1 to 16.
    pub fn new(n: u8) -> Option<Port>
        ensures some { IsSome result ↔ ((1 ≤ n) × (n ≤ 16)) }
        ensures value { IfSome result (λ p. number_of p ≡ n) }
    {
        if n >= 1 && n <= 16 {
            Some(Port { number: n })
        } else {
            None
        }
    }

    /// The port's number, from 1 to 16.
    pub fn get(self) -> u8
        ensures value { result ≡ number_of self }
        ensures low { 1 ≤ result }
        ensures high { result ≤ 16 }
    {
        self.number
    }
}

/// A set of ports: bit n - 1 is set where port n is a member.
#[derive(Clone, Copy, PartialEq, Eq, Debug, Default)]
pub struct PortSet(pub u16);

impl PortSet {
    ghost use Rattle.savi_kinds.specs.Ports.{number_of};
    ghost use Rattle.savi_kinds.specs.PortSets.{is_member, with_member, no_ports};

    /// The set without a member.
    pub fn empty() -> PortSet
        ensures { result ≡ no_ports }
    {
        PortSet(0)
    }

    /// Whether the port is a member. O(1).
    pub fn contains(self, port: Port) -> bool
        ensures { result ≡ is_member self (number_of port) }
    {
        self.0 >> (port.number - 1) & 1 == 1
    }

    /// The set with this port as a member too. O(1).
    pub fn with(self, port: Port) -> PortSet
        ensures value { result ≡ with_member self (number_of port) }
        ensures members { (n : ℕ) → 1 ≤ n → is_member result n ≡ (n == number_of port || is_member self n) }
    {
        PortSet(self.0 | 1 << (port.number - 1))
    }
}
