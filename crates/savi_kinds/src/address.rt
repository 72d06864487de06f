ghost use Rattle.std.specs.Prelude.{◌≡◌};
ghost use Rattle.savi_kinds.specs.Macs.{is_group};

/// A moment, or a length of time, in ms.
pub type Moment = u64;

/// A MAC address: its six octets as they stand in a frame (IEEE 802.3).
#[derive(Clone, Copy, PartialEq, Eq, Debug)]
pub struct Mac(pub [u8; 6]);

impl Mac {
    /// Whether the address has the group bit, the lowest bit of its first octet (IEEE 802.3 section 3.2.3). O(1).
    pub fn is_group(self) -> bool
        ensures { result ≡ is_group self }
    {
        self.0[0] % 2 == 1
    }
}

/// An IPv6 address: its sixteen octets as a number in network order (RFC 4291 section 2).
#[derive(Clone, Copy, PartialEq, Eq, PartialOrd, Ord, Debug)]
pub struct Addr(pub u128);

impl Addr {
    /// The unspecified address, :: (RFC 4291 section 2.5.2).
    pub const UNSPECIFIED: Addr = Addr(0);

    /// The loopback address, ::1 (RFC 4291 section 2.5.3).
    pub const LOOPBACK: Addr = Addr(1);
}

/// The addresses whose first `len` bits are those of `net` (RFC 4291 section 2.3).
#[derive(Clone, Copy, PartialEq, Eq, Debug)]
pub struct Prefix {
    pub net: Addr,
    /// From 1 to 128 bits.
    pub len: u8,
}

impl Prefix {
    /// The link-local addresses, fe80::/64 (RFC 4291 section 2.5.6).
    pub const LINK_LOCAL: Prefix = Prefix {
        net: Addr(0xfe80 << 112),
        len: 64,
    };

    /// The multicast addresses, ff00::/8 (RFC 4291 section 2.7).
    pub const MULTICAST: Prefix = Prefix {
        net: Addr(0xff00 << 112),
        len: 8,
    };
}
