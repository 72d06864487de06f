ghost use Rattle.std.specs.Prelude.{◌≡◌, ◌≤◌, ◌+◌, ◌↔◌, IsTrue, length, take, drop};
ghost use Rattle.std.specs.Int.{w16, w32};
ghost use Rattle.pcap_io.specs.Numbers.{octets_of, number_at};
ghost use Rattle.pcap_io.specs.Kinds.{magic_of, IsHeader};
ghost use Rattle.pcap_io.specs.Records.{units_per_ms};

/// The octets of a capture's header.
pub(crate) const HEADER_OCTETS: usize = 24;

/// The magic of a header whose stamps have microseconds (libpcap savefile format).
const MAGIC_MICROSECONDS: u32 = 0xa1b2_c3d4;

/// The magic of a header whose stamps have nanoseconds (libpcap savefile format).
const MAGIC_NANOSECONDS: u32 = 0xa1b2_3c4d;

/// The version of the format: 2.4.
const VERSION_MAJOR: u16 = 2;

const VERSION_MINOR: u16 = 4;

/// The link type of Ethernet, LINKTYPE_ETHERNET.
const LINK_TYPE_ETHERNET: u32 = 1;

/// The order of the octets of each number in a capture.
#[derive(Clone, Copy, PartialEq, Eq, Debug)]
pub enum ByteOrder {
    /// The lowest octet comes first.
    Little,
    /// The highest octet comes first.
    Big,
}

impl ByteOrder {
    // The number in the four octets from this place on.
    pub(crate) fn number_at(self, octets: &[u8], at: usize) -> u32
        requires { at + 4 ≤ length octets.now }
        ensures { result ≡ number_at self at octets.now }
    {
        let four = [octets[at], octets[at + 1], octets[at + 2], octets[at + 3]];
        match self {
            ByteOrder::Little => u32::from_le_bytes(four),
            ByteOrder::Big => u32::from_be_bytes(four),
        }
    }

    fn four_octets(self, number: u32) -> [u8; 4]
        ensures { result ≡ octets_of self w32 number }
    {
        match self {
            ByteOrder::Little => number.to_le_bytes(),
            ByteOrder::Big => number.to_be_bytes(),
        }
    }

    fn two_octets(self, number: u16) -> [u8; 2]
        ensures { result ≡ octets_of self w16 number }
    {
        match self {
            ByteOrder::Little => number.to_le_bytes(),
            ByteOrder::Big => number.to_be_bytes(),
        }
    }
}

/// The unit of the fraction of a second in a stamp.
#[derive(Clone, Copy, PartialEq, Eq, Debug)]
pub enum TimeUnit {
    Microseconds,
    Nanoseconds,
}

impl TimeUnit {
    fn magic(self) -> u32
        ensures { result ≡ magic_of self }
    {
        match self {
            TimeUnit::Microseconds => MAGIC_MICROSECONDS,
            TimeUnit::Nanoseconds => MAGIC_NANOSECONDS,
        }
    }

    // How many of this unit are a millisecond.
    pub(crate) fn per_ms(self) -> u32
        ensures { result ≡ units_per_ms self }
    {
        match self {
            TimeUnit::Microseconds => 1_000,
            TimeUnit::Nanoseconds => 1_000_000,
        }
    }
}

/// A kind of header: the byte order and the unit of stamps of the file, which its magic tells.
#[derive(Clone, Copy, PartialEq, Eq, Debug)]
pub struct HeaderKind {
    pub order: ByteOrder,
    pub unit: TimeUnit,
}

impl HeaderKind {
    // Whether these octets are a header of this kind, for a capture of Ethernet frames.
    pub(crate) fn is_header(self, header: &[u8; HEADER_OCTETS]) -> bool
        ensures { IsTrue result ↔ IsHeader self header.now }
    {
        let order = self.order;
        let magic = order.four_octets(self.unit.magic());
        let major = order.two_octets(VERSION_MAJOR);
        let minor = order.two_octets(VERSION_MINOR);
        let link_type = order.four_octets(LINK_TYPE_ETHERNET);
        stands_at(header, 0, &magic)
            && stands_at(header, 4, &major)
            && stands_at(header, 6, &minor)
            && stands_at(header, 20, &link_type)
    }
}

// Whether these octets have this part at this place.
fn stands_at(octets: &[u8], at: usize, part: &[u8]) -> bool
    requires { at + length part.now ≤ length octets.now }
    ensures { IsTrue result ↔ (take (length part.now) (drop at octets.now) ≡ part.now) }
{
    &octets[at..at + part.len()] == part
}
