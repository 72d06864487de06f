ghost use Rattle.std.specs.Prelude.{◌≡◌, ◌≤◌, ◌+◌, ◌↔◌, IsTrue, length, take, drop};
ghost use Rattle.pcap_io.specs.Numbers.{number_at};
ghost use Rattle.pcapng_io.specs.Numbers.{half_at};

use pcap_io::ByteOrder;

// The number in the four octets from this place on.
pub(crate) fn number_at(order: ByteOrder, octets: &[u8], at: usize) -> u32
    requires { at + 4 ≤ length octets.now }
    ensures { result ≡ number_at order at octets.now }
{
    let four = [octets[at], octets[at + 1], octets[at + 2], octets[at + 3]];
    match order {
        ByteOrder::Little => u32::from_le_bytes(four),
        ByteOrder::Big => u32::from_be_bytes(four),
    }
}

// The number in the two octets from this place on.
pub(crate) fn half_at(order: ByteOrder, octets: &[u8], at: usize) -> u16
    requires { at + 2 ≤ length octets.now }
    ensures { result ≡ half_at order at octets.now }
{
    let two = [octets[at], octets[at + 1]];
    match order {
        ByteOrder::Little => u16::from_le_bytes(two),
        ByteOrder::Big => u16::from_be_bytes(two),
    }
}

// Whether these octets have this part at this place.
pub(crate) fn stands_at(octets: &[u8], at: usize, part: &[u8]) -> bool
    requires { at + length part.now ≤ length octets.now }
    ensures { IsTrue result ↔ (take (length part.now) (drop at octets.now) ≡ part.now) }
{
    &octets[at..at + part.len()] == part
}
