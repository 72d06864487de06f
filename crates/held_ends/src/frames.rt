//! What the ports bring.

/// How many octets a record of a stream has here: 4 for its length, and those of its frame.
pub(crate) const RECORD_OCTETS: usize = 19;

/// The frames of the ports: to all stations, from one each, of an EtherType for local experiments and with an octet of
/// their own; behind their lengths.
pub const FIRST_OF_1: [u8; RECORD_OCTETS] = [
    0, 0, 0, 15, 255, 255, 255, 255, 255, 255, 2, 0, 0, 0, 0, 0x11, 0x88, 0xb5, 0x11,
];

pub const SECOND_OF_1: [u8; RECORD_OCTETS] = [
    0, 0, 0, 15, 255, 255, 255, 255, 255, 255, 2, 0, 0, 0, 0, 0x11, 0x88, 0xb5, 0x12,
];

pub const FIRST_OF_2: [u8; RECORD_OCTETS] = [
    0, 0, 0, 15, 255, 255, 255, 255, 255, 255, 2, 0, 0, 0, 0, 0x22, 0x88, 0xb5, 0x21,
];

pub const SECOND_OF_2: [u8; RECORD_OCTETS] = [
    0, 0, 0, 15, 255, 255, 255, 255, 255, 255, 2, 0, 0, 0, 0, 0x22, 0x88, 0xb5, 0x22,
];

pub const FIRST_OF_3: [u8; RECORD_OCTETS] = [
    0, 0, 0, 15, 255, 255, 255, 255, 255, 255, 2, 0, 0, 0, 0, 0x33, 0x88, 0xb5, 0x31,
];

pub const SECOND_OF_3: [u8; RECORD_OCTETS] = [
    0, 0, 0, 15, 255, 255, 255, 255, 255, 255, 2, 0, 0, 0, 0, 0x33, 0x88, 0xb5, 0x32,
];
