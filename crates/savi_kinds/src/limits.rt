//! The limits of a switch and of its plan.

/// The most ports of a switch.
pub const PORTS_MOST: usize = 16;

/// The most prefixes of a plan.
pub const PREFIXES_MOST: usize = 32;

/// The most addresses that one port may hold.
pub const PER_PORT_MOST: u32 = 64;

/// The most items that wait at one port.
pub const DEPTH_MOST: u32 = 256;

/// How many entries of a history are kept free for drains and ends: 16 times 256 drains, and 34 ends.
pub const ENTRIES_RESERVED: u64 = 4_130;

/// The least number of entries of a history that a plan may allow.
pub const ENTRIES_LEAST: u64 = 4_131;

/// The greatest number of entries of a history that a plan may allow.
pub const ENTRIES_MOST: u64 = 1_000_000;

/// The octets of a frame's header: two MAC addresses and an EtherType (IEEE 802.3 section 3.2). No shorter frame is taken.
pub const FRAME_OCTETS_LEAST: usize = 14;

/// The octets of the longest frame that is taken, without its check sequence: a header and 1,500 octets of payload, with 4
/// more for a tag (IEEE 802.3).
pub const FRAME_OCTETS_MOST: usize = 1_518;

/// The octets of the longest frame that is sent: the longest that is taken, with the 4 of a tag that a trunk adds (IEEE
/// 802.1Q section 9.3).
pub const FRAME_OCTETS_OUT_MOST: usize = 1_522;

/// The most VLANs of a plan, over all ports, and so of a trunk.
pub const VLANS_MOST: usize = 8;

/// The greatest number of a VLAN; the least one is 1. A tag with 0 names no VLAN, and 4,095 is reserved (IEEE 802.1Q table
/// 9-2).
pub const VLAN_MOST: u16 = 4_094;

/// The VLAN of a port, a prefix or an address for which none is named (IEEE 802.1Q table 9-2).
pub const DEFAULT_VLAN: u16 = 1;

/// The most octets of frames and command lines that a history may keep.
pub const BYTES_MOST: u64 = 1_073_741_824;

/// The longest wait for a second probe, in ms.
pub const GAP_MOST_MS: u64 = 59_999;

/// The shortest test of an address, in ms.
pub const TEST_LEAST_MS: u64 = 2;

/// The longest test of an address, in ms.
pub const TEST_MOST_MS: u64 = 60_000;

/// The longest life of a binding, in s.
pub const LIFE_MOST_S: u64 = 86_400;

/// The octets of the longest line of control.
pub const CONTROL_LINE_OCTETS: usize = 120;

/// The last moment (ms) of a history: 2^62.
pub const LAST_MOMENT: u64 = 1 << 62;
