// The messages of DHCPv6 and their faults.

ghost use Rattle.std.specs.Prelude.{◌≡◌};

use arrayvec::ArrayVec;
use savi_kinds::Addr;

/// Type of a Solicit (RFC 8415 section 7.3).
pub const SOLICIT: u8 = 1;
/// Type of a Request (RFC 8415 section 7.3).
pub const REQUEST: u8 = 3;
/// Type of a Renew (RFC 8415 section 7.3).
pub const RENEW: u8 = 5;
/// Type of a Rebind (RFC 8415 section 7.3).
pub const REBIND: u8 = 6;
/// Type of a Reply (RFC 8415 section 7.3).
pub const REPLY: u8 = 7;
/// Type of a Release (RFC 8415 section 7.3).
pub const RELEASE: u8 = 8;
/// Type of a Decline (RFC 8415 section 7.3).
pub const DECLINE: u8 = 9;
/// Type of what a relay sends to servers and to other relays (RFC 8415 section 7.3).
pub const RELAY_FORW: u8 = 12;
/// Type of what a relay is sent back (RFC 8415 section 7.3).
pub const RELAY_REPL: u8 = 13;

/// The most octets of a message that is read.
pub const MESSAGE_LEN_MOST: usize = 1456;
/// The most octets of a DUID (RFC 8415 section 11.1).
pub const DUID_LEN_MOST: usize = 130;
/// More leases than there are in any message that is read.
pub const LEASES_MOST: usize = 52;

/// A client's DUID (RFC 8415 section 11.1).
pub type Duid = ArrayVec<u8, DUID_LEN_MOST>;
/// The leases of a message, as they stand in it.
pub type Leases = ArrayVec<Lease, LEASES_MOST>;

/// An address with its valid lifetime (RFC 8415 section 21.6).
#[derive(Clone, Copy, PartialEq, Eq, Debug)]
pub struct Lease {
    pub address: Addr,
    /// In seconds; 0xffff_ffff stands for ever (RFC 8415 section 7.7).
    pub valid: u32,
}

impl Default for Lease {
    ghost is_default = { λ lease. (lease.address.0 ≡ 0) × (lease.valid ≡ 0) };

    fn default() -> Self {
        Lease {
            address: Addr(0),
            valid: 0,
        }
    }
}

/// A message by what an access switch sees in it (RFC 8415 sections 8, 9).
#[derive(PartialEq, Eq, Debug, Drop)]
pub struct Dhcp {
    /// The type of the message (RFC 8415 section 7.3).
    pub kind: u8,
    /// The transaction id, 24 bits.
    pub tid: u32,
    /// The first client identifier (RFC 8415 section 21.2).
    pub duid: Option<Duid>,
    /// It has a rapid commit option (RFC 8415 section 21.14).
    pub rapid: bool,
    /// The addresses in the message that no status voids.
    pub leases: Leases,
}

/// Why a message is refused: the fault of the option that begins first, among those that are at fault.
#[derive(Clone, Copy, PartialEq, Eq, Debug)]
pub enum DhcpFault {
    /// The message has fewer than 4 octets (RFC 8415 section 8).
    Short,
    /// What is left of a message, an IA or an address is no whole option (RFC 8415 section 21.1).
    Overrun,
    /// An IA_NA has fewer than 12 octets or an IA_TA fewer than 4 (RFC 8415 sections 21.4, 21.5).
    Ia,
    /// An address has fewer than 24 octets (RFC 8415 section 21.6).
    Address,
    /// A DUID has fewer than 3 octets or more than 130 (RFC 8415 section 11.1).
    Duid,
    /// A status has fewer than 2 octets (RFC 8415 section 21.13).
    Status,
}
