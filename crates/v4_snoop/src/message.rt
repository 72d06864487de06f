//! Messages of DHCP.

ghost use Rattle.std.specs.Prelude.{◌≡◌, ◌≤◌, true, length, is_some, List, Some};
ghost use Rattle.std.specs.Option.{option_and_then};
ghost use Rattle.v4_snoop.specs.DhcpOptions.{BootpOption, dhcp_options, first_content, four_octets};
ghost use Rattle.v4_snoop.specs.DhcpMessages.{has_cookie, message_of, message_with, message_type};

use crate::options::{are_whole, first_content, four_octets, one_octet};
use byteorder::{BigEndian, ByteOrder};

/// Where the fields of a message stand (RFC 2131 section 2).
const OP_AT: usize = 0;

const HLEN_AT: usize = 2;

const XID_AT: usize = 4;

const CIADDR_AT: usize = 12;

const YIADDR_AT: usize = 16;

const CHADDR_AT: usize = 28;

/// Where the magic cookie stands, behind the fixed part (RFC 2131 section 3).
const COOKIE_AT: usize = 236;

/// Where the options begin.
const OPTIONS_AT: usize = 240;

/// The first four octets of the field of options (RFC 2131 section 3).
const MAGIC_COOKIE: u32 = 0x6382_5363;

/// Codes of options: the address that is asked for, the time of a lease, and the type of the message (RFC 2132 sections
/// 9.1, 9.2 and 9.6).
const REQUESTED_ADDRESS: u8 = 50;

const LEASE_TIME: u8 = 51;

const MESSAGE_TYPE: u8 = 53;

/// A message by what a switch sees in it (RFC 2131 section 2).
#[derive(Clone, Copy)]
pub(crate) struct Message {
    /// 1 from a client, 2 to one.
    pub op: u8,
    /// The octets of the client's hardware address.
    pub hlen: u8,
    /// The transaction id.
    pub xid: u32,
    /// The client's address, where it has one.
    pub ciaddr: u32,
    /// The address that the client is given.
    pub yiaddr: u32,
    /// The client's hardware address, by its first six octets.
    pub chaddr: u64,
    /// The type of the message (RFC 2132 section 9.6).
    pub kind: u8,
    /// The address that the client asks for.
    pub requested: Option<u32>,
    /// The time of the lease in seconds.
    pub seconds: Option<u32>,
}

/// The message that a datagram carries: None exactly where it carries none that can be read. O(n).
pub(crate) fn read_message(payload: &[u8]) -> Option<Message>
    ensures { result ≡ message_of payload.now }
{
    if !has_cookie(payload) {
        return None;
    }
    let options = &payload[OPTIONS_AT..];
    if !are_whole(options) {
        return None;
    }
    match message_type(options) {
        Some(kind) => Some(message_with(payload, options, kind)),
        None => None,
    }
}

// Whether the fixed part is there, and behind it the magic cookie.
fn has_cookie(payload: &[u8]) -> bool
    ensures value { result ≡ has_cookie payload.now }
    ensures long { result ≡ true → 240 ≤ length payload.now }
{
    payload.len() >= OPTIONS_AT && BigEndian::read_u32(&payload[COOKIE_AT..]) == MAGIC_COOKIE
}

// A message of this type, with its options.
fn message_with(payload: &[u8], options: &[u8], kind: u8) -> Message
    requires long { 240 ≤ length payload.now }
    requires whole { is_some (dhcp_options options.now) ≡ true }
    ensures { (read : List BootpOption) → dhcp_options options.now ≡ Some read → result ≡ message_with payload.now read kind }
{
    Message {
        op: payload[OP_AT],
        hlen: payload[HLEN_AT],
        xid: BigEndian::read_u32(&payload[XID_AT..]),
        ciaddr: BigEndian::read_u32(&payload[CIADDR_AT..]),
        yiaddr: BigEndian::read_u32(&payload[YIADDR_AT..]),
        chaddr: BigEndian::read_u48(&payload[CHADDR_AT..]),
        kind,
        requested: number_in(options, REQUESTED_ADDRESS),
        seconds: number_in(options, LEASE_TIME),
    }
}

// The type of the message with these options.
fn message_type(options: &[u8]) -> Option<u8>
    requires { is_some (dhcp_options options.now) ≡ true }
    ensures { result ≡ option_and_then message_type (dhcp_options options.now) }
{
    match first_content(options, MESSAGE_TYPE) {
        Some(content) => one_octet(content),
        None => None,
    }
}

// The number in the first of these options with a code, where it has four octets.
fn number_in(options: &[u8], code: u8) -> Option<u32>
    requires whole { is_some (dhcp_options options.now) ≡ true }
    requires code { 1 ≤ code }
    ensures { result ≡ option_and_then (λ read. option_and_then four_octets (first_content code read)) (dhcp_options options.now) }
{
    match first_content(options, code) {
        Some(content) => four_octets(content),
        None => None,
    }
}
