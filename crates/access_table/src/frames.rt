// What a packet says of addresses.

ghost use Rattle.std.specs.Prelude.{◌≡◌, ◌≤◌, length, Option, Some, IfSome};
ghost use Rattle.std.specs.Option.{option_map};
ghost use Rattle.savi_access.specs.Frames.{dad_target, advertised, is_router_solicitation, is_listener_message, dhcp_to, is_asking, asking_duid, answered_duid, gives_up};

use dhcp6_read::{DECLINE, Dhcp, REBIND, RELEASE, RENEW, REPLY, REQUEST, SOLICIT};
use frame_class::Read;
use nd_read::Nd;
use savi_kinds::Addr;
use v6_chain::Ip;

/// The UDP port at which DHCPv6 clients listen (RFC 8415 section 7.2).
pub const DHCP6_CLIENT_PORT: u16 = 546;

/// The UDP port at which DHCPv6 servers and relays listen (RFC 8415 section 7.2).
pub const DHCP6_SERVER_PORT: u16 = 547;

/// ICMPv6 type of a report of a multicast listener (RFC 2710 section 3.1).
const LISTENER_REPORT: u8 = 131;

/// ICMPv6 type by which a multicast listener says that it is done (RFC 2710 section 3.1).
const LISTENER_DONE: u8 = 132;

/// ICMPv6 type of a report of a multicast listener, version 2 (RFC 3810 section 5.2).
const LISTENER_REPORT_2: u8 = 143;

/// The target of a solicitation for duplicate address detection (RFC 4862 section 5.4.2).
pub fn dad_target(read: &Read) -> Option<Addr>
    ensures { option_map (λ a. a.0) result ≡ dad_target read.now }
{
    match read {
        Read::Icmp {
            nd: Some(Nd::Ns { target, dad: true }),
            ..
        } => Some(*target),
        _ => None,
    }
}

/// The target of a neighbor advertisement (RFC 4861 section 4.4).
pub fn advertised_target(read: &Read) -> Option<Addr>
    ensures { option_map (λ a. a.0) result ≡ advertised read.now }
{
    match read {
        Read::Icmp {
            nd: Some(Nd::Na { target, .. }),
            ..
        } => Some(*target),
        _ => None,
    }
}

/// Whether a packet is a router solicitation (RFC 4861 section 4.1).
pub fn is_router_solicitation(read: &Read) -> bool
    ensures { result ≡ is_router_solicitation read.now }
{
    matches!(
        read,
        Read::Icmp {
            nd: Some(Nd::Rs),
            ..
        }
    )
}

/// Whether a packet is a message of a multicast listener to its link (RFC 2710, RFC 3810).
pub fn is_listener_message(ip: &Ip, read: &Read) -> bool
    ensures { result ≡ is_listener_message ip.now read.now }
{
    match read {
        Read::Icmp {
            kind,
            nd: Some(Nd::Other),
            ..
        } => { matches!(*kind, LISTENER_REPORT | LISTENER_DONE | LISTENER_REPORT_2) && ip.hop == 1 }
        _ => false,
    }
}

/// The message of DHCPv6 in a packet to this UDP port (RFC 8415 section 7.2).
pub fn dhcp_to(port: u16, read: &Read) -> Option<&Dhcp>
    ensures { option_map (λ dhcp. dhcp.now) result ≡ dhcp_to port read.now }
{
    match read {
        Read::Udp {
            to,
            dhcp: Some(dhcp),
            ..
        } if *to == port => Some(dhcp),
        _ => None,
    }
}

/// The DUID of a client that asks for addresses: by a Request, a Renew, a Rebind, or a Solicit with rapid commit, which
/// a Reply may answer (RFC 8415 section 18.2).
pub fn asking_duid(dhcp: &Dhcp) -> Option<&[u8]>
    ensures duid { option_map (λ duid. duid.now) result ≡ option_map (λ duid. duid.items) (asking_duid dhcp.now) }
    ensures most { IfSome result (λ duid. length duid.now ≤ 130) }
{
    if !is_asking(dhcp) {
        return None;
    }
    match &dhcp.duid {
        Some(duid) => Some(duid.as_slice()),
        None => None,
    }
}

/// The DUID of a client that a Reply answers (RFC 8415 section 18.3.10).
pub fn answered_duid(dhcp: &Dhcp) -> Option<&[u8]>
    ensures { option_map (λ duid. duid.now) result ≡ option_map (λ duid. duid.items) (answered_duid dhcp.now) }
{
    if dhcp.kind == REPLY {
        dhcp.duid.as_ref().map(|duid| duid.as_slice())
    } else {
        None
    }
}

/// Whether a message is one by which a client gives its addresses up (RFC 8415 sections 18.2.7 and 18.2.8).
pub fn gives_up(dhcp: &Dhcp) -> bool
    ensures { result ≡ gives_up dhcp.now }
{
    dhcp.kind == RELEASE || dhcp.kind == DECLINE
}

// Whether a client asks for addresses by a message that a Reply may answer.
fn is_asking(dhcp: &Dhcp) -> bool
    ensures { result ≡ is_asking dhcp.now }
{
    dhcp.kind == REQUEST
        || dhcp.kind == RENEW
        || dhcp.kind == REBIND
        || (dhcp.kind == SOLICIT && dhcp.rapid)
}
