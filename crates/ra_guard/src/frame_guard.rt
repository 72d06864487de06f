//! The rules on messages, in their order.

ghost use Rattle.std.specs.Prelude.{◌≡◌, ◌≢◌, ◌↔◌, Option, IsTrue};
ghost use Rattle.savi_kinds.specs.Prefixes.{LiesIn};
ghost use Rattle.savi_kinds.specs.declared.verdict.Rule.{Rule};
ghost use Rattle.ra_guard.specs.Guard.{Applies, NoneBefore, IsFirst, IsRouterAdvert, IsDiscovery, IsValidatedType, IsFromServer, is_reserved, link_local_unicast};
ghost use Rattle.ra_guard.specs.Parts.{IsPacketRule, IsMessageRule};

use frame_class::{Class, Read};
use nd_read::{
    NEIGHBOR_ADVERTISEMENT, NEIGHBOR_SOLICITATION, Nd, ON_LINK_HOP_LIMIT, REDIRECT,
    ROUTER_ADVERTISEMENT, ROUTER_SOLICITATION,
};
use savi_kinds::{Addr, Mac, Role, Rule};
use v6_chain::Ip;

/// The first link-local unicast address, fe80:: (RFC 4291 section 2.5.6).
const LINK_LOCAL_UNICAST_FIRST: u128 = 0xfe80 << 112;

/// The first address behind fe80::/10 (RFC 4291 section 2.5.6).
const LINK_LOCAL_UNICAST_PAST: u128 = 0xfec0 << 112;

/// The first five octets of the addresses that no bridge forwards (IEEE 802.1Q table 8-1).
const RESERVED_GROUP: [u8; 5] = [0x01, 0x80, 0xc2, 0x00, 0x00];

/// How many addresses begin with these five octets and are reserved (IEEE 802.1Q table 8-1).
const RESERVED_COUNT: u8 = 16;

/// The UDP port at which DHCPv6 clients listen (RFC 8415 section 7.2).
const DHCP6_CLIENT_PORT: u16 = 546;

/// The UDP port at which DHCPv6 servers and relays listen (RFC 8415 section 7.2).
const DHCP6_SERVER_PORT: u16 = 547;

/// Type of the DHCPv6 message that a relay sends to a server (RFC 8415 section 7.3).
const RELAY_FORW: u8 = 12;

/// Type of the DHCPv6 message that a server sends to a relay (RFC 8415 section 7.3).
const RELAY_REPL: u8 = 13;

/// The rule that stops a frame of this class at a port of this role: of those that apply the one with the least number, and
/// `None` where none applies. At a trusted port the rules on the Ethernet header alone can apply. A packet with a next
/// header that isn't known is stopped where `drop_unknown` says so. O(1).
pub fn guard(role: Role, drop_unknown: bool, class: &Class) -> Option<Rule>
    ensures first { IsFirst (Applies role drop_unknown class.now) result }
    ensures only { (other : Option Rule) → IsFirst (Applies role drop_unknown class.now) other → other ≡ result }
{
    let Some(eth) = class.eth() else {
        return Some(Rule::Malformed);
    };
    if is_reserved(eth.dst) {
        return Some(Rule::ReservedGroup);
    }
    if eth.src.is_group() {
        return Some(Rule::SourceMac);
    }
    if role == Role::Trusted {
        return None;
    }
    contents_rule(role, drop_unknown, class)
}

/// The rule that stops a frame for what it carries, at a port whose sources are validated.
fn contents_rule(role: Role, drop_unknown: bool, class: &Class) -> Option<Rule>
    requires validating { role ≢ Role.Trusted }
    requires header { NoneBefore (Applies role drop_unknown class.now) 5 }
    ensures { IsFirst (Applies role drop_unknown class.now) result }
{
    match class {
        Class::Runt | Class::Other { .. } => None,
        Class::Tagged { .. } => Some(Rule::Tagged),
        Class::BadIp { .. } => Some(Rule::BadIpv6),
        Class::Ip6 { ip, read, .. } => packet_rule(role, drop_unknown, ip, read),
    }
}

/// The rule that stops an IPv6 packet.
fn packet_rule(role: Role, drop_unknown: bool, ip: &Ip, read: &Read) -> Option<Rule>
    requires { role ≢ Role.Trusted }
    ensures { IsPacketRule role drop_unknown ip.now read.now result }
{
    match read {
        Read::Bad => Some(Rule::BadIpv6),
        Read::Hidden => Some(Rule::HiddenUpper),
        Read::Unknown => drop_unknown.then_some(Rule::UnknownNextHeader),
        Read::Later | Read::Plain => None,
        Read::Icmp {
            kind,
            fragmented,
            nd,
        } => message_rule(ip, *kind, *fragmented, *nd),
        Read::Udp { to, first, .. } => {
            (role == Role::Host && is_from_server(*to, *first)).then_some(Rule::DhcpServer)
        }
    }
}

/// The rule that stops an ICMPv6 message.
fn message_rule(ip: &Ip, kind: u8, fragmented: bool, nd: Option<Nd>) -> Option<Rule>
    ensures { IsMessageRule ip.now (Read.Icmp kind fragmented nd) result }
{
    if is_router_advert(ip, kind) {
        return Some(Rule::RouterAdvert);
    }
    if fragmented && is_discovery(kind) {
        return Some(Rule::FragmentedNd);
    }
    if is_validated(kind) && nd.is_none() {
        return Some(Rule::BadNd);
    }
    (kind == REDIRECT).then_some(Rule::Redirect)
}

/// Whether a message of this type is a router advertisement with a source and a hop limit that hosts take
/// (RFC 4861 section 6.1.2).
fn is_router_advert(ip: &Ip, kind: u8) -> bool
    ensures { IsTrue result ↔ IsRouterAdvert ip.now kind }
{
    kind == ROUTER_ADVERTISEMENT && is_link_local_unicast(ip.src) && ip.hop == ON_LINK_HOP_LIMIT
}

/// Whether a type is one of neighbor discovery (RFC 4861 section 4).
fn is_discovery(kind: u8) -> bool
    ensures { IsTrue result ↔ IsDiscovery kind }
{
    kind >= ROUTER_SOLICITATION && kind <= REDIRECT
}

/// Whether messages of a type are validated when they are read (RFC 4861 sections 6.1.1 and 7.1).
fn is_validated(kind: u8) -> bool
    ensures { IsTrue result ↔ IsValidatedType kind }
{
    matches!(
        kind,
        ROUTER_SOLICITATION | NEIGHBOR_SOLICITATION | NEIGHBOR_ADVERTISEMENT
    )
}

/// Whether a UDP datagram is one that only a DHCPv6 server or relay sends (RFC 8415 section 7, RFC 7610 section 5).
fn is_from_server(to: u16, first: Option<u8>) -> bool
    ensures { IsTrue result ↔ IsFromServer to first }
{
    to == DHCP6_CLIENT_PORT
        || to == DHCP6_SERVER_PORT && matches!(first, Some(RELAY_FORW | RELAY_REPL))
}

/// Whether an address is in fe80::/10 (RFC 4291 section 2.5.6).
fn is_link_local_unicast(address: Addr) -> bool
    ensures { IsTrue result ↔ LiesIn address.0 link_local_unicast }
{
    address.0 >= LINK_LOCAL_UNICAST_FIRST && address.0 < LINK_LOCAL_UNICAST_PAST
}

/// Whether an address is from 01-80-C2-00-00-00 to 01-80-C2-00-00-0F (IEEE 802.1Q table 8-1).
fn is_reserved(mac: Mac) -> bool
    ensures { result ≡ is_reserved mac }
{
    let [first, second, third, fourth, fifth, last] = mac.0;
    [first, second, third, fourth, fifth] == RESERVED_GROUP && last < RESERVED_COUNT
}
