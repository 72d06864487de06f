//! The next-header values that are known (IANA's registry "Assigned Internet Protocol Numbers"), and what each names.

ghost use Rattle.std.specs.Prelude.{◌≡◌};
ghost use Rattle.v6_chain.specs.Kinds.{kind_of};

/// Hop-by-hop options (RFC 8200 section 4.3).
pub const HOP_BY_HOP: u8 = 0;
/// IPv4 inside IPv6 (RFC 2473).
pub const IPV4: u8 = 4;
/// TCP (RFC 9293).
pub const TCP: u8 = 6;
/// UDP (RFC 768).
pub const UDP: u8 = 17;
/// DCCP (RFC 4340).
pub const DCCP: u8 = 33;
/// IPv6 inside IPv6 (RFC 2473).
pub const IPV6: u8 = 41;
/// A routing header (RFC 8200 section 4.4).
pub const ROUTING: u8 = 43;
/// A fragment header (RFC 8200 section 4.5).
pub const FRAGMENT: u8 = 44;
/// GRE (RFC 2784).
pub const GRE: u8 = 47;
/// The encapsulating security payload, ESP (RFC 4303).
pub const ESP: u8 = 50;
/// An authentication header (RFC 4302).
pub const AUTHENTICATION: u8 = 51;
/// ICMPv6 (RFC 4443).
pub const ICMPV6: u8 = 58;
/// No next header (RFC 8200 section 4.7).
pub const NO_NEXT_HEADER: u8 = 59;
/// Destination options (RFC 8200 section 4.6).
pub const DESTINATION_OPTIONS: u8 = 60;
/// OSPF (RFC 5340).
pub const OSPF: u8 = 89;
/// PIM (RFC 7761).
pub const PIM: u8 = 103;
/// VRRP (RFC 9568).
pub const VRRP: u8 = 112;
/// L2TP (RFC 3931).
pub const L2TP: u8 = 115;
/// SCTP (RFC 9260).
pub const SCTP: u8 = 132;
/// A mobility header (RFC 6275 section 6.1).
pub const MOBILITY: u8 = 135;
/// UDP-Lite (RFC 3828).
pub const UDP_LITE: u8 = 136;
/// The host identity protocol, HIP (RFC 7401).
pub const HOST_IDENTITY: u8 = 139;
/// Shim6 (RFC 5533).
pub const SHIM6: u8 = 140;

/// The octets of an IPv4 header without options (RFC 791 section 3.1).
const IPV4_LEAST: usize = 20;
/// The octets of a TCP header without options (RFC 9293 section 3.1).
const TCP_LEAST: usize = 20;
/// The octets of a UDP header (RFC 768).
const UDP_LEAST: usize = 8;
/// The octets of an IPv6 header (RFC 8200 section 3).
const IPV6_LEAST: usize = 40;
/// The octets of an ESP header before its payload (RFC 4303 section 2).
const ESP_LEAST: usize = 8;
/// The octets of an ICMPv6 message before its body (RFC 4443 section 2.1).
const ICMPV6_LEAST: usize = 4;

/// What a next-header value names.
#[derive(Clone, Copy, PartialEq, Eq, Debug)]
pub enum Kind {
    /// Hop-by-hop options, a header of the same form as `Extension`.
    HopByHop,
    /// An extension header whose second octet counts 8 octets each, without the first 8 (RFC 6564 section 4).
    Extension,
    /// An authentication header, whose second octet counts 4 octets each, without the first 8 (RFC 4302 section 2.2).
    Authentication,
    /// A fragment header, of 8 octets.
    Fragment,
    /// An upper header, with the least octets of it that have to be there.
    Upper(usize),
    /// Nothing that is known.
    Unknown,
}

/// What a next-header value names. O(1).
#[tactic(auto, unfolding(crate::specs::Kinds::kind_of))]
pub fn kind_of(value: u8) -> Kind
    ensures { result ≡ kind_of value }
{
    match value {
        HOP_BY_HOP => Kind::HopByHop,
        ROUTING | DESTINATION_OPTIONS | MOBILITY | HOST_IDENTITY | SHIM6 => Kind::Extension,
        AUTHENTICATION => Kind::Authentication,
        FRAGMENT => Kind::Fragment,
        IPV4 => Kind::Upper(IPV4_LEAST),
        TCP => Kind::Upper(TCP_LEAST),
        UDP => Kind::Upper(UDP_LEAST),
        IPV6 => Kind::Upper(IPV6_LEAST),
        ESP => Kind::Upper(ESP_LEAST),
        ICMPV6 => Kind::Upper(ICMPV6_LEAST),
        DCCP | GRE | NO_NEXT_HEADER | OSPF | PIM | VRRP | L2TP | SCTP | UDP_LITE => Kind::Upper(0),
        _ => Kind::Unknown,
    }
}
