// The tests of a message, in their order.

ghost use Rattle.std.specs.Prelude.{◌≡◌, ◌==◌, ◌≤◌, ◌↔◌, Result, length, IsTrue, OnOk, IfOk, IfErr};
ghost use Rattle.savi_kinds.specs.Prefixes.{LiesIn, multicast, unspecified};
ghost use Rattle.nd_read.specs.declared.message.Nd.{Nd};
ghost use Rattle.nd_read.specs.declared.message.NdFault.{NdFault};
ghost use Rattle.nd_read.specs.Messages.{IsRs, IsNs, IsNa, fixed_len, target_of};
ghost use Rattle.nd_read.specs.Tests.{HasOptions, IsFirstFailed, NamesSource, PassesBefore, Reads, solicited_node};

use crate::message::{
    NEIGHBOR_ADVERTISEMENT, NEIGHBOR_SOLICITATION, Nd, NdFault, ON_LINK_HOP_LIMIT, REDIRECT,
    ROUTER_ADVERTISEMENT, ROUTER_SOLICITATION, SOLICITED_FLAG, SOLICITED_NODE_FIRST,
};
use crate::options::names_source;
use byteorder::{BigEndian, ByteOrder};
use savi_kinds::Addr;
use v6_chain::{ICMPV6, Ip, is_multicast};
use v6_sum::sum_ok;

/// Where the code stands (RFC 4443 section 2.1).
const CODE_AT: usize = 1;
/// Where the flags of an advertisement stand (RFC 4861 section 4.4).
const FLAGS_AT: usize = 4;
/// Where the target stands (RFC 4861 sections 4.3, 4.4).
const TARGET_AT: usize = 8;

/// Octets of a router solicitation before its options (RFC 4861 section 4.1).
const ROUTER_FIXED_LEN: usize = 8;
/// Octets of a neighbor solicitation or advertisement before its options (RFC 4861 sections 4.3, 4.4).
const NEIGHBOR_FIXED_LEN: usize = 24;

/// ff02::1:ffff:ffff, the last of the solicited-node addresses (RFC 4291 section 2.7.1).
const SOLICITED_NODE_LAST: u128 = 0xff02_0000_0000_0000_0000_0001_ffff_ffff;

/// The type of an ICMPv6 message with what it names, or the fault of the first test that it fails. The
/// message, from its type octet on, has 4 to 65,535 octets. O(n).
pub fn nd(ip: &Ip, message: &[u8]) -> Result<Nd, NdFault>
    requires least { 4 ≤ length message.now }
    requires most { length message.now ≤ 65535 }
    ensures reading { Reads ip.now message.now result }
    ensures only { (other : Result Nd NdFault) → Reads ip.now message.now other → other ≡ result }
{
    match message[0] {
        ROUTER_SOLICITATION => router_solicitation(ip, message),
        ROUTER_ADVERTISEMENT => Ok(Nd::Ra),
        NEIGHBOR_SOLICITATION => neighbor_solicitation(ip, message),
        NEIGHBOR_ADVERTISEMENT => neighbor_advertisement(ip, message),
        REDIRECT => Ok(Nd::Redirect),
        _ => Ok(Nd::Other),
    }
}

/// Reads a router solicitation (RFC 4861 section 6.1.1).
fn router_solicitation(ip: &Ip, message: &[u8]) -> Result<Nd, NdFault>
    requires least { 4 ≤ length message.now }
    requires most { length message.now ≤ 65535 }
    requires kind { IsRs message.now }
    ensures { Reads ip.now message.now result }
{
    test_header(ip, message, ROUTER_FIXED_LEN)?;
    let named = test_options(message, ROUTER_FIXED_LEN)?;
    if is_unspecified(ip.src) && named {
        return Err(NdFault::Unspecified);
    }
    Ok(Nd::Rs)
}

/// Reads a neighbor solicitation (RFC 4861 section 7.1.1).
fn neighbor_solicitation(ip: &Ip, message: &[u8]) -> Result<Nd, NdFault>
    requires least { 4 ≤ length message.now }
    requires most { length message.now ≤ 65535 }
    requires kind { IsNs message.now }
    ensures { Reads ip.now message.now result }
{
    test_header(ip, message, NEIGHBOR_FIXED_LEN)?;
    let target = unicast_target(message)?;
    let named = test_options(message, NEIGHBOR_FIXED_LEN)?;
    let dad = is_unspecified(ip.src);
    if dad && (named || !is_solicited_node(ip.dst)) {
        return Err(NdFault::Unspecified);
    }
    Ok(Nd::Ns { target, dad })
}

/// Reads a neighbor advertisement (RFC 4861 section 7.1.2).
fn neighbor_advertisement(ip: &Ip, message: &[u8]) -> Result<Nd, NdFault>
    requires least { 4 ≤ length message.now }
    requires most { length message.now ≤ 65535 }
    requires kind { IsNa message.now }
    ensures { Reads ip.now message.now result }
{
    test_header(ip, message, NEIGHBOR_FIXED_LEN)?;
    let target = unicast_target(message)?;
    test_options(message, NEIGHBOR_FIXED_LEN)?;
    let flags = message[FLAGS_AT];
    if is_multicast(ip.dst) && flags & SOLICITED_FLAG != 0 {
        return Err(NdFault::Solicited);
    }
    Ok(Nd::Na { target, flags })
}

/// The tests that all three types have in common: hop limit, code, length and checksum.
fn test_header(ip: &Ip, message: &[u8], fixed: usize) -> Result<(), NdFault>
    requires least { 4 ≤ length message.now }
    requires most { length message.now ≤ 65535 }
    requires fixed { fixed ≡ fixed_len message.now }
    ensures ok { OnOk result (PassesBefore 5 ip.now message.now) }
    ensures long { OnOk result (fixed ≤ length message.now) }
    ensures err { IfErr result (IsFirstFailed ip.now message.now) }
{
    if ip.hop != ON_LINK_HOP_LIMIT {
        return Err(NdFault::HopLimit);
    }
    if message[CODE_AT] != 0 {
        return Err(NdFault::Code);
    }
    if message.len() < fixed {
        return Err(NdFault::Short);
    }
    if !sum_ok(ip.src, ip.dst, ICMPV6, message) {
        return Err(NdFault::Checksum);
    }
    Ok(())
}

/// Whether an option names the source's link-layer address, where the options are whole.
fn test_options(message: &[u8], fixed: usize) -> Result<bool, NdFault>
    requires fixed { fixed ≡ fixed_len message.now }
    requires long { fixed ≤ length message.now }
    ensures ok { IfOk result
        (λ named. HasOptions message.now × (IsTrue named ↔ NamesSource message.now)) }
    ensures err { IfErr result (λ fault. (fault ≡ NdFault.Options) × ¬ HasOptions message.now) }
{
    names_source(&message[fixed..])
}

/// The target of a neighbor solicitation or advertisement, which isn't a multicast address.
fn unicast_target(message: &[u8]) -> Result<Addr, NdFault>
    requires { 24 ≤ length message.now }
    ensures ok { IfOk result
        (λ target. (target ≡ target_of message.now) × (LiesIn target.0 multicast → ⊥)) }
    ensures err { IfErr result
        (λ fault. (fault ≡ NdFault.Target) × LiesIn (target_of message.now).0 multicast) }
{
    let target = Addr(BigEndian::read_u128(&message[TARGET_AT..]));
    if is_multicast(target) {
        return Err(NdFault::Target);
    }
    Ok(target)
}

/// Whether an address is the unspecified address, :: (RFC 4291 section 2.5.2).
fn is_unspecified(address: Addr) -> bool
    ensures { result ≡ (address.0 == unspecified) }
{
    address.0 == 0
}

/// Whether an address is in ff02::1:ff00:0/104 (RFC 4291 section 2.7.1).
fn is_solicited_node(address: Addr) -> bool
    ensures { IsTrue result ↔ LiesIn address.0 solicited_node }
{
    address.0 >= SOLICITED_NODE_FIRST && address.0 <= SOLICITED_NODE_LAST
}
