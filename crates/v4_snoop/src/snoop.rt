//! Judging what is seen.

ghost use Rattle.std.specs.Prelude.{◌≡◌, ◌≤◌, ◌^◌, false, length, ℕ, IfOk};
ghost use Rattle.std.specs.List.{list_any};
ghost use Rattle.savi_kinds.specs.PortSets.{is_member};
ghost use Rattle.byteorder.specs.Endian.{big_number};
ghost use Rattle.v4_snoop.specs.Reasons.{has_role_at, is_host_role, is_server_role, is_bad_arp, goes_to_udp, is_of_client};

use crate::arp::{IPV4_TYPE, is_arp_packet, sender_address, sender_mac};
use crate::asking::{ask, client_id};
use crate::inner_frame::{inner_header, inner_payload};
use crate::lease::{Lease, key_of};
use crate::leases::Leases;
use crate::packet::{UdpPorts, is_readable, source_of, udp_ports};
use crate::port_vlans::access_vlans;
use crate::reason::Reason;
use crate::told::{CLIENT_PORT, Granted, SERVER_PORT, Told, told_in};
use byteorder::{BigEndian, ByteOrder};
use dhcp_states::Pending;
use eth_frame::{Eth, Tag};
use savi_kinds::{Mac, Moment, PORTS_MOST, Plan, Port, PortPlan, PortSet, Role};
use std::alloc::{AllocError, Global};
use std::marker::Model;

/// The EtherType of ARP (RFC 826).
const ARP_TYPE: u16 = 0x0806;

/// Which requests of DHCPv4 are open and which addresses are leased, as the frames that passed tell.
///
/// Contracts see what it keeps, and say how that stands with all frames that passed (`HasSnooped`). No call but `make` takes
/// memory.
#[derive(Drop)]
pub struct Snoop {
    hosts: PortSet,
    servers: PortSet,
    // of access ports, by the number of a port
    vlans: [Option<u16>; PORTS_MOST + 1],
    requests: Pending,
    leases: Leases,
}

impl Model for Snoop {
    ghost use Rattle.v4_snoop.specs.Snooped.{Snooped};
    ghost use Rattle.v4_snoop.specs.KeptLeases.{KeepsLeases};

    ghost Value = { Snooped };

    ghost view = { λ s. record { hosts = s.hosts; servers = s.servers; vlans = s.vlans; requests = s.requests; leases = s.leases } };

    ghost invariant = { λ s. KeepsLeases s.leases };
}

impl Snoop {
    ghost use Rattle.std.specs.Prelude.{◌||◌, ◌&&◌, if◌then◌else◌, [], ◌∷◌, List, Some, None, slice_index_or};
    ghost use Rattle.std.specs.Option.{option_or};
    ghost use Rattle.savi_kinds.specs.Ports.{number_of};
    ghost use Rattle.savi_kinds.specs.Vlans.{vlan_among};
    ghost use Rattle.savi_kinds.specs.declared.plan.Plan.{Plan};
    ghost use Rattle.savi_history.specs.Vlans.{vlan_at_port};
    ghost use Rattle.dhcp_states.specs.Requests.{open_at, asker};
    ghost use Rattle.v4_snoop.specs.Packets.{IsReadableIp, udp_ports};
    ghost use Rattle.v4_snoop.specs.Leased.{v4_key, lease_ended_at};
    ghost use Rattle.v4_snoop.specs.Following.{Clients, client_id, finds_no_place, request_asked, request_answered, finds_no_room, granted_to, after_telling};
    ghost use Rattle.v4_snoop.specs.Tellings.{told_in};
    ghost use Rattle.v4_snoop.specs.Reasons.{PassedFrame, passed_at, HasVlanAtPort, reason_in_vlan, frame_reason, clients_in_vlan, known_clients, last_passed, validates, is_host_port, is_false_sender, is_false_source};
    ghost use Rattle.v4_snoop.specs.Judged.{arp_reason, packet_reason, shortage, after_packet};
    ghost use Rattle.v4_snoop.specs.Snooped.{HasAccessVlans, HasSnooped, KnowsClients};

    /// A snoop to which no frame was shown. It takes all its memory here: the plan says how many live leases a port may
    /// have. `Err` is want of memory.
    pub fn make(alloc: Global, plan: &Plan) -> Result<Snoop, AllocError>
        requires { plan.now.per_port ≤ 64 }
        ensures { IfOk result (HasSnooped plan.now []) }
    {
        Ok(Snoop {
            hosts: host_ports(plan.ports.as_slice()),
            servers: server_ports(plan.ports.as_slice()),
            vlans: access_vlans(plan.ports.as_slice()),
            requests: Pending::make(alloc)?,
            leases: Leases::make(alloc, plan.per_port)?,
        })
    }

    /// Judges a frame of 14 to 1,518 octets that passed at port `p` at moment `t` (ms), in the VLAN that it has there: the
    /// first reason for which it is reported, None exactly where there is none. The moment of each call is to be no earlier
    /// than that of the call before. O(1) on average; for a message of DHCP O(n), and beside it O(16 times the number of
    /// ports) for the requests, and O(64) for a lease on an address that its port didn't have.
    pub fn judge(&mut self, p: Port, t: Moment, frame: &[u8]) -> Option<Reason>
        requires least { 14 ≤ length frame.now }
        requires most { length frame.now ≤ 1518 }
        requires moment { t ≤ 2 ^ 62 }
        ensures reason { (plan : Plan) (past : List PassedFrame) → HasSnooped plan past self.old → last_passed past ≤ t → HasVlanAtPort plan (passed_at p t frame.now) → result ≡ frame_reason plan (known_clients plan past) (passed_at p t frame.now) }
        ensures knows { (plan : Plan) (past : List PassedFrame) → HasSnooped plan past self.old → last_passed past ≤ t → HasVlanAtPort plan (passed_at p t frame.now) → HasSnooped plan (passed_at p t frame.now ∷ past) self.new }
    {
        let tag = eth_frame::tag(frame);
        let eth = inner_header(frame, tag);
        let payload = inner_payload(frame, tag);
        match self.vlan_of(p, tag) {
            Some(vlan) => self.see(vlan, p, t, eth, payload),
            None => None,
        }
    }

    // The VLAN of a frame with this tag at port p, if it has one there.
    fn vlan_of(&self, p: Port, tag: Tag) -> Option<u16>
        ensures { (plan : Plan) (vlan : ℕ) → HasAccessVlans plan.ports self.now.vlans → vlan_at_port (vlan_among plan.ports (number_of p)) tag ≡ Some vlan → result ≡ Some vlan }
    {
        match tag {
            Tag::None => self.own_vlan(p),
            Tag::Vid(vlan) => Some(vlan),
            Tag::Bad => None,
        }
    }

    // The VLAN of port p, where it is an access port.
    fn own_vlan(&self, p: Port) -> Option<u16>
        ensures { result ≡ slice_index_or self.now.vlans (number_of p) None }
    {
        self.vlans[usize::from(p.get())]
    }

    // Sees a frame of a VLAN at port p at t, with this header and this payload.
    fn see(&mut self, vlan: u16, p: Port, t: Moment, eth: Eth, payload: &[u8]) -> Option<Reason>
        requires { t ≤ 2 ^ 62 }
        ensures reason { (plan : Plan) (clients : Clients) → KnowsClients plan t clients self.old → result ≡ reason_in_vlan plan clients (record { vlan = vlan; port = p; moment = t; header = eth; payload = payload.now }) }
        ensures knows { (plan : Plan) (clients : Clients) → KnowsClients plan t clients self.old → KnowsClients plan t (clients_in_vlan plan clients (record { vlan = vlan; port = p; moment = t; header = eth; payload = payload.now })) self.new }
    {
        match eth.kind {
            ARP_TYPE => self.arp_reason(vlan, p, t, number_of_mac(eth.src), payload),
            IPV4_TYPE => self.see_packet(vlan, p, t, payload),
            _ => None,
        }
    }

    // Whether the sources of port p are validated.
    fn validates(&self, p: Port) -> bool
        ensures { result ≡ (is_member self.now.hosts (number_of p) || is_member self.now.servers (number_of p)) }
    {
        self.hosts.contains(p) || self.servers.contains(p)
    }

    // What is wrong with ARP from this hardware address at port p at t.
    fn arp_reason(&self, vlan: u16, p: Port, t: Moment, mac: u64, arp: &[u8]) -> Option<Reason>
        ensures { (plan : Plan) (clients : Clients) → KnowsClients plan t clients self.now → result ≡ arp_reason clients (validates plan (number_of p)) vlan (number_of p) t mac arp.now }
    {
        if !self.validates(p) {
            return None;
        }
        if is_bad_arp(mac, arp) {
            return Some(Reason::ArpBad);
        }
        if self.is_false_sender(vlan, p, t, arp) {
            return Some(Reason::ArpSource);
        }
        None
    }

    // Whether the sender of an ARP packet claims an address that isn't live at port p at t for it.
    fn is_false_sender(&self, vlan: u16, p: Port, t: Moment, arp: &[u8]) -> bool
        requires { 28 ≤ length arp.now }
        ensures { (plan : Plan) (clients : Clients) → KnowsClients plan t clients self.now → result ≡ is_false_sender clients vlan (number_of p) t arp.now }
    {
        let key = key_of(vlan, sender_address(arp));
        sender_address(arp) != 0 && !self.leases.is_live_for(key, p, t, sender_mac(arp))
    }

    // Sees a packet at port p at t: what is wrong with it, or else what is lacking for what it tells.
    fn see_packet(&mut self, vlan: u16, p: Port, t: Moment, packet: &[u8]) -> Option<Reason>
        requires { t ≤ 2 ^ 62 }
        ensures reason { (plan : Plan) (clients : Clients) → KnowsClients plan t clients self.old → result ≡ option_or (packet_reason clients (validates plan (number_of p)) (is_host_port plan (number_of p)) vlan (number_of p) t packet.now) (shortage plan.per_port vlan p t (told_in (validates plan (number_of p)) (is_host_port plan (number_of p)) packet.now) clients) }
        ensures knows { (plan : Plan) (clients : Clients) → KnowsClients plan t clients self.old → KnowsClients plan t (after_packet plan.per_port vlan p t (packet_reason clients (validates plan (number_of p)) (is_host_port plan (number_of p)) vlan (number_of p) t packet.now) (told_in (validates plan (number_of p)) (is_host_port plan (number_of p)) packet.now) clients) self.new }
    {
        match self.packet_reason(vlan, p, t, packet) {
            Some(reason) => Some(reason),
            None => {
                let told = told_in(self.validates(p), self.hosts.contains(p), packet);
                self.follow(vlan, p, t, told)
            }
        }
    }

    // What is wrong with a packet at port p at t.
    fn packet_reason(&self, vlan: u16, p: Port, t: Moment, packet: &[u8]) -> Option<Reason>
        ensures { (plan : Plan) (clients : Clients) → KnowsClients plan t clients self.now → result ≡ packet_reason clients (validates plan (number_of p)) (is_host_port plan (number_of p)) vlan (number_of p) t packet.now }
    {
        if !self.validates(p) {
            return None;
        }
        if !is_readable(packet) {
            return Some(Reason::IpBad);
        }
        if self.is_served(p, packet) {
            return Some(Reason::Server);
        }
        if self.is_false_source(vlan, p, t, packet) {
            return Some(Reason::IpSource);
        }
        None
    }

    // Whether a packet at port p goes to clients of DHCP though the port is a host's.
    fn is_served(&self, p: Port, packet: &[u8]) -> bool
        requires { IsReadableIp packet.now }
        ensures { result ≡ (is_member self.now.hosts (number_of p) && goes_to_udp 68 (udp_ports packet.now)) }
    {
        let ports = udp_ports(packet);
        self.hosts.contains(p) && goes_to_client(ports)
    }

    // Whether the source of a packet isn't live at port p at t, and the packet isn't one from 0.0.0.0 to servers of DHCP.
    fn is_false_source(&self, vlan: u16, p: Port, t: Moment, packet: &[u8]) -> bool
        requires { IsReadableIp packet.now }
        ensures { (plan : Plan) (clients : Clients) → KnowsClients plan t clients self.now → result ≡ is_false_source clients vlan (number_of p) t packet.now }
    {
        let source = source_of(packet);
        let ports = udp_ports(packet);
        let key = key_of(vlan, source);
        !(source == 0 && is_of_client(ports)) && !self.leases.is_live_at(key, p, t)
    }

    // Follows what was told at port p at t: what is lacking for it.
    fn follow(&mut self, vlan: u16, p: Port, t: Moment, told: Told) -> Option<Reason>
        requires { t ≤ 2 ^ 62 }
        ensures reason { (plan : Plan) (clients : Clients) → KnowsClients plan t clients self.old → result ≡ shortage plan.per_port vlan p t told clients }
        ensures knows { (plan : Plan) (clients : Clients) → KnowsClients plan t clients self.old → KnowsClients plan t (after_telling plan.per_port vlan p t told clients) self.new }
    {
        match told {
            Told::Nothing => None,
            Told::Asks { xid, mac } => self.ask(vlan, p, t, xid, mac),
            Told::Ends { address } => {
                self.end(vlan, p, t, address);
                None
            }
            Told::Refuses { xid, mac } => {
                self.answer(vlan, t, xid, mac);
                None
            }
            Told::Grants { xid, mac, granted } => match self.answer(vlan, t, xid, mac) {
                Some(asker) => self.grant(vlan, asker, t, mac, granted),
                None => None,
            },
        }
    }

    // A client asks at port p at t: what is lacking for its request.
    fn ask(&mut self, vlan: u16, p: Port, t: Moment, xid: u32, mac: u64) -> Option<Reason>
        ensures reason { (plan : Plan) (clients : Clients) → KnowsClients plan t clients self.old → result ≡ (if finds_no_place p xid (client_id vlan mac) t clients.requests then Some Reason.RequestFull else None) }
        ensures knows { (plan : Plan) (clients : Clients) → KnowsClients plan t clients self.old → KnowsClients plan t (record clients { requests = request_asked p xid (client_id vlan mac) t clients.requests }) self.new }
    {
        let client = client_id(vlan, mac);
        if ask(&mut self.requests, p, xid, &client, t) {
            None
        } else {
            Some(Reason::RequestFull)
        }
    }

    // The lease on an address ends at port p at t.
    fn end(&mut self, vlan: u16, p: Port, t: Moment, address: u32)
        ensures { (plan : Plan) (clients : Clients) → KnowsClients plan t clients self.old → KnowsClients plan t (record clients { leases = lease_ended_at (v4_key vlan address) (number_of p) clients.leases }) self.new }
    {
        self.leases.end(key_of(vlan, address), p);
    }

    // What a client asked is answered at t: the port at which it asked, if it did.
    fn answer(&mut self, vlan: u16, t: Moment, xid: u32, mac: u64) -> Option<Port>
        ensures port { (plan : Plan) (clients : Clients) → KnowsClients plan t clients self.old → result ≡ asker xid (client_id vlan mac) (open_at t clients.requests) }
        ensures knows { (plan : Plan) (clients : Clients) → KnowsClients plan t clients self.old → KnowsClients plan t (record clients { requests = request_answered xid (client_id vlan mac) t clients.requests }) self.new }
    {
        let client = client_id(vlan, mac);
        self.requests.reply(xid, &client, t)
    }

    // Grants a lease at t to the client with this hardware address, which asked at this port: what is lacking for it.
    fn grant(
        &mut self,
        vlan: u16,
        asker: Port,
        t: Moment,
        mac: u64,
        granted: Option<Granted>,
    ) -> Option<Reason>
        requires { t ≤ 2 ^ 62 }
        ensures reason { (plan : Plan) (clients : Clients) → KnowsClients plan t clients self.old → result ≡ (if finds_no_room plan.per_port vlan t (Some asker) granted clients.leases then Some Reason.PortFull else None) }
        ensures knows { (plan : Plan) (clients : Clients) → KnowsClients plan t clients self.old → KnowsClients plan t (record clients { leases = granted_to plan.per_port vlan mac t asker granted clients.leases }) self.new }
    {
        match granted {
            Some(granted) => {
                let lease = Lease::new(vlan, asker, mac, t, granted);
                if self.leases.bind(lease, t) {
                    None
                } else {
                    Some(Reason::PortFull)
                }
            }
            None => None,
        }
    }
}

// Whether what should be an ARP packet isn't one, or its sender isn't the one with this hardware address.
fn is_bad_arp(mac: u64, arp: &[u8]) -> bool
    ensures value { result ≡ is_bad_arp mac arp.now }
    ensures long { result ≡ false → 28 ≤ length arp.now }
{
    !(is_arp_packet(arp) && sender_mac(arp) == mac)
}

// The ports of hosts.
fn host_ports(ports: &[PortPlan]) -> PortSet
    ensures { (n : ℕ) → 1 ≤ n → is_member result n ≡ list_any (has_role_at is_host_role n) ports.now }
{
    let mut hosts = PortSet::empty();
    for port in ports {
        if port.role == Role::Host {
            hosts = hosts.with(port.number);
        }
    }
    hosts
}

// The ports of servers.
fn server_ports(ports: &[PortPlan]) -> PortSet
    ensures { (n : ℕ) → 1 ≤ n → is_member result n ≡ list_any (has_role_at is_server_role n) ports.now }
{
    let mut servers = PortSet::empty();
    for port in ports {
        if port.role == Role::Server {
            servers = servers.with(port.number);
        }
    }
    servers
}

// A hardware address as a number.
fn number_of_mac(mac: Mac) -> u64
    ensures { result ≡ big_number 6 mac.0 }
{
    BigEndian::read_u48(&mac.0)
}

// Whether a datagram goes to the port of clients of DHCP.
fn goes_to_client(ports: Option<UdpPorts>) -> bool
    ensures { result ≡ goes_to_udp 68 ports }
{
    match ports {
        Some(ports) => ports.to == CLIENT_PORT,
        None => false,
    }
}

// Whether it goes from there to the port of servers.
fn is_of_client(ports: Option<UdpPorts>) -> bool
    ensures { result ≡ is_of_client ports }
{
    match ports {
        Some(ports) => ports.from == CLIENT_PORT && ports.to == SERVER_PORT,
        None => false,
    }
}
