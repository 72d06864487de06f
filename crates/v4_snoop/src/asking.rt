//! The requests of clients of DHCPv4, kept as those of DHCPv6 are.

ghost use Rattle.std.specs.Prelude.{◌≡◌, ◌≤◌, false, not, length, IsTrue};
ghost use Rattle.savi_kinds.specs.Ports.{number_of};
ghost use Rattle.dhcp_states.specs.Requests.{request_of, open_at, is_at, has_pair, has_asked, with_request};
ghost use Rattle.dhcp_states.specs.Limits.{IsWithinLimits};
ghost use Rattle.v4_snoop.specs.Following.{client_id, finds_no_place};

use dhcp_states::{OPEN_REQUESTS_MOST, Pending, Request};
use savi_kinds::{Moment, Port};

// Who asks: the VLAN and the hardware address, which stand for a DUID.
pub(crate) fn client_id(vlan: u16, mac: u64) -> [u8; 16]
    ensures { result ≡ client_id vlan mac }
{
    (u128::from(vlan) * (1 << 64) + u128::from(mac)).to_be_bytes()
}

// Asks at port p at t: whether the request finds a place there. One that another port has moves; where it finds no place
// nothing has changed. O(16 times the number of ports).
pub(crate) fn ask(requests: &mut Pending, p: Port, xid: u32, client: &[u8], t: Moment) -> bool
    requires { length client.now ≤ 130 }
    ensures place { result ≡ not (finds_no_place p xid client.now t requests.old) }
    ensures asked { IsTrue result → open_at t requests.new ≡ with_request (request_of p xid client.now t) (open_at t requests.old) }
    ensures refused { result ≡ false → open_at t requests.new ≡ open_at t requests.old }
{
    if finds_no_place(requests, p, xid, client, t) {
        return false;
    }
    requests.reply(xid, client, t);
    requests.request(p, xid, client, t).is_ok()
}

// Whether 16 other requests are open at port p at t.
fn finds_no_place(requests: &Pending, p: Port, xid: u32, client: &[u8], t: Moment) -> bool
    ensures value { result ≡ finds_no_place p xid client.now t requests.now }
    ensures limits { IsWithinLimits requests.now }
{
    let open = requests.count(p, t) as usize;
    open >= OPEN_REQUESTS_MOST && !has_asked(requests.as_slice(), p, xid, client, t)
}

// Whether the request is open at port p at t.
fn has_asked(requests: &[Request], p: Port, xid: u32, client: &[u8], t: Moment) -> bool
    ensures { result ≡ has_asked (number_of p) xid client.now (open_at t requests.now) }
{
    requests
        .iter()
        .filter(|request| request.is_open(t))
        .any(|request| is_at(request, p) && is_of(request, xid, client))
}

fn is_at(request: &Request, p: Port) -> bool
    ensures { result ≡ is_at (number_of p) request.now }
{
    request.port.get() == p.get()
}

// Whether it has this transaction id and is of this client.
fn is_of(request: &Request, xid: u32, client: &[u8]) -> bool
    ensures { result ≡ has_pair xid client.now request.now }
{
    request.tid == xid && request.duid.as_slice() == client
}
