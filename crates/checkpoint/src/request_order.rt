//! The order of requests.

ghost use Rattle.std.specs.Prelude.{◌≡◌, ◌≤◌, length};
ghost use Rattle.std.specs.List.{insert};
ghost use Rattle.checkpoint.specs.Kept.{OrdersRequests};
ghost use Rattle.checkpoint.specs.Orders.{request_order, requests_in_order, request_placed};

use dhcp_states::Request;
use std::cmp::Ordering;

// Which of two requests comes first.
fn order(a: &(u16, Request), b: &(u16, Request)) -> Ordering
    ensures { result ≡ request_order a.now b.now }
{
    let by_vlan = a.0.cmp(&b.0);
    let by_tid = a.1.tid.cmp(&b.1.tid);
    let by_duid = a.1.duid.as_slice().cmp(&b.1.duid.as_slice());
    by_vlan.then(by_tid.then(by_duid))
}

// Where a request stands among others, which these places have in order. O(n).
pub fn place_among(requests: &[(u16, Request)], places: &[u16], request: &(u16, Request)) -> usize
    requires ordered { OrdersRequests requests.now places.now }
    ensures bound { result ≤ length places.now }
    ensures value { request_placed request.now (requests_in_order requests.now) ≡ insert (requests_in_order requests.now) result request.now }
{
    for (at, place) in places.iter().enumerate() {
        if order(request, &requests[usize::from(*place)]).is_lt() {
            return at;
        }
    }
    places.len()
}
