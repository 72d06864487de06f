//! The open requests of all ports.

ghost use Rattle.std.specs.Prelude.{◌≡◌, ◌<◌, ◌≤◌, [], length, IfOk, OnOk, OnErr, vec_capacity};
ghost use Rattle.std.specs.Result.{result_err};
ghost use Rattle.savi_kinds.specs.Ports.{number_of};
ghost use Rattle.dhcp_states.specs.Requests.{request_of, open_at, requests_at_port, has_asked, is_full, is_contested, refusal, without_pair, with_request, asker};
ghost use Rattle.dhcp_states.specs.Limits.{IsWithinLimits};

use crate::request::Request;
use savi_kinds::{Moment, PORTS_MOST, Port, Rule};
use std::alloc::{AllocError, Global};
use std::marker::Model;

/// The most open requests of one port.
pub const OPEN_REQUESTS_MOST: usize = 16;

/// Which port asked: the requests of DHCPv6 clients that wait for a Reply, at most 16 for each port.
///
/// Contracts see the list of the requests that are kept, the one asked last at the end. Of these the open ones alone
/// count: a request is open before the moment 120 s after it was asked (RFC 7513 section 10), whoever asks, and those
/// whose time has come may be given up at any call. So the moments of calls are to rise: at an earlier moment than that
/// of a call before, a request that had ended by then doesn't count any more. No call but `make` takes memory, and each
/// of the others goes over at most 16 requests for each port of the switch a fixed number of times.
#[derive(Drop)]
pub struct Pending {
    requests: Vec<Request>,
}

impl Model for Pending {
    ghost use Rattle.std.specs.Prelude.{◌≤◌, List, vec_capacity};
    ghost use Rattle.dhcp_states.specs.declared.request.Request.{Request};
    ghost use Rattle.dhcp_states.specs.Limits.{IsWithinLimits};

    ghost Value = { List Request };

    ghost view = { λ p. p.requests.items };

    ghost invariant = { λ p. IsWithinLimits p.requests.items × (256 ≤ vec_capacity p.requests) };
}

impl Pending {
    /// No request. It takes all its memory here, for 16 requests of each of 16 ports.
    pub fn make(alloc: Global) -> Result<Pending, AllocError>
        ensures { IfOk result (λ pending. pending ≡ []) }
    {
        Ok(Pending {
            requests: Vec::with_capacity(alloc, OPEN_REQUESTS_MOST * PORTS_MOST)?,
        })
    }

    /// Asks at port `p` with a transaction id and a DUID of at most 130 octets, at moment `t` (ms): the port's request
    /// with this pair is renewed, or one is opened. The refusals are PendingFull, exactly where the port has 16 open
    /// requests and none of them is this one, and else DhcpContested, exactly where another port has an open request
    /// with this pair; then no open request has changed. O(16 times the number of ports).
    pub fn request(&mut self, p: Port, tid: u32, duid: &[u8], t: Moment) -> Result<(), Rule>
        requires { length duid.now ≤ 130 }
        ensures refusal { result_err result ≡ refusal (number_of p) tid duid.now (open_at t self.old) }
        ensures refused { OnErr result (open_at t self.new ≡ open_at t self.old) }
        ensures asked { OnOk result (open_at t self.new ≡ with_request (request_of p tid duid.now t) (open_at t self.old)) }
        ensures limits { IsWithinLimits self.new }
    {
        keep_open(&mut self.requests, t);
        match rule_against(self.requests.as_slice(), p, tid, duid) {
            Some(rule) => Err(rule),
            None => {
                open_or_renew(&mut self.requests, p, tid, duid, t);
                Ok(())
            }
        }
    }

    /// Meets the open request with this transaction id and DUID at moment `t` (ms): the answer is the port that asked,
    /// and the request is gone. None, and no open request has changed, exactly where none has this pair. O(16 times the
    /// number of ports).
    pub fn reply(&mut self, tid: u32, duid: &[u8], t: Moment) -> Option<Port>
        ensures port { result ≡ asker tid duid.now (open_at t self.old) }
        ensures met { open_at t self.new ≡ without_pair tid duid.now (open_at t self.old) }
        ensures limits { IsWithinLimits self.new }
    {
        keep_open(&mut self.requests, t);
        let port = port_of(self.requests.as_slice(), tid, duid);
        give_up(&mut self.requests, tid, duid);
        port
    }

    /// How many requests of port `p` are open at moment `t` (ms), at most 16. O(16 times the number of ports).
    pub fn count(&self, p: Port, t: Moment) -> u32
        ensures value { result ≡ requests_at_port (number_of p) (open_at t self.now) }
        ensures most { result ≤ 16 }
        ensures limits { IsWithinLimits self.now }
    {
        open_count(self.requests.as_slice(), p, t) as u32
    }

    /// The requests that are kept, the one asked last at the end. O(1).
    pub fn as_slice(&self) -> &[Request]
        ensures requests { result.now ≡ self.now }
        ensures limits { IsWithinLimits self.now }
    {
        self.requests.as_slice()
    }
}

// How many of these requests were asked at port p and are open at t.
fn open_count(requests: &[Request], p: Port, t: Moment) -> usize
    ensures { result ≡ requests_at_port (number_of p) (open_at t requests.now) }
{
    requests
        .iter()
        .filter(|request| request.is_open(t))
        .filter(|request| request.is_at(p))
        .count()
}

// Gives up the requests whose time has come.
fn keep_open(requests: &mut Vec<Request>, t: Moment)
    ensures items { requests.new.items ≡ open_at t requests.old.items }
    ensures capacity { vec_capacity requests.new ≡ vec_capacity requests.old }
{
    requests.retain(|request| request.is_open(t));
}

// Gives up the requests with this pair.
fn give_up(requests: &mut Vec<Request>, tid: u32, duid: &[u8])
    ensures items { requests.new.items ≡ without_pair tid duid.now requests.old.items }
    ensures capacity { vec_capacity requests.new ≡ vec_capacity requests.old }
{
    requests.retain(|request| !request.has_pair(tid, duid));
}

// Puts a request for which there is room behind the others, in place of the one with its pair.
fn open_or_renew(requests: &mut Vec<Request>, p: Port, tid: u32, duid: &[u8], t: Moment)
    requires duid { length duid.now ≤ 130 }
    requires room { length (without_pair tid duid.now requests.old.items) < vec_capacity requests.old }
    ensures items { requests.new.items ≡ with_request (request_of p tid duid.now t) requests.old.items }
    ensures capacity { vec_capacity requests.old ≤ vec_capacity requests.new }
{
    give_up(requests, tid, duid);
    match requests.push(Request::new(p, tid, duid, t)) {
        Ok(()) => {}
        Err(_) => unreachable!(),
    }
}

// The rule that refuses a request at port p, or none, where these requests are open.
fn rule_against(requests: &[Request], p: Port, tid: u32, duid: &[u8]) -> Option<Rule>
    ensures { result ≡ refusal (number_of p) tid duid.now requests.now }
{
    if is_full(requests, p, tid, duid) {
        Some(Rule::PendingFull)
    } else if is_contested(requests, p, tid, duid) {
        Some(Rule::DhcpContested)
    } else {
        None
    }
}

// Whether port p has at least 16 of these requests and none of them has this pair.
fn is_full(requests: &[Request], p: Port, tid: u32, duid: &[u8]) -> bool
    ensures { result ≡ is_full (number_of p) tid duid.now requests.now }
{
    count_at(requests, p) >= OPEN_REQUESTS_MOST && !has_asked(requests, p, tid, duid)
}

// How many of these requests were asked at port p.
fn count_at(requests: &[Request], p: Port) -> usize
    ensures { result ≡ requests_at_port (number_of p) requests.now }
{
    requests.iter().filter(|request| request.is_at(p)).count()
}

// Whether a request with this pair was asked at port p.
fn has_asked(requests: &[Request], p: Port, tid: u32, duid: &[u8]) -> bool
    ensures { result ≡ has_asked (number_of p) tid duid.now requests.now }
{
    requests
        .iter()
        .any(|request| request.is_at(p) && request.has_pair(tid, duid))
}

// Whether a request with this pair was asked at another port than p.
fn is_contested(requests: &[Request], p: Port, tid: u32, duid: &[u8]) -> bool
    ensures { result ≡ is_contested (number_of p) tid duid.now requests.now }
{
    requests
        .iter()
        .any(|request| !request.is_at(p) && request.has_pair(tid, duid))
}

// The port of the request with this pair.
fn port_of(requests: &[Request], tid: u32, duid: &[u8]) -> Option<Port>
    ensures { result ≡ asker tid duid.now requests.now }
{
    requests
        .iter()
        .find(|request| request.has_pair(tid, duid))
        .map(|request| request.port)
}
