// The table of events.

ghost use Rattle.std.specs.Prelude.{◌≡◌, ◌≤◌, ◌^◌};
ghost use Rattle.fcfs_states.specs.Premises.{AreTimes, IsFcfsEvent, MomentsFit};
ghost use Rattle.fcfs_states.specs.States.{IsSound};
ghost use Rattle.fcfs_states.specs.Ageing.{IsRested};
ghost use Rattle.mix_rules.specs.Next.{is_taken_beside};

use crate::owned::{owned, silence, unassigned};
use crate::state::AddrState;
use dhcp_states::{Bound, lease_end};
use fcfs_states::{Answer, Ev, Fcfs, Times, is_same};
use savi_kinds::{Method, Port};

impl AddrState {
    ghost use Rattle.mix_rules.specs.States.{IsSoundFor};
    ghost use Rattle.mix_rules.specs.Table.{Row};
    ghost use Rattle.mix_rules.specs.Next.{next_state, by_parts, is_granted, ended_at, leased};
    ghost use Rattle.mix_rules.specs.Ageing.{IsStill, bound_end};
    ghost use Rattle.mix_rules.specs.Premises.{AllMomentsFit, IsLow};

    /// One row of the table: what an event at moment `t` (ms) comes to, for an address of a prefix of method `m`. The
    /// state has been aged to `t`. `room` says whether the event's port may hold one more address. O(1).
    pub fn step(&mut self, m: Method, ev: Ev, t: u64, room: bool, k: &Times) -> Answer
        requires times { AreTimes k.now }
        requires moment { t ≤ 2 ^ 62 }
        requires sound { IsSoundFor m self.old }
        requires fits { AllMomentsFit self.old }
        requires still { IsStill k.now t self.old }
        ensures row { Row m k.now t room self.old ev result self.new }
        ensures value { next_state m k.now t room self.old ev ≡ (result, self.new) }
        ensures sound { IsSoundFor m self.new }
        ensures fits { AllMomentsFit self.new }
        ensures still { IsStill k.now t self.new }
    {
        self.take(m, ev, t, room, k)
    }

    /// The row of an event of any kind.
    fn take(&mut self, m: Method, ev: Ev, t: u64, room: bool, k: &Times) -> Answer
        requires times { AreTimes k.now }
        requires moment { t ≤ 2 ^ 62 }
        requires sound { IsSoundFor m self.old }
        requires fits { AllMomentsFit self.old }
        requires still { IsStill k.now t self.old }
        ensures value { next_state m k.now t room self.old ev ≡ (result, self.new) }
        ensures low { IsLow (bound_end self.new.dhcp) }
    {
        match ev {
            Ev::Fix(p) => {
                *self = AddrState::none();
                self.fixed = Some(p);
                silence()
            }
            Ev::Clear => {
                *self = AddrState::none();
                silence()
            }
            Ev::Lease { p, valid } => {
                if self.fixed.is_none() && m != Method::Fcfs {
                    self.dhcp = self.leased(p, valid, t, room);
                }
                silence()
            }
            Ev::Release(p) => {
                if self.fixed.is_none() {
                    self.dhcp = self.released(p);
                }
                silence()
            }
            Ev::Sent(_) | Ev::Dad(_) | Ev::Na(_) | Ev::TpDad | Ev::TpNa => {
                self.seen(m, ev, t, room, k)
            }
        }
    }

    /// The row of an event that a host or a trusted port shows.
    fn seen(&mut self, m: Method, ev: Ev, t: u64, room: bool, k: &Times) -> Answer
        requires kind { IsFcfsEvent ev }
        requires times { AreTimes k.now }
        requires moment { t ≤ 2 ^ 62 }
        requires sound { IsSound self.old.fcfs }
        requires fits { MomentsFit self.old.fcfs }
        requires rested { IsRested k.now t self.old.fcfs }
        ensures { by_parts m k.now t room self.old ev ≡ (result, self.new) }
    {
        match (self.fixed, self.dhcp) {
            (Some(f), _) => owned(f, ev),
            (None, Some(bound)) => {
                if taken_beside(bound.p, ev) {
                    let room = false;
                    let _ = self.fcfs.step(ev, t, room, k);
                }
                owned(bound.p, ev)
            }
            (None, None) => match m {
                Method::Dhcp => unassigned(ev),
                Method::Fcfs | Method::Mixed => self.fcfs.step(ev, t, room, k),
            },
        }
    }

    /// The binding by DHCP after a lease of `valid` seconds to the client at port `p`.
    fn leased(&self, p: Port, valid: u32, t: u64, room: bool) -> Option<Bound>
        requires { t ≤ 2 ^ 62 }
        ensures value { result ≡ leased t room p valid self.now.fcfs self.now.dhcp }
        ensures low { IsLow (bound_end self.now.dhcp) → IsLow (bound_end result) }
    {
        if valid == 0 {
            self.released(p)
        } else if self.grants(p, room) {
            let until = lease_end(valid, t);
            Some(Bound { p, until })
        } else {
            self.dhcp
        }
    }

    /// Whether a lease binds the address to port `p`: it renews a binding there; else first come has no state and the port
    /// has room, or nothing is bound and the port alone has a state of first come.
    fn grants(&self, p: Port, room: bool) -> bool
        ensures { result ≡ is_granted room p self.now.fcfs self.now.dhcp }
    {
        match (self.dhcp, self.fcfs) {
            (Some(bound), _) if is_same(bound.p, p) => true,
            (_, Fcfs::NoBind) => room,
            (None, Fcfs::Tentative { p: q, .. }) => is_same(q, p),
            (None, Fcfs::Valid { p: q, .. }) => is_same(q, p),
            (None, Fcfs::TestLt { p: q, .. }) => is_same(q, p),
            (None, Fcfs::TestVp { .. }) | (Some(_), _) => false,
        }
    }

    /// What stands of the binding by DHCP once the client at port `p` gave the address up.
    fn released(&self, p: Port) -> Option<Bound>
        ensures { result ≡ ended_at p self.now.dhcp }
    {
        match self.dhcp {
            Some(bound) => bound.released(p),
            None => None,
        }
    }
}

/// Whether a state of first come beside a binding by DHCP at `p` takes the event: one of the host there, or an objection.
fn taken_beside(p: Port, ev: Ev) -> bool
    ensures { result ≡ is_taken_beside p ev }
{
    match ev {
        Ev::Sent(r) | Ev::Dad(r) | Ev::Na(r) => is_same(r, p),
        Ev::TpNa => true,
        Ev::TpDad | Ev::Lease { .. } | Ev::Release(_) | Ev::Fix(_) | Ev::Clear => false,
    }
}
