//! A reply.

ghost use Rattle.std.specs.Prelude.{◌≡◌, ◌+◌, ◌<◌, ◌^◌};

use crate::binding_line::binding_line;
use crate::counts::Counts;
use crate::line::{Line, put_moment, put_number, put_octets, put_port, put_port_number, put_word};
use crate::port_row::PortRow;
use crate::refusal::Refusal;
use dhcp_states::Bound;
use fcfs_states::{Fcfs, Times};
use hist_store::{RULES, name_of};
use mix_rules::AddrState;
use savi_kinds::{Addr, Mac, Moment, Port, put_mac_key};
use std::alloc::{AllocError, Global};
use std::marker::Model;

/// The room for a reply, in octets: more than the longest has, that of `show stations` with 256 stations at each of 16 ports in
/// each of 8 VLANs.
pub const REPLY_OCTETS: usize = 2_097_152;

/// The most octets of a refusal.
pub const REFUSAL_OCTETS: usize = 23;

/// The octets of `ok` with its line feed.
pub const OK_OCTETS: usize = 3;

/// The octets of the last line of what a `show` prints.
pub const END_OCTETS: usize = 4;

/// The most octets of the lines of one address: two, each of at most 83.
pub const BINDING_OCTETS: usize = 166;

/// The most octets of a port's line.
pub const PORT_OCTETS: usize = 79;

/// The most octets of a station's line.
pub const STATION_OCTETS: usize = 46;

/// The most octets of all counters: 27 lines, each of at most 39, and the last line.
pub const COUNTERS_OCTETS: usize = 1_057;

/// A reply, which grows part by part. It takes no memory after its making.
#[derive(Drop)]
pub struct Reply {
    octets: Vec<u8>,
}

impl Model for Reply {
    ghost use Rattle.std.specs.Prelude.{ℕ, List, ◌≤◌, vec_len, vec_capacity};

    ghost Value = { List ℕ };

    ghost view = { λ r. r.octets.items };

    ghost invariant = { λ r. (2097152 ≤ vec_capacity r.octets) × (vec_len r.octets ≤ 2097152) };
}

impl Reply {
    ghost use Rattle.std.specs.Prelude.{◌≡◌, ◌≤◌, ◌<◌, ◌+◌, ◌^◌, ◌++◌, ◌∷◌, [], length, map, IfOk, IfSome, Some};
    ghost use Rattle.hist_store.specs.TextOfLines.{lines_text};
    ghost use Rattle.control_replies.specs.Replies.{refusal_text, ok_text, end_text};
    ghost use Rattle.control_replies.specs.Bindings.{binding_fields, binding_lines, fcfs_lines, bound_lines};
    ghost use Rattle.control_replies.specs.Shows.{port_line, station_line};
    ghost use Rattle.control_replies.specs.Counters.{all_rules, counters_text, counter_fields, other_lines, rule_fields};

    /// An empty reply with room for 2,097,152 octets. `Err` is want of memory.
    pub fn make(alloc: Global) -> Result<Reply, AllocError>
        ensures { IfOk result (λ reply. reply ≡ []) }
    {
        let octets = Vec::with_capacity(alloc, REPLY_OCTETS)?;
        Ok(Reply { octets })
    }

    /// The octets so far.
    pub fn octets(&self) -> &[u8]
        ensures { result.now ≡ self.now }
    {
        self.octets.as_slice()
    }

    /// Makes the reply empty.
    pub fn clear(&mut self)
        ensures text { self.new ≡ [] }
        ensures size { length self.new ≡ 0 }
    {
        self.octets.clear();
    }

    /// Appends why a command is refused: a line of at most 23 octets.
    pub fn put_refusal(&mut self, refusal: Refusal)
        requires { length self.old + REFUSAL_OCTETS ≤ REPLY_OCTETS }
        ensures text { self.new ≡ self.old ++ refusal_text refusal }
        ensures size { length self.new ≤ length self.old + REFUSAL_OCTETS }
    {
        let mut line = Line::new();
        put_octets(&mut line, b"error:");
        put_word(&mut line, refusal.words());
        line.push(b'\n');
        self.append(line.as_slice());
    }

    /// Appends `ok`, the reply to a command that was carried out: three octets.
    pub fn put_ok(&mut self)
        requires { length self.old + OK_OCTETS ≤ REPLY_OCTETS }
        ensures text { self.new ≡ self.old ++ ok_text }
        ensures size { length self.new ≡ length self.old + OK_OCTETS }
    {
        self.append(b"ok\n");
    }

    /// Appends the last line of what a `show` prints: four octets.
    pub fn put_end(&mut self)
        requires { length self.old + END_OCTETS ≤ REPLY_OCTETS }
        ensures text { self.new ≡ self.old ++ end_text }
        ensures size { length self.new ≡ length self.old + END_OCTETS }
    {
        self.append(b"end\n");
    }

    /// Appends the lines of an address in a VLAN, none to two, of at most 83 octets each: that the operator has fixed it
    /// (`static`); else the binding by DHCPv6, and then the state of first come, first served.
    pub fn put_binding(&mut self, times: &Times, vlan: u16, address: Addr, state: &AddrState)
        requires vlan { vlan ≤ 4094 }
        requires room { length self.old + BINDING_OCTETS ≤ REPLY_OCTETS }
        ensures text { self.new ≡ self.old ++ binding_lines times.now (vlan, record { address = address; state = state.now }) }
        ensures size { length self.new ≤ length self.old + BINDING_OCTETS }
    {
        if let Some(port) = state.fixed {
            self.put_binding_line(vlan, address, port, "static", None, None);
            return;
        }
        if let Some(bound) = state.dhcp {
            self.put_bound(vlan, address, bound);
        }
        self.put_fcfs(times, vlan, address, state.fcfs);
    }

    // Appends the line of a binding by DHCPv6.
    fn put_bound(&mut self, vlan: u16, address: Addr, bound: Bound)
        requires vlan { vlan ≤ 4094 }
        requires room { length self.old + 83 ≤ REPLY_OCTETS }
        ensures text { self.new ≡ self.old ++ lines_text (bound_lines vlan address (Some bound)) }
        ensures size { length self.new ≤ length self.old + 83 }
    {
        let until = bound.until.map(u128::from);
        self.put_binding_line(vlan, address, bound.p, "bound", None, until);
    }

    // Appends the line of a state of first come, first served, where it is one.
    fn put_fcfs(&mut self, times: &Times, vlan: u16, address: Addr, state: Fcfs)
        requires vlan { vlan ≤ 4094 }
        requires room { length self.old + 83 ≤ REPLY_OCTETS }
        ensures text { self.new ≡ self.old ++ lines_text (fcfs_lines times.now vlan address state) }
        ensures size { length self.new ≤ length self.old + 83 }
    {
        match state {
            Fcfs::NoBind => {}
            Fcfs::Tentative { p, since, .. } => {
                let until = Some(test_end(since, times));
                self.put_binding_line(vlan, address, p, "tentative", None, until);
            }
            Fcfs::Valid { p, until } => {
                self.put_binding_line(vlan, address, p, "valid", None, Some(u128::from(until)));
            }
            Fcfs::TestLt { p, since, .. } => {
                let until = Some(test_end(since, times));
                self.put_binding_line(vlan, address, p, "testing-lt", None, until);
            }
            Fcfs::TestVp { p, q, since, .. } => {
                let until = Some(test_end(since, times));
                self.put_binding_line(vlan, address, p, "testing-vp", Some(q), until);
            }
        }
    }

    // Appends the line of a binding: `state` is the word for its state, `until` the moment (ms) at which it ends.
    fn put_binding_line(
        &mut self,
        vlan: u16,
        address: Addr,
        port: Port,
        state: &str,
        claimant: Option<Port>,
        until: Option<u128>,
    )
        requires vlan { vlan ≤ 4094 }
        requires short { length state.now ≤ 10 }
        requires moment { IfSome until (λ moment. moment < 2 ^ 65) }
        requires room { length self.old + 83 ≤ REPLY_OCTETS }
        ensures text { self.new ≡ self.old ++ lines_text (binding_fields vlan address port state.now claimant until ∷ []) }
        ensures size { length self.new ≤ length self.old + 83 }
    {
        let line = binding_line(vlan, address, port, state, claimant, until);
        self.append(line.as_slice());
    }

    /// Appends the line of a port, of at most 79 octets.
    pub fn put_port(&mut self, row: &PortRow)
        requires { length self.old + PORT_OCTETS ≤ REPLY_OCTETS }
        ensures text { self.new ≡ self.old ++ port_line row.now }
        ensures size { length self.new ≤ length self.old + PORT_OCTETS }
    {
        let mut line = Line::new();
        put_port_number(&mut line, row.number);
        put_word(&mut line, row.role.word());
        put_word(&mut line, row.shut_word());
        put_number(&mut line, row.held);
        put_number(&mut line, row.pending);
        put_number(&mut line, row.queued);
        line.push(b'\n');
        self.append(line.as_slice());
    }

    /// Appends the line of a station of a VLAN, of at most 46 octets. It ends at `until` (ms), 300 s after a moment of at most
    /// 2^62.
    pub fn put_station(&mut self, vlan: u16, mac: Mac, port: Port, until: Moment)
        requires vlan { vlan ≤ 4094 }
        requires moment { until < 2 ^ 63 }
        requires room { length self.old + STATION_OCTETS ≤ REPLY_OCTETS }
        ensures text { self.new ≡ self.old ++ station_line (vlan, mac, port, until) }
        ensures size { length self.new ≤ length self.old + STATION_OCTETS }
    {
        let text = put_mac_key(vlan, mac);
        let mut line = Line::new();
        put_octets(&mut line, text.as_bytes());
        put_port(&mut line, port);
        put_moment(&mut line, until);
        line.push(b'\n');
        self.append(line.as_slice());
    }

    /// Appends all counters and the last line: at most 1,057 octets.
    pub fn put_counters(&mut self, counts: &Counts)
        requires { length self.old + COUNTERS_OCTETS ≤ REPLY_OCTETS }
        ensures text { self.new ≡ self.old ++ counters_text counts.now }
        ensures size { length self.new ≤ length self.old + COUNTERS_OCTETS }
    {
        self.put_rules(counts);
        self.put_others(counts);
        self.put_end();
    }

    // Appends the lines of the rules.
    fn put_rules(&mut self, counts: &Counts)
        requires { length self.old + 897 ≤ REPLY_OCTETS }
        ensures text { self.new ≡ self.old ++ lines_text (map (rule_fields counts.now) all_rules) }
        ensures size { length self.new ≤ length self.old + 897 }
    {
        for rule in RULES.iter() {
            self.put_counter(name_of(*rule), counts.of(*rule));
        }
    }

    // Appends the lines behind those of the rules.
    fn put_others(&mut self, counts: &Counts)
        requires { length self.old + 156 ≤ REPLY_OCTETS }
        ensures text { self.new ≡ self.old ++ lines_text (other_lines counts.now) }
        ensures size { length self.new ≤ length self.old + 156 }
    {
        self.put_counter("Pass", counts.pass);
        self.put_counter("Cut", counts.cut);
        self.put_counter("Probes", counts.probes);
        self.put_counter("Lost", counts.lost);
    }

    // Appends the line of a counter.
    fn put_counter(&mut self, name: &str, count: u64)
        requires short { length name.now ≤ 17 }
        requires room { length self.old + 39 ≤ REPLY_OCTETS }
        ensures text { self.new ≡ self.old ++ lines_text (counter_fields name.now count ∷ []) }
        ensures size { length self.new ≤ length self.old + 39 }
    {
        let mut line = Line::new();
        put_octets(&mut line, name.as_bytes());
        put_number(&mut line, count);
        line.push(b'\n');
        self.append(line.as_slice());
    }

    // Appends octets for which there is room.
    fn append(&mut self, piece: &[u8])
        requires { length self.old + length piece.now ≤ REPLY_OCTETS }
        ensures text { self.new ≡ self.old ++ piece.now }
        ensures size { length self.new ≡ length self.old + length piece.now }
    {
        match self.octets.extend_from_slice(piece) {
            Ok(()) => {}
            Err(_) => unreachable!(),
        }
    }
}

// The moment (ms) at which a claim or a test ends that began at `since`: a sum of two numbers of 64 bits, which may have 65.
fn test_end(since: Moment, times: &Times) -> u128
    ensures value { result ≡ since + times.now.test }
    ensures short { result < 2 ^ 65 }
{
    u128::from(since) + u128::from(times.test)
}
