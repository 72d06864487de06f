//! The watcher of an audit.

ghost use Rattle.std.specs.Prelude.{◌≡◌, ◌+◌};
ghost use Rattle.savi_history.specs.Summary.{capped};
ghost use Rattle.audit_run.specs.PassedFrames.{one_if};

use crate::inner_kind::carries_ipv4_or_arp;
use crate::line::put_violation;
use crate::passed_port::passed_port;
use crate::printer::Printer;
use journal_check::Watcher;
use savi_ends::Sink;
use savi_kinds::{Entry, Moment, Plan, Port};
use std::alloc::{AllocError, Global};
use v4_snoop::{Reason, Snoop};

/// The audit of a journal while it is checked: the lines of the frames that are reported go to its sink, and it counts these
/// and the frames that carry IPv4 or ARP. The counts stop at 2^64 - 1.
///
/// Contracts say how it stands with the entries that it was given (`HasAudited` of `specs/Auditing.antt`).
#[derive(Drop)]
pub struct Auditor<K> {
    printer: Printer<K>,
    // once it has begun
    snoop: Option<Snoop>,
    frames: u64,
    violations: u64,
}

impl<K: Sink> Auditor<K> {
    ghost use Rattle.std.specs.Prelude.{◌≡◌, ◌≤◌, ◌^◌, ◌+◌, ◌++◌, [], ◌∷◌, ℕ, List, length, is_some};
    ghost use Rattle.savi_kinds.specs.Ports.{number_of};
    ghost use Rattle.savi_kinds.specs.declared.plan.Plan.{Plan};
    ghost use Rattle.journal_write.specs.Written.{WasGiven};
    ghost use Rattle.v4_snoop.specs.Reasons.{PassedFrame, passed_at};
    ghost use Rattle.audit_run.specs.Auditing.{ComesBehind, HasSeen, IsUnbegun, SeesFrame};
    ghost use Rattle.audit_run.specs.Printed.{HasPrinted};
    ghost use Rattle.audit_run.specs.Violations.{reason_behind, violation_if};

    /// An audit that hasn't begun, whose lines go to this sink. It takes no memory.
    pub fn new(sink: K) -> Auditor<K>
        ensures { IsUnbegun K.written K.faults sink result }
    {
        Auditor {
            printer: Printer::new(sink),
            snoop: None,
            frames: 0,
            violations: 0,
        }
    }

    /// How many frames that passed carry IPv4 or ARP.
    pub fn frames(&self) -> u64
        ensures { result ≡ self.now.frames }
    {
        self.frames
    }

    /// How many frames are reported.
    pub fn violations(&self) -> u64
        ensures { result ≡ self.now.violations }
    {
        self.violations
    }

    /// Writes a line, or none, behind those before it, and all that waits. The answer is the sink, and whether a write of it
    /// failed.
    pub fn finish(self, line: &[u8]) -> (K, bool)
        requires { length line.now ≤ 4096 }
        ensures text { (first : K) (text : List ℕ) → HasPrinted K.written K.faults first self.printer text → WasGiven K.written K.faults first result.0 [] result.1 (text ++ line.now) }
        ensures none { line.now ≡ [] → self.printer.waits.items ≡ [] → result.0 ≡ self.printer.sink }
    {
        let Auditor {
            mut printer,
            snoop: _,
            frames: _,
            violations: _,
        } = self;
        printer.put(line);
        printer.settle();
        printer.into_parts()
    }

    // Sees a frame that passed at a port at a moment, in entry n of a segment.
    fn see(&mut self, segment: u64, n: u64, port: Port, moment: Moment, frame: &[u8])
        requires least { 14 ≤ length frame.now }
        requires most { length frame.now ≤ 1518 }
        requires moment { moment ≤ 2 ^ 62 }
        ensures { (plan : Plan) (past : List PassedFrame) → ComesBehind plan past (passed_at port moment frame.now) → HasSeen plan past self.old.snoop
            → SeesFrame K.written K.faults segment n plan past (passed_at port moment frame.now) self.old self.new }
    {
        let reason = self.judge(port, moment, frame);
        self.count(carries_ipv4_or_arp(frame), reason.is_some());
        self.report(segment, n, port, reason);
    }

    // Judges a frame, once the audit has begun.
    fn judge(&mut self, port: Port, moment: Moment, frame: &[u8]) -> Option<Reason>
        requires least { 14 ≤ length frame.now }
        requires most { length frame.now ≤ 1518 }
        requires moment { moment ≤ 2 ^ 62 }
        ensures reason { (plan : Plan) (past : List PassedFrame) → ComesBehind plan past (passed_at port moment frame.now) → HasSeen plan past self.old.snoop
            → result ≡ reason_behind plan past (passed_at port moment frame.now) }
        ensures seen { (plan : Plan) (past : List PassedFrame) → ComesBehind plan past (passed_at port moment frame.now) → HasSeen plan past self.old.snoop
            → HasSeen plan (passed_at port moment frame.now ∷ past) self.new.snoop }
        ensures rest { self.new ≡ record self.old { snoop = self.new.snoop } }
    {
        match &mut self.snoop {
            Some(snoop) => snoop.judge(port, moment, frame),
            None => None,
        }
    }

    // Counts a frame, whether it is one of IPv4 or ARP, and whether it is reported.
    fn count(&mut self, is_v4: bool, is_reported: bool)
        ensures { self.new ≡ record self.old { frames = capped (self.old.frames + one_if is_v4); violations = capped (self.old.violations + one_if is_reported) } }
    {
        self.frames = counted(self.frames, is_v4);
        self.violations = counted(self.violations, is_reported);
    }

    // Puts the line of a frame, where it is reported.
    fn report(&mut self, segment: u64, n: u64, port: Port, reason: Option<Reason>)
        ensures printed { (first : K) (text : List ℕ) → HasPrinted K.written K.faults first self.old.printer text → HasPrinted K.written K.faults first self.new.printer (text ++ violation_if segment n (number_of port) reason) }
        ensures rest { self.new ≡ record self.old { printer = self.new.printer } }
    {
        match reason {
            Some(reason) => {
                let line = put_violation(segment, n, port, reason);
                self.printer.put(line.as_slice());
            }
            None => {}
        }
    }
}

impl<K: Sink> Watcher for Auditor<K> {
    ghost use Rattle.audit_run.specs.Auditing.{BeginsAudit, Sees};

    ghost begins = { λ before plan after. BeginsAudit K.written K.faults before plan after };

    ghost sees = { λ before plan entry after. Sees K.written K.faults before plan entry after };

    fn begin(&mut self, alloc: Global, plan: &Plan) -> Result<(), AllocError> {
        self.snoop = Some(Snoop::make(alloc, plan)?);
        Ok(())
    }

    fn entry(&mut self, _plan: &Plan, segment: u64, n: u64, e: &Entry, octets: &[u8]) {
        match passed_port(e) {
            Some(port) => self.see(segment, n, port, e.moment, octets),
            None => {}
        }
    }
}

// A count with one more, where this is so.
fn counted(count: u64, one: bool) -> u64
    ensures { result ≡ capped (count + one_if one) }
{
    if one { count.saturating_add(1) } else { count }
}
