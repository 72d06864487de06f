//! Ageing of all addresses.

ghost use Rattle.std.specs.Prelude.{◌≡◌, ◌^◌, ◌≤◌, ℕ, fold};
ghost use Rattle.savi_access.specs.declared.sent.SentProbe.{SentProbe};
ghost use Rattle.savi_access.specs.Ages.{aged_rows, AllStill};
ghost use Rattle.savi_access.specs.Sends.{sends};
ghost use Rattle.savi_access.specs.Keeps.{StaySound};

use crate::table::AddrTable;
use savi_access::SentProbe;
use savi_kinds::Moment;

/// What takes the probes that ageing sends in the VLANs of a switch, one after the other.
pub trait ProbeSink {
    /// The sink once it took this probe in the VLAN of this number.
    ghost after: { Self → ℕ → SentProbe → Self };

    /// Takes a probe in a VLAN.
    fn take(&mut self, vlan: u16, sent: SentProbe)
        ensures { self.new ≡ after self.old vlan sent };
}

impl AddrTable {
    /// Ages all states, which are those of this VLAN, to `t` (ms). The sink takes the probes that fall due by then, by
    /// moment and then by address; those of other VLANs are in other tables. Each thing that falls due costs what
    /// `TimerWheel::next_due` does, one look-up and one arming, O(1) on average, and O(n) of `BindTable::remove` where its
    /// row goes; at most six things fall due in a state that no event touches.
    pub fn age_to<S: ProbeSink>(&mut self, vlan: u16, t: Moment, sink: &mut S)
        requires { t ≤ 2 ^ 62 }
        ensures rows { self.new ≡ record self.old { rows = aged_rows self.old.times t self.old.rows } }
        ensures sent { sink.new ≡ fold (λ taker sent. S.after taker vlan sent) sink.old (sends self.old.times t self.old.rows) }
        ensures still { AllStill self.old.times t self.new.rows }
        ensures sound { StaySound self.old.rows self.new.rows }
    {
        while let Some(sent) = self.next_probe(t) {
            sink.take(vlan, sent);
        }
    }
}
