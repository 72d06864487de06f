// Ageing.

ghost use Rattle.std.specs.Prelude.{◌≡◌, ◌≢◌, ◌<◌, ◌≤◌, ◌^◌, ◌↔◌, IsTrue, false, IsNone, IfSome, ℕ, length};
ghost use Rattle.savi_kinds.specs.declared.plan.Method.{Method};
ghost use Rattle.fcfs_states.specs.Premises.{AreTimes};
ghost use Rattle.fcfs_states.specs.AgeingLaws.{AreRising};

use crate::state::AddrState;
use fcfs_states::{Aged, Times};

impl AddrState {
    ghost use Rattle.mix_rules.specs.States.{IsSoundFor};
    ghost use Rattle.mix_rules.specs.Ageing.{aged_state, due_next, IsStill, IsTouched};
    ghost use Rattle.mix_rules.specs.Premises.{AllMomentsFit};

    /// Ages the state to moment `t` (ms): what fell due by then takes place, each thing at its own moment, and each method
    /// apart from the other. O(1).
    pub fn age(&mut self, t: u64, k: &Times) -> Aged
        requires times { AreTimes k.now }
        requires moment { t ≤ 2 ^ 62 }
        requires fits { AllMomentsFit self.old }
        ensures value { aged_state k.now t self.old ≡ record { state = self.new; probes = result.probes.items } }
        ensures changed { IsTrue result.changed ↔ (self.new ≢ self.old) }
        ensures unchanged { result.changed ≡ false → self.new ≡ self.old }
        ensures few { length result.probes.items ≤ 3 }
        ensures rising { AreRising result.probes.items }
        ensures sound { (m : Method) → IsSoundFor m self.old → IsSoundFor m self.new }
        ensures fits { AllMomentsFit self.new }
        ensures still { IsStill k.now t self.new }
    {
        let mut aged = self.fcfs.age(t, k);
        if let Some(bound) = self.dhcp {
            let standing = bound.aged(t);
            if standing.is_none() {
                self.dhcp = standing;
                aged.changed = true;
            }
        }
        aged
    }

    /// The earliest moment (ms) at which ageing changes the state or sends a probe; none where it never does. O(1).
    pub fn due(&self, k: &Times) -> Option<u64>
        requires times { AreTimes k.now }
        requires fits { AllMomentsFit self.now }
        ensures value { result ≡ due_next k.now self.now }
        ensures first { IfSome result (λ due. (t : ℕ) → (IsTouched k.now t self.now ↔ (due ≤ t))) }
        ensures never { IsNone result → (t : ℕ) → ¬ IsTouched k.now t self.now }
    {
        self.first_due(k)
    }

    /// The sooner of what falls due first under first come and the end of the binding by DHCP, as a moment (ms).
    fn first_due(&self, k: &Times) -> Option<u64>
        requires times { AreTimes k.now }
        requires fits { AllMomentsFit self.now }
        ensures { result ≡ due_next k.now self.now }
    {
        let end = self.dhcp.and_then(|bound| bound.until);
        match (self.fcfs.due(k), end) {
            (None, end) => end,
            (Some(first), None) => Some(first),
            (Some(first), Some(end)) => Some(first.min(end)),
        }
    }
}
