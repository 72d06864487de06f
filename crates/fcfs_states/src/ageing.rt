// Ageing.

ghost use Rattle.std.specs.Prelude.{◌≡◌, ◌≢◌, ◌+◌, ◌<◌, ◌≤◌, ◌^◌, ◌↔◌, ℕ, IsTrue, IsNone, IfSome, false, Some, length};
ghost use Rattle.fcfs_states.specs.Premises.{AreTimes, MomentsFit};
ghost use Rattle.fcfs_states.specs.States.{IsSound};
ghost use Rattle.fcfs_states.specs.Ageing.{Ages, IsRested};
ghost use Rattle.fcfs_states.specs.Aged.{aged, due_of, after_due, probe_sent, IsTouched};
ghost use Rattle.fcfs_states.specs.AgeingLaws.{AreRising};

use crate::answer::Probe;
use crate::state::Fcfs;
use crate::times::Times;
use arrayvec::ArrayVec;

/// What ageing did to a state.
#[derive(Drop, Debug)]
pub struct Aged {
    /// The state is another one than before.
    pub changed: bool,
    /// The probes that fell due, each with its moment (ms), in rising order.
    pub probes: ArrayVec<(u64, Probe), 4>,
}

impl Fcfs {
    /// Ages the state to moment `t` (ms): what fell due by then takes place, each thing at its own moment. O(1).
    pub fn age(&mut self, t: u64, k: &Times) -> Aged
        requires times { AreTimes k.now }
        requires moment { t ≤ 2 ^ 62 }
        requires fits { MomentsFit self.old }
        ensures rows { Ages k.now t self.old result.probes.items self.new }
        ensures value { aged k.now t self.old ≡ record { state = self.new; probes = result.probes.items } }
        ensures changed { IsTrue result.changed ↔ (self.new ≢ self.old) }
        ensures unchanged { result.changed ≡ false → self.new ≡ self.old }
        ensures few { length result.probes.items ≤ 3 }
        ensures rising { AreRising result.probes.items }
        ensures sound { IsSound self.old → IsSound self.new }
        ensures fits { MomentsFit self.new }
        ensures rested { IsRested k.now t self.new }
    {
        let mut aged = Aged {
            changed: false,
            probes: ArrayVec::new(),
        };
        'rows: while let Some(due) = self.due(k) {
            if due > t {
                break;
            }
            let (state, probe) = self.passed(due, k);
            if let Some(probe) = probe {
                aged.probes.push((due, probe));
            }
            *self = state;
            aged.changed = true;
        }
        aged
    }

    /// The earliest moment (ms) at which ageing changes the state or sends a probe; none where no port has the address.
    /// O(1).
    pub fn due(&self, k: &Times) -> Option<u64>
        requires times { AreTimes k.now }
        requires fits { MomentsFit self.now }
        ensures value { result ≡ due_of k.now self.now }
        ensures none { IsNone result ↔ (self.now ≡ Fcfs.NoBind) }
        ensures first { IfSome result (λ due. (t : ℕ) → (IsTouched k.now t self.now ↔ (due ≤ t))) }
    {
        self.first_due(k)
    }

    /// The moment (ms) of what falls due first: the second probe, or the end of the state.
    fn first_due(self, k: &Times) -> Option<u64>
        requires times { AreTimes k.now }
        requires fits { MomentsFit self }
        ensures { result ≡ due_of k.now self }
    {
        let wait = |two: bool| if two { k.gap } else { k.test };
        match self {
            Fcfs::NoBind => None,
            Fcfs::Valid { until, .. } => Some(until),
            Fcfs::Tentative { since, two, .. }
            | Fcfs::TestLt { since, two, .. }
            | Fcfs::TestVp { since, two, .. } => Some(since + wait(two)),
        }
    }

    /// The state after what falls due first, at its moment (ms), and the probe that this sends.
    fn passed(self, due: u64, k: &Times) -> (Fcfs, Option<Probe>)
        requires times { AreTimes k.now }
        requires moment { due ≤ 2 ^ 62 }
        ensures { result ≡ (after_due k.now due self, probe_sent self) }
    {
        match self {
            Fcfs::NoBind => (Fcfs::NoBind, None),
            Fcfs::Tentative { p, since, two } => {
                if two {
                    let two = false;
                    (Fcfs::Tentative { p, since, two }, Some(Probe::Trusted))
                } else {
                    let until = due + k.life;
                    (Fcfs::Valid { p, until }, None)
                }
            }
            Fcfs::Valid { p, .. } => {
                let (since, two) = (due, true);
                (Fcfs::TestLt { p, since, two }, Some(Probe::To(p)))
            }
            Fcfs::TestLt { p, since, two } => {
                if two {
                    let two = false;
                    (Fcfs::TestLt { p, since, two }, Some(Probe::To(p)))
                } else {
                    (Fcfs::NoBind, None)
                }
            }
            Fcfs::TestVp { p, q, since, two } => {
                if two {
                    let two = false;
                    (Fcfs::TestVp { p, q, since, two }, Some(Probe::To(p)))
                } else {
                    let (p, until) = (q, due + k.life);
                    (Fcfs::Valid { p, until }, None)
                }
            }
        }
    }
}
