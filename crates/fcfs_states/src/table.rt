// The table of events.

ghost use Rattle.std.specs.Prelude.{◌≡◌, ◌≤◌, ◌^◌};
ghost use Rattle.fcfs_states.specs.Premises.{AreTimes, IsFcfsEvent, MomentsFit};
ghost use Rattle.fcfs_states.specs.States.{IsSound};
ghost use Rattle.fcfs_states.specs.Table.{Row};
ghost use Rattle.fcfs_states.specs.Next.{next};
ghost use Rattle.fcfs_states.specs.Ageing.{IsRested};

use crate::answer::Answer;
use crate::event::Ev;
use crate::state::Fcfs;
use crate::times::Times;
use crate::{no_bind, tentative, test_lt, test_vp, valid};

impl Fcfs {
    /// One row of the table: what an event at moment `t` (ms) comes to. The state has been aged to `t`. `room` says
    /// whether the event's port may hold one more address. O(1).
    pub fn step(&mut self, ev: Ev, t: u64, room: bool, k: &Times) -> Answer
        requires kind { IsFcfsEvent ev }
        requires times { AreTimes k.now }
        requires moment { t ≤ 2 ^ 62 }
        requires sound { IsSound self.old }
        requires fits { MomentsFit self.old }
        requires rested { IsRested k.now t self.old }
        ensures row { Row k.now t room self.old ev result self.new }
        ensures value { next k.now t room self.old ev ≡ (result, self.new) }
        ensures sound { IsSound self.new }
        ensures fits { MomentsFit self.new }
        ensures rested { IsRested k.now t self.new }
    {
        let (answer, state) = self.outcome(ev, t, room, k);
        *self = state;
        answer
    }

    /// The answer of the row, and the state after it.
    fn outcome(self, ev: Ev, t: u64, room: bool, k: &Times) -> (Answer, Fcfs)
        requires kind { IsFcfsEvent ev }
        requires times { AreTimes k.now }
        requires moment { t ≤ 2 ^ 62 }
        ensures { result ≡ next k.now t room self ev }
    {
        match self {
            Fcfs::NoBind => no_bind::outcome(ev, t, room),
            Fcfs::Tentative { p, .. } => tentative::outcome(p, self, ev),
            Fcfs::Valid { p, .. } => valid::outcome(p, self, ev, t, room, k),
            Fcfs::TestLt { p, .. } => test_lt::outcome(p, self, ev, t, k),
            Fcfs::TestVp { p, q, .. } => test_vp::outcome(p, q, self, ev, t, k),
        }
    }
}
