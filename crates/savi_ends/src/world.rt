ghost use Rattle.std.specs.Prelude.{◌≡◌, ℕ, true, false, Some, IfSome, OnErr};
ghost use Rattle.savi_kinds.specs.Ports.{number_of};

use crate::clock::Clock;
use crate::sink::Sink;
use crate::source::Source;
use savi_kinds::{Port, PortPlan};

/// The three ends of a port, or of control: what comes in, what goes out, and the clock of what comes in.
#[derive(Drop)]
pub struct Ends<S, K, C> {
    pub source: S,
    pub sink: K,
    pub clock: C,
}

/// An end could not be opened.
#[derive(Clone, Copy, PartialEq, Eq, Debug)]
pub struct OpenFailed;

/// Standard output or standard error.
#[derive(Clone, Copy, PartialEq, Eq, Debug)]
pub enum Std {
    Out,
    Err,
}

/// Where the ends of the switch come from, and where they go back to.
///
/// Each end has a place: an input or output by its name, a port's ends by its number, the names of its
/// input and output and their format, those of control by the names of its input and output and by
/// whether they are live, and one place each for the ticker's clock and the two standard outputs. An
/// opening needs that the place isn't handed out yet. It hands out the end that the world tells for that
/// place, if it tells one, and the end has no fault so far; or it answers `OpenFailed`. The world's count of
/// faults rises by one in a call that answers `OpenFailed`, and by no other call: so it tells how often an
/// opening was tried that failed. A `keep` call needs that the place is handed out, and puts the end there.
/// Every call changes the place that it names and no other; those of one port under other names and another
/// format may be the same place, and so may all those of control.
pub trait World {
    ghost use Rattle.savi_ends.specs.declared.world.Std.{Std};
    ghost use Rattle.savi_ends.specs.Places.{Book, ControlKey, HandsOut, IsReady, Opens, OthersStay, OtherPortsStay, IsOnlyOut, IsPortOut, IsPortKept, IsControlOut, IsControlKept, BothFresh, port_key};

    type S: Source + Send;

    type K: Sink + Send;

    type C: Clock + Send;

    /// All places, and the world's own count of faults.
    ghost book: { Self → Book Self.S Self.K Self.C };

    /// How often an opening has failed; the count stops at 2^64 - 1.
    fn faults(&self) -> u64
        ensures { result ≡ (book self.now).faults };

    /// Opens the input of this name.
    fn input(&mut self, name: &str) -> Result<Self::S, OpenFailed>
        requires { IsReady (λ s. Self.S.faults s ≡ 0) ((book self.old).inputs name.now) }
        ensures opens { Opens (λ s. Self.S.faults s ≡ 0) (book self.old).faults (book self.new).faults ((book self.old).inputs name.now) ((book self.new).inputs name.now) result }
        ensures others { OthersStay (book self.old).inputs (book self.new).inputs name.now }
        ensures rest { book self.new ≡ record (book self.old) { faults = (book self.new).faults; inputs = (book self.new).inputs } };

    /// Opens the output of this name.
    fn output(&mut self, name: &str) -> Result<Self::K, OpenFailed>
        requires { IsReady (λ k. Self.K.faults k ≡ 0) ((book self.old).outputs name.now) }
        ensures opens { Opens (λ k. Self.K.faults k ≡ 0) (book self.old).faults (book self.new).faults ((book self.old).outputs name.now) ((book self.new).outputs name.now) result }
        ensures others { OthersStay (book self.old).outputs (book self.new).outputs name.now }
        ensures rest { book self.new ≡ record (book self.old) { faults = (book self.new).faults; outputs = (book self.new).outputs } };

    /// Opens the ends of this port, whose plan names its input and output.
    fn port(
        &mut self,
        n: Port,
        plan: &PortPlan,
    ) -> Result<Ends<Self::S, Self::K, Self::C>, OpenFailed>
        requires planned { number_of plan.now.number ≡ number_of n }
        requires ready { IsReady (BothFresh Self.S.faults Self.K.faults) ((book self.old).ports (port_key plan.now)) }
        ensures opens { Opens (BothFresh Self.S.faults Self.K.faults) (book self.old).faults (book self.new).faults ((book self.old).ports (port_key plan.now)) ((book self.new).ports (port_key plan.now)) result }
        ensures others { OtherPortsStay (book self.old).ports (book self.new).ports (number_of n) }
        ensures unopened { OnErr result ((book self.new).ports ≡ (book self.old).ports) }
        ensures rest { book self.new ≡ record (book self.old) { faults = (book self.new).faults; ports = (book self.new).ports } };

    /// Opens the ends of control, by the names of its input and output. They are live where the clock
    /// gives the moment of a line, and the line itself doesn't.
    fn control(
        &mut self,
        source: &str,
        sink: &str,
        live: bool,
    ) -> Result<Ends<Self::S, Self::K, Self::C>, OpenFailed>
        requires { IsReady (BothFresh Self.S.faults Self.K.faults) ((book self.old).control (record { source = source.now; sink = sink.now; live = live })) }
        ensures opens { Opens (BothFresh Self.S.faults Self.K.faults) (book self.old).faults (book self.new).faults ((book self.old).control (record { source = source.now; sink = sink.now; live = live })) ((book self.new).control (record { source = source.now; sink = sink.now; live = live })) result }
        ensures unopened { OnErr result ((book self.new).control ≡ (book self.old).control) }
        ensures rest { book self.new ≡ record (book self.old) { faults = (book self.new).faults; control = (book self.new).control } };

    /// Hands out the ticker's clock.
    fn ticker(&mut self) -> Self::C
        requires { (book self.old).ticker.is_out ≡ false }
        ensures hands { HandsOut (book self.old).ticker (book self.new).ticker result }
        ensures rest { book self.new ≡ record (book self.old) { ticker = (book self.new).ticker } };

    /// Hands out standard output or standard error.
    fn std(&mut self, which: Std) -> Self::K
        requires { IsReady (λ k. Self.K.faults k ≡ 0) ((book self.old).std which) }
        ensures hands { HandsOut ((book self.old).std which) ((book self.new).std which) result }
        ensures fresh { Self.K.faults result ≡ 0 }
        ensures others { OthersStay (book self.old).std (book self.new).std which }
        ensures rest { book self.new ≡ record (book self.old) { std = (book self.new).std } };

    /// Keeps the ends of this port.
    fn keep_port(&mut self, n: Port, ends: Ends<Self::S, Self::K, Self::C>)
        requires { IsPortOut (book self.old).ports (number_of n) }
        ensures kept { IsPortKept (book self.old).ports (book self.new).ports (number_of n) ends }
        ensures others { OtherPortsStay (book self.old).ports (book self.new).ports (number_of n) }
        ensures rest { book self.new ≡ record (book self.old) { ports = (book self.new).ports } };

    /// Keeps the ends of control.
    fn keep_control(&mut self, ends: Ends<Self::S, Self::K, Self::C>)
        requires { IsControlOut (book self.old).control }
        ensures kept { IsControlKept (book self.old).control (book self.new).control ends }
        ensures rest { book self.new ≡ record (book self.old) { control = (book self.new).control } };

    /// Keeps the only input that is handed out.
    fn keep_input(&mut self, source: Self::S)
        requires { (name : _) × IsOnlyOut (book self.old).inputs name }
        ensures kept { (name : _) → IsOnlyOut (book self.old).inputs name → ((book self.new).inputs name).stands ≡ Some source }
        ensures others { (name : _) → IsOnlyOut (book self.old).inputs name → OthersStay (book self.old).inputs (book self.new).inputs name }
        ensures rest { book self.new ≡ record (book self.old) { inputs = (book self.new).inputs } };

    /// Keeps the output of this name.
    fn keep_output(&mut self, name: &str, sink: Self::K)
        requires { ((book self.old).outputs name.now).is_out ≡ true }
        ensures kept { ((book self.new).outputs name.now).stands ≡ Some sink }
        ensures others { OthersStay (book self.old).outputs (book self.new).outputs name.now }
        ensures rest { book self.new ≡ record (book self.old) { outputs = (book self.new).outputs } };

    /// Keeps the ticker's clock.
    fn keep_ticker(&mut self, clock: Self::C)
        requires { (book self.old).ticker.is_out ≡ true }
        ensures kept { (book self.new).ticker.stands ≡ Some clock }
        ensures rest { book self.new ≡ record (book self.old) { ticker = (book self.new).ticker } };

    /// Keeps standard output or standard error.
    fn keep_std(&mut self, which: Std, sink: Self::K)
        requires { ((book self.old).std which).is_out ≡ true }
        ensures kept { ((book self.new).std which).stands ≡ Some sink }
        ensures others { OthersStay (book self.old).std (book self.new).std which }
        ensures rest { book self.new ≡ record (book self.old) { std = (book self.new).std } };
}
