//! A world in memory that records what is asked of it: of each opening its arguments, in order.

ghost use Rattle.std.specs.Prelude.{◌≡◌, true, Some};
ghost use Rattle.savi_kinds.specs.Ports.{number_of};
ghost use Rattle.savi_ends.specs.MemWorlds.{book_of};
ghost use Rattle.savi_ends.specs.Places.{OtherPortsStay, IsPortOut, IsPortKept, IsControlOut, IsControlKept};

use arrayvec::ArrayVec;
use savi_ends::{MemClock, MemEnds, MemSink, MemSource, MemWorld, OpenFailed, Std, World};
use savi_kinds::{Port, PortPlan};
use switch_report::port_name;

/// What was asked for, a line each. What there is no room for is left out, and the text is another one then.
pub type Openings = ArrayVec<u8, 512>;

/// A world in memory, and a text with one line for each opening.
#[derive(Drop)]
pub struct RecordingWorld {
    pub world: MemWorld,
    pub openings: Openings,
}

// Begins a line by this word.
fn begin_line(openings: &mut Openings, word: &str) {
    add_octets(openings, word);
}

// Goes on with a line by this word.
fn add_word(openings: &mut Openings, word: &str) {
    let _full = openings.try_push(b' ');
    add_octets(openings, word);
}

fn end_line(openings: &mut Openings) {
    let _full = openings.try_push(b'\n');
}

// A line of two words.
fn record(openings: &mut Openings, first: &str, second: &str) {
    begin_line(openings, first);
    add_word(openings, second);
    end_line(openings);
}

fn add_octets(openings: &mut Openings, word: &str) {
    for octet in word.as_bytes() {
        let _full = openings.try_push(*octet);
    }
}

impl World for RecordingWorld {
    type S = MemSource;

    type K = MemSink;

    type C = MemClock;

    ghost book = { λ w. book_of w.world };

    fn faults(&self) -> u64 {
        self.world.faults()
    }

    fn input(&mut self, name: &str) -> Result<MemSource, OpenFailed> {
        record(&mut self.openings, "input", name);
        self.world.input(name)
    }

    fn output(&mut self, name: &str) -> Result<MemSink, OpenFailed> {
        record(&mut self.openings, "output", name);
        self.world.output(name)
    }

    fn port(&mut self, n: Port, plan: &PortPlan) -> Result<MemEnds, OpenFailed> {
        let name = port_name(n);
        begin_line(&mut self.openings, name.as_str());
        add_word(&mut self.openings, plan.role.word());
        add_word(&mut self.openings, plan.format.word());
        add_word(&mut self.openings, plan.input.as_str());
        add_word(&mut self.openings, plan.output.as_str());
        end_line(&mut self.openings);
        self.world.port(n, plan)
    }

    fn control(&mut self, source: &str, sink: &str, live: bool) -> Result<MemEnds, OpenFailed> {
        begin_line(&mut self.openings, "control");
        add_word(&mut self.openings, source);
        add_word(&mut self.openings, sink);
        add_word(&mut self.openings, if live { "live" } else { "recorded" });
        end_line(&mut self.openings);
        self.world.control(source, sink, live)
    }

    fn ticker(&mut self) -> MemClock {
        begin_line(&mut self.openings, "ticker");
        end_line(&mut self.openings);
        self.world.ticker()
    }

    fn std(&mut self, which: Std) -> MemSink {
        let name = match which {
            Std::Out => "out",
            Std::Err => "err",
        };
        record(&mut self.openings, "std", name);
        self.world.std(which)
    }

    fn keep_port(&mut self, n: Port, ends: MemEnds)
        requires { IsPortOut (book_of self.old.world).ports (number_of n) }
        ensures kept { IsPortKept (book_of self.old.world).ports (book_of self.new.world).ports (number_of n) ends }
        ensures others { OtherPortsStay (book_of self.old.world).ports (book_of self.new.world).ports (number_of n) }
        ensures rest { book_of self.new.world ≡ record (book_of self.old.world) { ports = (book_of self.new.world).ports } }
    {
        self.world.keep_port(n, ends);
    }

    fn keep_control(&mut self, ends: MemEnds)
        requires { IsControlOut (book_of self.old.world).control }
        ensures kept { IsControlKept (book_of self.old.world).control (book_of self.new.world).control ends }
        ensures rest { book_of self.new.world ≡ record (book_of self.old.world) { control = (book_of self.new.world).control } }
    {
        self.world.keep_control(ends);
    }

    fn keep_input(&mut self, source: MemSource) {
        self.world.keep_input(source);
    }

    fn keep_output(&mut self, name: &str, sink: MemSink) {
        self.world.keep_output(name, sink);
    }

    fn keep_ticker(&mut self, clock: MemClock) {
        self.world.keep_ticker(clock);
    }

    fn keep_std(&mut self, which: Std, sink: MemSink) {
        self.world.keep_std(which, sink);
    }
}
