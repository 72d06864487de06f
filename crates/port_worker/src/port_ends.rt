//! The ends of one port, and what was read ahead of its input.

ghost use Rattle.std.specs.Prelude.{◌≡◌, true, false, IsSome, IfSome, Some};

use frame_class::{Seen, see};
use pcap_io::PcapReader;
use savi_core::{Core, Event};
use savi_ends::{Clock, Ends, Source};
use savi_kinds::{FRAME_OCTETS_MOST, How, Next, Port, Who};

/// The ends of one port, with the reader of its input and room for one frame.
#[derive(Drop)]
pub struct PortEnds<S, K, C> {
    pub port: Port,
    pub ends: Ends<S, K, C>,
    reader: PcapReader,
    buf: [u8; FRAME_OCTETS_MOST],
    ahead: Ahead,
}

// What was read of an input and isn't entered yet.
#[derive(Clone, Copy)]
enum Ahead {
    // Nothing.
    Unread,
    // A frame, whose octets are the first `len` of the buffer.
    Frame { stamp: u64, len: u32 },
    // A frame that is too long.
    Long { stamp: u64, len: u32 },
    // The end behind a whole record.
    End,
    // The place of what is at fault.
    Malformed { at: u64 },
    // A read failed.
    Failed,
    // The end of the input was entered.
    Done,
}

/// The turn of a port: what comes next of its input.
#[derive(Clone, Copy)]
pub enum PortTurn<'a> {
    /// A frame of at most 1,518 octets, with its stamp (ms).
    Frame { stamp: u64, octets: &'a [u8] },
    /// A longer frame, whose octets aren't kept.
    Long { stamp: u64, len: u32 },
    /// The end of the input.
    Ends(How),
}

impl<S, K, C> PortEnds<S, K, C> {
    ghost use Rattle.port_worker.specs.Inputs.{turn_moment, turn_of, IsReadable, IsSoundAhead};
    ghost use Rattle.port_worker.specs.PortTurns.{ahead_passed, turn_told, IsShortTurn};
    ghost use Rattle.port_worker.specs.Replays.{IsUnread};

    /// The ends of a port, of which nothing was read yet, and the reader of its input.
    pub fn new(port: Port, ends: Ends<S, K, C>, reader: PcapReader) -> PortEnds<S, K, C>
        requires { IsReadable reader }
        ensures port { result.port ≡ port }
        ensures ends { result.ends ≡ ends }
        ensures reader { result.reader ≡ reader }
        ensures unread { IsUnread result }
    {
        PortEnds {
            port,
            ends,
            reader,
            buf: [0; FRAME_OCTETS_MOST],
            ahead: Ahead::Unread,
        }
    }

    /// The port and its ends, given back.
    pub fn into_parts(self) -> (Port, Ends<S, K, C>)
        ensures port { result.0 ≡ self.port }
        ensures ends { result.1 ≡ self.ends }
    {
        let PortEnds {
            port,
            ends,
            reader: _,
            buf: _,
            ahead: _,
        } = self;
        (port, ends)
    }

    // When the turn that was read comes: an ending at once, an arrival by its stamp.
    pub(crate) fn moment(&self) -> Option<u128>
        ensures { result ≡ turn_moment self.now }
    {
        match self.ahead {
            Ahead::Unread | Ahead::Done => None,
            Ahead::Frame { stamp, len: _ } | Ahead::Long { stamp, len: _ } => {
                Some(u128::from(stamp) + 1)
            }
            Ahead::End | Ahead::Malformed { at: _ } | Ahead::Failed => Some(0),
        }
    }

    /// The turn that was read, for one that keeps no history.
    pub fn turn(&self) -> PortTurn<'_>
        requires known { IsSome (turn_of self.now) }
        requires sound { IsSoundAhead self.now.reader self.now.ahead }
        ensures turn { turn_of self.now ≡ Some (turn_told self.now.port result) }
        ensures short { IsShortTurn result }
    {
        match self.ahead {
            Ahead::Frame { stamp, len } => PortTurn::Frame {
                stamp,
                octets: &self.buf[..len as usize],
            },
            Ahead::Long { stamp, len } => PortTurn::Long { stamp, len },
            Ahead::End => PortTurn::Ends(How::End),
            Ahead::Malformed { at } => PortTurn::Ends(How::Malformed(at)),
            Ahead::Failed => PortTurn::Ends(How::Failed),
            Ahead::Unread | Ahead::Done => unreachable!(),
        }
    }

    /// Goes on behind the turn that was read: behind an arrival what comes next isn't known, and behind the end nothing
    /// comes.
    pub fn pass(&mut self)
        ensures ahead { self.new.ahead ≡ ahead_passed self.old.ahead }
        ensures rest { self.new ≡ record self.old { ahead = self.new.ahead } }
    {
        self.ahead = match self.ahead {
            Ahead::Unread | Ahead::Frame { stamp: _, len: _ } | Ahead::Long { stamp: _, len: _ } =>
                Ahead::Unread,
            Ahead::End | Ahead::Malformed { at: _ } | Ahead::Failed | Ahead::Done => Ahead::Done,
        };
    }
}

impl<S: Source, K, C: Clock> PortEnds<S, K, C> {
    ghost use Rattle.port_worker.specs.Inputs.{IsSoundAhead, IsLooked};

    // Reads what comes next, where that isn't known.
    pub(crate) fn look(&mut self)
        requires { IsSoundAhead self.old.reader self.old.ahead }
        ensures { IsLooked S.left S.faults self.old self.new }
    {
        let Ahead::Unread = self.ahead else {
            return;
        };
        match self
            .reader
            .next(&mut self.ends.source, &mut self.ends.clock, &mut self.buf)
        {
            Next::Frame { stamp, len } => self.ahead = Ahead::Frame { stamp, len },
            Next::Long { stamp, len } => self.ahead = Ahead::Long { stamp, len },
            Next::End => self.ahead = Ahead::End,
            Next::Malformed { at } => self.ahead = Ahead::Malformed { at },
            Next::Failed => self.ahead = Ahead::Failed,
        }
    }
}

impl<S, K, C> PortEnds<S, K, C> {
    ghost use Rattle.savi_kinds.specs.declared.entry.Who.TheVariants.{Ingress};
    ghost use Rattle.savi_history.specs.Legal.{IsOpen, MayEnd};
    ghost use Rattle.savi_history.specs.Events.{End};
    ghost use Rattle.savi_core.specs.Machines.{base_of, with_event};
    ghost use Rattle.port_worker.specs.Inputs.{IsSoundAhead, turn_of};
    ghost use Rattle.port_worker.specs.Steps.{Enters, HasRoomFor, comes_in};
    ghost use Rattle.port_worker.specs.declared.port_ends.Ahead.TheVariants as ahead;

    // Whether the turn that was read is an arrival, which needs room in the history.
    pub(crate) fn has_arrival(&self) -> bool
        ensures { IfSome (turn_of self.now) (λ turn. result ≡ comes_in turn) }
    {
        matches!(
            self.ahead,
            Ahead::Frame { stamp: _, len: _ } | Ahead::Long { stamp: _, len: _ }
        )
    }

    // Enters the turn that was read, for which there is room. The answer is true where it is an arrival; else the input has
    // ended. `seen` is room for what is seen of a frame.
    pub(crate) fn enter(&mut self, core: &mut Core, seen: &mut Seen) -> bool
        requires known { IsSome (turn_of self.old) }
        requires sound { IsSoundAhead self.old.reader self.old.ahead }
        requires open { IsOpen core.old.plan (base_of core.old) core.old.past (Ingress self.old.port) }
        requires room { IfSome (turn_of self.old) (λ turn. HasRoomFor core.old.plan core.old.past turn) }
        ensures plan { core.new.plan ≡ core.old.plan }
        ensures base { base_of core.new ≡ base_of core.old }
        ensures entered { IfSome (turn_of self.old) (λ turn. Enters core.old.plan (base_of core.old) self.old.port turn core.old.past result core.new.past) }
        ensures rest { self.new ≡ record self.old { ahead = self.new.ahead } }
        ensures arrived { result ≡ true → self.new.ahead ≡ ahead.Unread }
        ensures ended { result ≡ false → self.new.ahead ≡ ahead.Done }
    {
        match self.ahead {
            Ahead::Frame { stamp, len } => {
                let octets = &self.buf[..len as usize];
                see(octets, seen);
                let _entry = core.step(Event::Frame {
                    port: self.port,
                    stamp,
                    octets,
                    seen,
                });
                self.ahead = Ahead::Unread;
                true
            }
            Ahead::Long { stamp, len } => {
                let _entry = core.step(Event::Long {
                    port: self.port,
                    stamp,
                    len,
                });
                self.ahead = Ahead::Unread;
                true
            }
            Ahead::End => self.end(core, How::End),
            Ahead::Malformed { at } => self.end(core, How::Malformed(at)),
            Ahead::Failed => self.end(core, How::Failed),
            Ahead::Unread | Ahead::Done => unreachable!(),
        }
    }

    // Ends the input. The answer is false.
    fn end(&mut self, core: &mut Core, how: How) -> bool
        requires open { IsOpen core.old.plan (base_of core.old) core.old.past (Ingress self.old.port) }
        requires may { MayEnd core.old.plan (base_of core.old) core.old.past (Ingress self.old.port) how }
        ensures answer { result ≡ false }
        ensures entered { core.new ≡ with_event core.old (End (Ingress self.old.port) how) }
        ensures rest { self.new ≡ record self.old { ahead = ahead.Done } }
    {
        let _entry = core.step(Event::End {
            who: Who::Ingress(self.port),
            how,
        });
        self.ahead = Ahead::Done;
        false
    }
}
