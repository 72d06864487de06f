//! The ends of control, and what was read ahead of its input.

ghost use Rattle.std.specs.Prelude.{◌≡◌, true, false, IsSome, IfSome};
ghost use Rattle.cli_lang.specs.CommandOf.{command_of};
ghost use Rattle.savi_history.specs.ControlInputs.{is_quit_command};

use cli_lang::{Command, LineGot, Lines, command};
use savi_core::{Core, Event, Reply};
use savi_ends::{Clock, Ends, Put, Sink, Source};
use savi_kinds::{CONTROL_LINE_OCTETS, How, Who};

/// The ends of control, with the reader of its input and room for one line. The input isn't live: each of its lines has its
/// stamp.
#[derive(Drop)]
pub struct ControlEnds<S, K, C> {
    pub ends: Ends<S, K, C>,
    reader: Lines,
    buf: [u8; CONTROL_LINE_OCTETS],
    ahead: LineAhead,
}

// What was read of control's input and isn't entered yet.
#[derive(Clone, Copy)]
enum LineAhead {
    // Nothing.
    Unread,
    // A line, whose command is the first `len` octets of the buffer.
    Line { stamp: u64, len: u32 },
    // The end behind a line.
    End,
    // The place of what is at fault.
    Malformed { at: u64 },
    // The place of a line that is too long.
    Overlong { at: u64 },
    // A read failed.
    Failed,
    // The end of the input was entered.
    Done,
}

impl<S, K, C> ControlEnds<S, K, C> {
    ghost use Rattle.port_worker.specs.LineInputs.{IsUnheard, line_moment_ahead};

    /// The ends of control, of which nothing was read yet.
    pub fn new(ends: Ends<S, K, C>) -> ControlEnds<S, K, C>
        ensures ends { result.ends ≡ ends }
        ensures unheard { IsUnheard result }
    {
        ControlEnds {
            ends,
            reader: Lines::new(),
            buf: [0; CONTROL_LINE_OCTETS],
            ahead: LineAhead::Unread,
        }
    }

    /// The ends, given back.
    pub fn into_ends(self) -> Ends<S, K, C>
        ensures { result ≡ self.ends }
    {
        let ControlEnds {
            ends,
            reader: _,
            buf: _,
            ahead: _,
        } = self;
        ends
    }

    // When the turn that was read comes: an ending at once, a line by its stamp.
    pub(crate) fn moment(&self) -> Option<u128>
        ensures { result ≡ line_moment_ahead self.now.ahead }
    {
        match self.ahead {
            LineAhead::Unread | LineAhead::Done => None,
            LineAhead::Line { stamp, len: _ } => Some(u128::from(stamp) + 1),
            LineAhead::End
            | LineAhead::Malformed { at: _ }
            | LineAhead::Overlong { at: _ }
            | LineAhead::Failed => Some(0),
        }
    }
}

impl<S: Source, K, C: Clock> ControlEnds<S, K, C> {
    ghost use Rattle.port_worker.specs.LineInputs.{IsLineSound, IsHeard};

    // Reads what comes next, where that isn't known.
    pub(crate) fn look(&mut self)
        requires { IsLineSound self.old.reader self.old.ahead }
        ensures { IsHeard S.left S.faults self.old self.new }
    {
        let LineAhead::Unread = self.ahead else {
            return;
        };
        match self.reader.next(
            &mut self.ends.source,
            &mut self.ends.clock,
            false,
            &mut self.buf,
        ) {
            LineGot::Line { stamp, len } => self.ahead = LineAhead::Line { stamp, len },
            LineGot::End => self.ahead = LineAhead::End,
            LineGot::Malformed { at } => self.ahead = LineAhead::Malformed { at },
            LineGot::Overlong { at } => self.ahead = LineAhead::Overlong { at },
            LineGot::Failed => self.ahead = LineAhead::Failed,
        }
    }
}

impl<S, K, C> ControlEnds<S, K, C> {
    ghost use Rattle.port_worker.specs.LineInputs.{control_turn_of};
    ghost use Rattle.port_worker.specs.Steps.{comes_in};

    // Whether the turn that was read is a line, which needs room in the history.
    pub(crate) fn has_line(&self) -> bool
        ensures { IfSome (control_turn_of self.now) (λ turn. result ≡ comes_in turn) }
    {
        matches!(self.ahead, LineAhead::Line { stamp: _, len: _ })
    }
}

impl<S, K: Sink, C> ControlEnds<S, K, C> {
    ghost use Rattle.savi_kinds.specs.declared.entry.Who.TheVariants.{Control};
    ghost use Rattle.savi_history.specs.Passes.{control_pass, has_ended};
    ghost use Rattle.savi_history.specs.Legal.{IsOpen, MayEnd};
    ghost use Rattle.savi_history.specs.Events.{End};
    ghost use Rattle.savi_core.specs.Machines.{base_of, with_event};
    ghost use Rattle.savi_core.specs.Refused.{EndsWithCommand};
    ghost use Rattle.port_worker.specs.LineInputs.{IsLineSound, control_turn_of};
    ghost use Rattle.port_worker.specs.LineSteps.{EntersLine, IsAnswered, IsControlStepped, line_ahead_after};
    ghost use Rattle.port_worker.specs.Steps.{HasRoomFor};
    ghost use Rattle.port_worker.specs.declared.control_ends.LineAhead.TheVariants as ahead;

    // Enters the turn that was read, for which there is room, and answers a line. The answer is true where it is a line;
    // else control's input has ended.
    pub(crate) fn enter(&mut self, core: &mut Core, reply: &mut Reply) -> bool
        requires known { IsSome (control_turn_of self.old) }
        requires sound { IsLineSound self.old.reader self.old.ahead }
        requires open { IsOpen core.old.plan (base_of core.old) core.old.past Control }
        requires room { IfSome (control_turn_of self.old) (λ turn. HasRoomFor core.old.plan core.old.past turn) }
        ensures plan { core.new.plan ≡ core.old.plan }
        ensures base { base_of core.new ≡ base_of core.old }
        ensures entered { IfSome (control_turn_of self.old) (λ turn. EntersLine K.written K.faults core.old.plan (base_of core.old) turn result core.old.past core.new.past self.old.ends.sink self.new.ends.sink) }
        ensures stepped { IsControlStepped K.written K.faults self.old self.new }
        ensures ahead { self.new.ahead ≡ line_ahead_after (has_ended (base_of core.old) (control_pass core.old.plan) core.new.past) }
    {
        match self.ahead {
            LineAhead::Line { stamp, len } => {
                let line = &self.buf[..len as usize];
                let quit = is_quit(line);
                let _entry = core.step(Event::Command { stamp, line });
                self.answer(core, quit, reply)
            }
            LineAhead::End => self.end(core, How::End),
            LineAhead::Malformed { at } => self.end(core, How::Malformed(at)),
            LineAhead::Overlong { at } => self.end(core, How::Overlong(at)),
            LineAhead::Failed => self.end(core, How::Failed),
            LineAhead::Unread | LineAhead::Done => unreachable!(),
        }
    }

    // Writes the reply to the line that was entered, in one write. Control ends where that fails, and behind `quit`. The
    // answer is true.
    fn answer(&mut self, core: &mut Core, quit: bool, reply: &mut Reply) -> bool
        requires command { EndsWithCommand core.old.past }
        requires open { IsOpen core.old.plan (base_of core.old) core.old.past Control }
        ensures answer { result ≡ true }
        ensures plan { core.new.plan ≡ core.old.plan }
        ensures base { base_of core.new ≡ base_of core.old }
        ensures answered { IsAnswered K.written K.faults core.old.plan (base_of core.old) quit core.old.past core.new.past self.old.ends.sink self.new.ends.sink }
        ensures stepped { IsControlStepped K.written K.faults self.old self.new }
        ensures ahead { self.new.ahead ≡ line_ahead_after (has_ended (base_of core.old) (control_pass core.old.plan) core.new.past) }
    {
        core.reply(reply);
        match self.ends.sink.write(reply.octets()) {
            Put::Failed => {
                self.end(core, How::Unwritten);
            }
            Put::Done if quit => {
                self.end(core, How::Quit);
            }
            Put::Done => self.ahead = LineAhead::Unread,
        }
        true
    }

    // Ends control. The answer is false.
    fn end(&mut self, core: &mut Core, how: How) -> bool
        requires open { IsOpen core.old.plan (base_of core.old) core.old.past Control }
        requires may { MayEnd core.old.plan (base_of core.old) core.old.past Control how }
        ensures answer { result ≡ false }
        ensures entered { core.new ≡ with_event core.old (End Control how) }
        ensures rest { self.new ≡ record self.old { ahead = ahead.Done } }
    {
        let _entry = core.step(Event::End {
            who: Who::Control,
            how,
        });
        self.ahead = LineAhead::Done;
        false
    }
}

// Whether a line is `quit`.
fn is_quit(line: &[u8]) -> bool
    ensures { result ≡ is_quit_command (command_of line.now) }
{
    matches!(command(line), Ok(Command::Quit))
}
