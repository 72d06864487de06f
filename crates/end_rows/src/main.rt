//! Captures, streams and lines of control, with the ends in memory that they are read from and written to, and clocks.
//!
//! The input is lines, of which those that begin with `#` are passed over. Those of the first part say what others go by:
//!
//!     == TEXT                      is printed as it stands: what the lines behind it show
//!     name NAME DIGITS             octets of a part of an input in hexadecimal digits
//!     text TEXT                    the input is this text
//!     input PARTS                  the input is these parts: their names, or `DIGITS*COUNT` for digits that come so often
//!     add PARTS                    the input has these parts behind what it was
//!
//! What each of these comes to is printed. In a text `\n`, `\t` and `\s` are a line feed, a tab and a space.
//!
//!     lines MOST READ              six answers to a reader of control lines: of a line its stamp, length and command
//!     live MOST READ               the same where they are live
//!     read READER MOST READ        four answers to a reader of captures (`capture`), of those of one kind (`little`), or of
//!                                  streams (`stream`)
//!     cuts READER MOST             the same of each front of the input, once where that is the same
//!     cuts READER MOST fails       the same where the read behind the octets of each front fails
//!     form FORM MOST               three answers to a reader of `pcap` or `stream`, and the octets of each frame
//!     blocks MOST READ             four answers to a reader of captures of several interfaces
//!     split MOST                   such a capture is split, with an output for the first interface alone
//!     write FORM WRITE FRAMES      a capture or a stream is written, of frames MOMENT/DIGITS
//!     again FORM OCTETS            a frame of so many octets is written, and four answers to a reader of what was written
//!     source MOST READ             six reads of a source into four octets, those octets, and how many reads failed
//!     sure                         the same of a source that gives all at once
//!     fill MOST READ               five octets are filled
//!     sink ROOM WRITE PIECES       pieces are written to a sink: what each comes to, what it has, and how many failed
//!     count PIECES                 the same of a sink that counts
//!     clock READINGS               four readings of a clock over these
//!     world NAME PORT OPENING      what is opened in a world
//!     clocks SETTINGS              readings of the machine's clock
//!
//! MOST is how many octets a source gives at most in a read; READ, WRITE and OPENING are the numbers, from 1 on, of the
//! read, the write and the opening that fail, and 0 is none.
#![tactic(auto)]

mod blocks;
mod clocks;
mod ends;
mod forms;
mod input;
mod lines;
mod readers;
mod split;
mod state;
mod world;
mod writers;

use input::Input;
use state::follow;

fn main(rt: HostRuntime) -> anyhow::Result<()> {
    let mut input = Input::new(rt.alloc());
    for line in rt.lines(rt.alloc()) {
        let line = line?;
        follow(&rt, rt.alloc(), &mut input, line.as_str())?;
    }
    Ok(())
}
