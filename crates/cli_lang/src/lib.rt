//! The control input of the switch: its lines, and the command that a line asks for.
//!
//! `command` reads a line; `specs/Commands.antt` says which line is which command, and which fault each
//! other line has, and `specs/CommandOf.antt` says it as a function of the line. `Lines` reads the lines of
//! any source; `specs/Arrivals.antt` says which lines and which ending the octets of an input are. The
//! contract of `Lines::next` says of the octets that the source gave in a call which line they are;
//! `specs/Readers.antt` has its words. The laws stand in `laws`: each list of octets is one input, and call
//! after call gives it. Read for addresses: RFC 4291 section 2.2.
#![tactic(auto)]

mod ahead;
mod command_line;
mod kinds;
mod laws;
mod reader;
mod taking;
mod text;
mod words;

pub use command_line::command;
pub use kinds::{CmdFault, Command, LineGot};
pub use laws::{
    a_line_has_one_answer, calls_before_fault, calls_give_input, every_line_comes_to_its_command,
    front_arrives, octets_arrive, octets_arrive_once, words_spell_their_line,
};
pub use reader::Lines;
