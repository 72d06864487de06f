//! What the program does with the words of its command line: `run`, the top call, over any world of inputs, outputs and
//! ports (`savi_ends`).
//!
//! The contract of `run` carries the theorem of the whole: where a session began there is one history of the plan that the
//! configuration says, in legal segments, it is the replay of what the sources of control and of the ports gave to sinks
//! that may fail, and the journal, the replies, each port's output, the summary, the lines on standard error and the status
//! are those of these segments, or, of what is written, a front where a write failed (`specs/Session.antt`). A live session,
//! whose ports are served side by side, has the segments of one history too, by which each end was served
//! (`specs/Live.antt`). Where a load is asked for, its segments, a plain definition of the seed and the number of packets,
//! are summed up, and nothing is opened (`specs/Loads.antt`). Where a journal is to be checked, the line on standard output
//! is the one answer to its text, `good` exactly where the text is the journal of a finished history (`specs/Checks.antt`).
//! Where it is to be audited, what is printed is a plain function of its history (`specs/Audits.antt`).
//! Where a capture of several interfaces is to be split, each output holds the classic capture of its interface, or a front
//! of it where the work stopped (`specs/Splits.antt`). Where captures are to be learned from, what is printed is a plain
//! function of the plan, the window and whole inputs (`specs/Learnings.antt`).
#![tactic(auto)]

mod audits;
mod checks;
mod ends_told;
mod learning;
mod live;
mod loads;
mod outcome;
mod serving;
mod session;
mod splits;
mod summing;
mod top;

pub use top::{
    CONFIG_FAULT, MALFORMED, NO_MEMORY, OPEN_FAULT, READ_FAULT, USAGE, WRITE_FAULT, run,
};
