//! The reader of a port: it reads the input of its port up to the end, and hands what comes to the port's judge by a ring.
//!
//! `Reader::run` puts each arrival of its source and last how the input ended. So reading goes on while the judge waits for
//! its turn at the lock, as far as the ring has room. A reader knows no history and no limit: it has three ends, at the end
//! of the input, at a place that is malformed, and by a read that failed. Its contract (`specs/Rows.antt`) says what the
//! source gave up and what its clock read, by what was put.
//!
//! What a judge makes of what it took stands in `specs/Judging.antt`, and the laws say what both leave of a port together.
#![tactic(auto)]

mod laws;
mod reader;

pub use laws::{only_the_last_is_an_end, reader_and_judge_leave_one_row};
pub use reader::Reader;
