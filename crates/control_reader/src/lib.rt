//! The reader of live control: it reads the lines of control's input up to the end or up to `quit`, stamps each by the
//! clock, and hands them to who answers them by a ring.
//!
//! `LineReader::run` puts each line and last how the input ended. So a line is read while another waits for its turn at the
//! lock, as far as the ring has room. It knows no limit of a history. Its contract (`specs/Rows.antt`) says what the source
//! gave up and what the clock read, by what was put. What the other end makes of what it took stands in
//! `specs/Answered.antt`, and the law says what both leave of control together.
#![tactic(auto)]

mod arrival;
mod laws;
mod quit;
mod reader;

pub use arrival::{LineArrival, LinesEnd};
pub use laws::reader_and_answers_leave_one_row;
pub use quit::is_quit;
pub use reader::LineReader;
