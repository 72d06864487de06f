//! What a run says: the summary of its history, what a journal was found to be and what its audit has counted, and its lines
//! on standard error.
//!
//! A text is written to a sink (`savi_ends`) whole, or a front of it where a write fails. The texts are those of
//! `savi_history`; the lines that a run says itself stand in `specs/RunLines.antt`.
#![tactic(auto)]

mod check_line;
mod end_line;
mod end_lines;
mod run_lines;
mod summary;
mod summary_text;
mod told_ends;

pub use check_line::{
    CHECK_LINE_OCTETS, CheckLine, FIELD_TEXT_OCTETS, put_audited, put_bad_line, put_good, put_wrong,
};
pub use end_lines::tell_end;
pub use run_lines::{
    port_name, tell_config, tell_malformed, tell_memory, tell_unopened, tell_unread,
    tell_unwritten, tell_usage,
};
pub use summary::Summary;
pub use summary_text::{SUMMARY_OCTETS, put_summary};
pub use told_ends::{tell_each, told_failed, told_failed_write, told_malformed};
